//! What a run of the program takes from its process.

use gathered_input::Readiness;
use running_desk::{Host, Output};
use std::io::{Read, Write};
use std::random::RandomSource;

/// The machine that the program runs on, and the types of its streams.
pub trait Process {
    /// The machine.
    type Runtime: Host + RandomSource;
    /// Standard input.
    type Input: Read + Readiness + Drop;
    /// Standard output.
    type Output: Output;
    /// Standard error, as the console of a server with a journal.
    type Console: Output;
    /// Standard error, as a run reports its end there.
    type Errors: Write + Drop;
    /// Standard error, as a server shows totals and logs sessions there.
    type Lines: Output;
}

impl<
    X: Host + RandomSource,
    R: Read + Readiness + Drop,
    W: Output,
    C: Output,
    E: Write + Drop,
    L: Output,
> Process for (X, R, W, C, E, L) {
    type Runtime = X;

    type Input = R;

    type Output = W;

    type Console = C;

    type Errors = E;

    type Lines = L;
}
