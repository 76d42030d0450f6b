//! Standard input, with everything that is ready collected in one read.
//!
//! A pipe of Linux holds 64 KiB, so a program that reads it with long pauses gets little at a time. If a read gives
//! much, more usually follows at once. [`GatheredInput`] then looks for it, for about a tenth of a millisecond, and
//! reads on while each read gives much and there is room for more. It looks without waiting (POSIX's `poll` with a
//! timeout of zero), and waits only for the first bytes, as any read does. A caller that must not wait in a read asks
//! first whether there is something to read ([`Readiness`]).
//!
//! A contract sees a [`GatheredInput`] as its input: it gives the same bytes in the same order, with none lost and none
//! added, and it ends where the input ends.
//!
//! ```text
//! let mut input = gathered(&rt, rt.stdin());
//! let count = input.read(&mut buf)?;   // what one read gives, or with what comes at once behind it
//! ```
#![tactic(auto)]

mod input;
mod readiness;

pub use input::{GatheredInput, gathered};
pub use readiness::{Readiness, StandardInput};
