//! `ocpp_replay`, the program that replays and does nothing else.
//!
//! It answers a script from standard input on standard output, by `script_replay`, with the same faults and exit
//! statuses as `ocpp_board replay`. Its words are `replay`, which may be left out, `--help` and `--version`. It opens
//! no socket, and uses neither the servers nor `clap`. One function, `run` of `program`, does all of it, over any
//! words, input, output and standard error; `main` hands it those of the process.
#![tactic(auto)]

mod program;
mod words;

use crate::program::{refuse_words, run};
use gathered_input::gathered;
use std::process::ExitCode;
use std::rt::Env;
use std::{env, io};

fn main(rt: HostRuntime) -> ExitCode {
    let (input, output, errors) = (gathered(&rt, rt.stdin()), rt.stdout(), rt.stderr());
    let ended = match program_words(&rt) {
        Ok(words) => run(&rt, words.as_slice(), input, output, errors),
        Err(error) => refuse_words(output, errors, error.kind()),
    };
    ExitCode::from(ended.status)
}

fn program_words<X: AllocGlobal + Env>(rt: &X) -> io::Result<Vec<String>> {
    Ok(env::args(rt)?.collect(rt.alloc())?)
}
