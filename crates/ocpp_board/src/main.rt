//! `ocpp_board`, the program: its words, and what they start.
//!
//! `ocpp_board` or `ocpp_board replay` answers a script from standard input on standard output, by `script_replay`;
//! `serve` and `sim` run a server of stations, and simulated ones, by `journal_server`. `options` has its commands and
//! options, and `arguments`, `asked`, `limit_words` and `station_words` say what words ask for. One function, `run` of
//! `run`, is the whole program, over any words and streams: `serving` runs its servers, and `report` has the exit
//! statuses and the reports of faults on standard error. `main` hands `run` the words and the streams of the process.
#![tactic(auto)]

mod arguments;
mod asked;
mod limit_words;
mod options;
mod process;
mod report;
mod run;
mod serving;
mod station_words;

use crate::run::{Streams, refuse_unread, run};
use gathered_input::{Readiness, gathered};
use std::io::{Read, Write};
use std::net::{Net, TcpListener, TcpStream};
use std::process::ExitCode;
use std::random::RandomSource;
use std::rt::Env;
use std::sync::Wait;
use std::thread::Threads;
use std::time::Clock;
use std::{env, io};

fn main(rt: HostRuntime) -> ExitCode {
    let input = gathered(&rt, rt.stdin());
    let (console, errors, lines) = (rt.stderr(), rt.stderr(), rt.stderr());
    ExitCode::from(run_words(&rt, input, rt.stdout(), console, errors, lines))
}

// Runs the program with the words of the process, and gives its exit status.
fn run_words<
    X: AllocGlobal
        + Env
        + Threads
        + Wait
        + Clock
        + RandomSource
        + Sync
        + Net<Listener = TcpListener, Stream = TcpStream>,
    R: Read + Readiness + Drop,
    W: Write + Send + Drop,
    C: Write + Send + Drop,
    E: Write + Drop,
    L: Write + Send + Drop,
>(rt: &X, input: R, output: W, console: C, errors: E, lines: L) -> u8 {
    let streams = Streams {
        input,
        output,
        console,
        errors,
        lines,
    };
    match program_words(rt) {
        Ok(words) => run::<(X, R, W, C, E, L), _>(rt, &words, streams)
            .ended
            .status,
        Err(error) => refuse_unread(streams, error.kind()).status,
    }
}

fn program_words<X: AllocGlobal + Env>(rt: &X) -> io::Result<Vec<String>> {
    Ok(env::args(rt)?.collect(rt.alloc())?)
}
