//! What the program's words ask for.
ghost use Rattle.std.specs.Prelude.{◌≡◌, IfErr, IfOk, map, true};
ghost use Rattle.clap.{specs.Simple.{app_of, is_simple, subcommand_of, subcommand_rows_of}, specs.Takes.takes, specs.Values.kind_of, specs.declared.error.kind.ErrorKind.TheVariants.OutOfMemory};
ghost use Rattle.ocpp_board.specs.Arguments.{IsAskable, IsAskedBy};

use crate::asked::{Task, serve_asked, sim_asked};
use clap::{ArgMatches, Command, Error};
use std::convert::AsStr;

/// What these words ask for, if they fit the [`program`] that is handed in. The first word is the program's name.
pub fn read_arguments<'a, S: AsStr>(program: Command<'a>, words: &'a [S]) -> Result<Task<'a>, Error>
    requires { is_simple (app_of program) ≡ true }
    ensures range { IfOk result IsAskable }
    ensures asked { IfOk result (IsAskedBy (subcommand_of (app_of program.entry) (map S.text words.entry.now))) }
    ensures refused { IfErr result (λ e. takes (app_of program.entry) (map S.text words.entry.now) ≡ true → kind_of e ≡ OutOfMemory) }
{
    match program.try_get_matches_from(words) {
        Ok(matches) => Ok(asked_of(&matches)),
        Err(error) => Err(error),
    }
}

/// What the matches of the program's words ask for, by the command that they name; without one, to replay.
pub fn asked_of<'a>(matches: &ArgMatches<'a>) -> Task<'a>
    ensures range { IsAskable result }
    ensures command { IsAskedBy (subcommand_rows_of matches.now) result }
{
    match matches.subcommand() {
        Some(("serve", matches)) => serve_asked(matches),
        Some(("sim", matches)) => sim_asked(matches),
        _ => Task::Replay,
    }
}
