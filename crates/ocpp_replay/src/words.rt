//! The program's words.
ghost use Rattle.std.specs.Prelude.{◌≡◌, map};
ghost use Rattle.ocpp_replay.specs.Words.{asks_help, two_meaning, word_meaning, words_meaning};

use script_lines::script_help;
use std::convert::AsStr;

/// What the program's words ask for.
pub enum Action {
    /// The answers to a script.
    Replay,
    /// The text of `HELP`.
    Help,
    /// The program's name and version.
    Version,
    /// Nothing that the program does.
    Unknown,
}

/// What `--version` writes.
pub const VERSION: &str = "ocpp_replay 0.3.0\n";

/// The answer to words that ask for nothing that the program does.
pub const USAGE: &str =
    "ocpp_replay takes the words replay, --help and --version; it answers the script that it reads from standard input\n";

/// What `--help` writes: the part on `replay` of the text of `ocpp_board --help`.
pub const HELP: &str = script_help!(
    "\
Answers a script from standard input on standard output, as `ocpp_board replay` does

Usage: ocpp_replay [replay]
       ocpp_replay --help | --version

",
    "\n\
Exit status: 0; 1 with `fault <name>` on standard error where the replay stopped before its
end (ReadFault, WriteFault, TooMuchInput, OutOfMemory); 2 for a fault of the arguments.
"
);

/// What these words ask for. The first word is the program's name.
pub fn read_words<S: AsStr>(words: &[S]) -> Action
    ensures { result ≡ words_meaning (map S.text words.now) }
{
    match words {
        [] | [_] => Action::Replay,
        [_, word] => read_word(word.as_str()),
        [_, word, other] => read_two(word.as_str(), other.as_str()),
        _ => Action::Unknown,
    }
}

// What one word asks for.
fn read_word(word: &str) -> Action
    ensures { result ≡ word_meaning word.now }
{
    if word == "replay" {
        Action::Replay
    } else if is_help(word) {
        Action::Help
    } else if word == "--version" || word == "-V" {
        Action::Version
    } else {
        Action::Unknown
    }
}

// What two words ask for.
fn read_two(word: &str, other: &str) -> Action
    ensures { result ≡ two_meaning word.now other.now }
{
    if word == "replay" && is_help(other) {
        Action::Help
    } else {
        Action::Unknown
    }
}

// Whether a word asks for the text of `HELP`.
fn is_help(word: &str) -> bool
    ensures { result ≡ asks_help word.now }
{
    word == "--help" || word == "-h"
}
