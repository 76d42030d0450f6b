//! The answer to a whole script in memory, without threads.
ghost use Rattle.std.specs.Prelude.{◌≡◌, ◌<◌, ◌≤◌, ◌↔◌, IfErr, IfOk, length};
ghost use Rattle.script_ledgers.specs.Ranges.{longest_script};
ghost use Rattle.script_replay.specs.Outcome.{text_of};

use crate::replay::replay_lines;
use energy_flow::Work;
use ledger_model::MAX_SITES;
use message_ahead::Alone;
use script_ledgers::MAX_SCRIPT_BYTES;
use site_book::Tables;
use std::marker::Brand;

/// Why a script in memory has no answer.
#[derive(Clone, Copy)]
pub enum AnswerFault {
    /// It has more than 1 GiB.
    TooLong,
    /// The allocator refused memory.
    OutOfMemory,
}

/// The text of a script in memory: what a replay writes for it. It starts no thread and keeps nothing. `work` counts the
/// looks at levels that the answers take.
pub fn answer_script<X: AllocGlobal>(
    rt: &X,
    script: &[u8],
    work: &mut Work,
) -> Result<Vec<u8>, AnswerFault>
    ensures text { IfOk result (λ text. text.items ≡ text_of script.now) }
    ensures fits { IfOk result (λ _. length script.now ≤ longest_script) }
    ensures long { IfErr result (λ fault. (fault ≡ AnswerFault.TooLong) ↔ (longest_script < length script.now)) }
    ensures work { work.old ≤ work.new }
{
    if script.len() > MAX_SCRIPT_BYTES {
        return Err(AnswerFault::TooLong);
    }
    let Ok(tables) = Tables::make(rt.alloc(), MAX_SITES as u16) else {
        return Err(AnswerFault::OutOfMemory);
    };
    let mut rest = script;
    let mut text = Vec::new(rt.alloc());
    match replay_lines::<Brand, X, Alone, &[u8], Vec<u8>>(
        rt, tables, Alone, &mut rest, &mut text, work,
    ) {
        Ok(()) => Ok(text),
        Err(_) => Err(AnswerFault::OutOfMemory),
    }
}
