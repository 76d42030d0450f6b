//! The ledger as a library for C: the answer to a whole script in memory, and what a message asks for.
//!
//! [`ocpp_ledger_answer`] gives the text that a replay writes for a script. [`ocpp_message_asks`] says which transaction
//! and sequence number a station's message delivers, or which ready reply it has. No call keeps anything, starts a thread
//! or takes a lock, so threads of the caller may call at once. A call takes memory by the caller's `malloc`, `realloc`
//! and `free`, and gives all of it back. The caller lends a count of looks at levels, since nothing here can open one; a
//! call only raises it.
//!
//! `packaging/ocpp_ledger.h` is the header, and `packaging/ledger-library` links the shared object.
//!
//! ```text
//! uint32_t ocpp_ledger_answer(const uint8_t *script, size_t length,
//!                             uint8_t *text, size_t room, size_t *used, uint64_t *work);
//! ```
#![tactic(auto)]

mod asks;

ghost use Rattle.std.specs.Prelude.{◌≡◌, ◌≢◌, ◌<◌, ◌≤◌, ◌↔◌, ◌++◌, drop, length};
ghost use Rattle.script_ledgers.specs.Ranges.{longest_script};
ghost use Rattle.script_replay.specs.Outcome.{text_of};

use energy_flow::Work;
use script_replay::{AnswerFault, answer_script};
use std::alloc::Global;

/// The version of these calls. A call or a status that is added leaves it; one that changes raises it.
pub const OCPP_LEDGER_VERSION: u32 = 1;

/// The text is at the front of the buffer.
pub const OCPP_LEDGER_OK: u32 = 0;

/// The buffer has less room than the text needs.
pub const OCPP_LEDGER_TOO_SMALL: u32 = 1;

/// The script has more than 1 GiB.
pub const OCPP_LEDGER_TOO_LONG: u32 = 2;

/// There was no memory.
pub const OCPP_LEDGER_NO_MEMORY: u32 = 3;

/// The version of these calls.
#[unsafe(no_mangle)]
pub extern "C" fn ocpp_ledger_version() -> u32
    ensures { result ≡ OCPP_LEDGER_VERSION }
{
    OCPP_LEDGER_VERSION
}

/// Writes the text of a script to the front of a buffer, and into `used` how many bytes the text has. If the buffer is
/// too small, `used` has how many bytes it needs, and the buffer stays as it was; with an empty buffer a call asks only
/// for that. After any other fault `used` is 0. `work` counts the looks at levels that the answers took.
#[unsafe(no_mangle)]
pub extern "C" fn ocpp_ledger_answer(
    alloc: Global,
    script: &[u8],
    text: &mut [u8],
    used: &mut usize,
    work: &mut Work,
) -> u32
    ensures answers { result ≡ OCPP_LEDGER_OK → text.new ≡ text_of script.now ++ drop used.new text.old }
    ensures too_small { result ≡ OCPP_LEDGER_TOO_SMALL → length text.old < used.new }
    ensures count { result ≤ OCPP_LEDGER_TOO_SMALL → used.new ≡ length (text_of script.now) }
    ensures too_long { (result ≡ OCPP_LEDGER_TOO_LONG) ↔ (longest_script < length script.now) }
    ensures statuses { result ≤ OCPP_LEDGER_NO_MEMORY }
    ensures nothing { OCPP_LEDGER_TOO_SMALL < result → used.new ≡ 0 }
    ensures unchanged { result ≢ OCPP_LEDGER_OK → text.new ≡ text.old }
    ensures work { work.old ≤ work.new }
{
    match answer_script(&((), alloc), script, work) {
        Ok(answer) => {
            *used = answer.len();
            put_answer(&answer, text)
        }
        Err(fault) => {
            *used = 0;
            match fault {
                AnswerFault::TooLong => OCPP_LEDGER_TOO_LONG,
                AnswerFault::OutOfMemory => OCPP_LEDGER_NO_MEMORY,
            }
        }
    }
}

// Copies an answer to the front of a buffer, if there is room for it.
fn put_answer(answer: &[u8], text: &mut [u8]) -> u32
    ensures fits { length answer.now ≤ length text.old → (result ≡ OCPP_LEDGER_OK) × (text.new ≡ answer.now ++ drop (length answer.now) text.old) }
    ensures too_small { length text.old < length answer.now → (result ≡ OCPP_LEDGER_TOO_SMALL) × (text.new ≡ text.old) }
{
    if text.len() < answer.len() {
        return OCPP_LEDGER_TOO_SMALL;
    }
    text[..answer.len()].copy_from_slice(answer);
    OCPP_LEDGER_OK
}
