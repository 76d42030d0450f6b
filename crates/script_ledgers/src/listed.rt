//! The answers to a question for a list of a transaction, and to a mark.
ghost use Rattle.std.specs.Prelude.{◌≡◌, ◌≤◌, ◌++◌, [], OnOk};
ghost use Rattle.script_ledgers.specs.Script.{listed, mark_line};

use board_report::{write_events, write_readings};
use energy_flow::Work;
use ledger_model::{Name, TxId};
use script_lines::{LineFault, TxList, put_fault, put_line};
use station_ledger::TxListing;
use std::alloc::{AllocError, Global};

/// Puts a list of the events or of the readings of a transaction of the station of this name into the reply; if it has
/// no event, the fault that says so. `work` counts the looks at levels that a list of readings takes, also before an
/// error, which says that the allocator refused memory.
pub fn put_listed(
    alloc: Global,
    reply: &mut Vec<u8>,
    what: TxList,
    name: &Name,
    tx: &TxId,
    listing: &TxListing,
    work: &mut Work,
) -> Result<(), AllocError>
    requires { reply.old.items ≡ [] }
    ensures work { work.old ≤ work.new }
    ensures text { OnOk result (reply.new.items ≡ listed what name.now tx.now listing.now) }
{
    if listing.events.as_slice().is_empty() {
        return put_fault(reply, LineFault::UnknownTransaction);
    }
    *reply = match what {
        TxList::Events => write_events(alloc, name, tx, listing)?,
        TxList::Readings => write_readings(alloc, name, tx, listing, work)?,
    };
    Ok(())
}

/// Puts `mark <word>` behind the reply. The error says that the allocator refused memory.
pub fn put_mark(reply: &mut Vec<u8>, word: &Name) -> Result<(), AllocError>
    ensures { OnOk result (reply.new.items ≡ reply.old.items ++ mark_line word.now) }
{
    reply.extend_from_slice(b"mark ")?;
    put_line(reply, word.text())
}
