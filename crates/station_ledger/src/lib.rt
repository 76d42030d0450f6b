//! One station's transaction ledger, its figures and its board.
//!
//! A [`StationLedger`] keeps the transaction events of one station. Each has its key and is voided or
//! not. The ledger was opened with limits, a length of settlement periods, an order of readings and a rule of
//! settling.
//! [`StationLedger::apply`] takes one command and answers it: the change is accepted and counted; or an
//! equal event is there already; or one of eight refusals names the first rule against it. A repeat and a
//! refusal change nothing. [`StationLedger::energy`] adds up the rises and falls of the import register
//! from each counted reading to the next one of its transaction: by sequence, or by moment if the ledger
//! was opened so, whichever events the readings came with. [`StationLedger::evse`] does so for the
//! transactions of one EVSE; [`StationLedger::export`] and [`StationLedger::evse_export`] do the same for
//! the export register. [`StationLedger::figures`] sums up the station in nine numbers. A
//! [`StationBoard`] shows the figures, the EVSEs and the periods with their energies, and each
//! transaction with a live event and its missing numbers. [`StationLedger::listing`] lists the events of a transaction,
//! and the readings that its energy is made of. `energy`, `export`, `evse`, `evse_export`, `figures`
//! and `listing` are lent no `Work`, so none of them looks at what a reading shows. `board` is lent one: if the site
//! settles evenly, what two readings show is shared by time when the board is made, and counted once for each pair; else
//! nothing is counted. [`parts_between`] is given the difference of two readings and looks at no level.
//!
//! The crate's contract: contracts see a ledger as its limits, its period, its order and its content, and not how these
//! are kept. `apply` gives the answer of the ledger's step and leaves the step's content. As many accepted commands as
//! a ledger counts lead from the empty content to its own. A caller that needs the answer before the change, because it
//! writes the change down first, asks for the judgement and hands it on ([`StationLedger::judgement`],
//! [`StationLedger::apply_judged`]). `energy`, `evse`, `export`, `evse_export`, `figures` and `board` are what the
//! definitions compute from scratch from the present content. Only `open`, `board` and `listing` can run out of memory; the
//! other calls have no such exception.
//!
//! A change costs only what one event changes. By sequence, in each direction in which the event has
//! readings, the pair across its place is taken back and the pairs that its readings make are added.
//! Each is evaluated once, so there are at most two differences more than the event has readings of the
//! direction. By moment, its readings may be in several places among those of other events. Each run of
//! them takes back the pair across it, and the pairs that they make are added: at most one difference
//! for each reading and two for each run. In a direction in which the event has no reading nothing is
//! compared. The sums are kept beside the events and follow those pairs. No change computes a figure anew, and
//! only `open`, `board` and `listing` ask for memory.
//!
//! ```text
//! let mut ledger = StationLedger::open(alloc, limits, period, order, settle)?;
//! ledger.apply(Command::Deliver(key, event), &mut work); // Accepted(1)
//! ledger.energy().up(); // milliwatt-hours
//! for line in ledger.board(alloc, &mut work)?.transactions() { .. } // line.tx(), line.missing(), line.gaps()
//! ```
#![tactic(auto)]

mod board;
mod by_moment;
mod judgement;
mod ledger;
mod lines;
mod listing;
mod moves;
mod pairs;
mod shares;
mod standing;
mod sums;
mod totals;
mod used;

pub use board::{EvseLine, QuarterLine, StationBoard, TxLine};
pub use event_chain::EventLine;
pub use judgement::Judgement;
pub use ledger::StationLedger;
pub use listing::{TxListing, parts_between};
pub use reading_index::PlacedReading;
#[doc(hidden)]
pub use standing::Standing;
#[doc(hidden)]
pub use totals::EvseSum;
pub use used::UsedLimits;
