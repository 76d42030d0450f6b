//! Differences that are shared by time.
ghost use Rattle.std.specs.Prelude.{◌≡◌, ◌≤◌, ◌/◌, ◌++◌, true, IfOk};
ghost use Rattle.energy_flow.specs.Work.{counted};
ghost use Rattle.ledger_model.{specs.Energy.{change_of, difference as difference_between}, specs.Moment.IsMoment, specs.Parts.{is_shared, parts_by, shares as shares_of}, specs.Quarter.quarter_at, specs.declared.settle.Settle.Settle};
ghost use Rattle.quarter_table.specs.Shares.{come_by};

use energy_flow::{Flow, Level, Work, difference};
use ledger_model::{FIRST_MOMENT, Period, Quarter, Reading};
use std::alloc::{AllocError, Global};
use std::marker::Model;

const NANOS_PER_SECOND: u64 = 1_000_000_000;

// A day: a difference over more time is not shared.
const LONGEST_SHARE: u64 = 86_400 * NANOS_PER_SECOND;

// What a register showed twice: the earlier and the later moment, in nanoseconds since 1970, the earlier and the later
// level, and the difference of the levels.
#[derive(Drop)]
struct Change {
    since: u64,
    until: u64,
    earlier: Level,
    later: Level,
    flow: Flow,
}

impl Model for Change {
    ghost use Rattle.std.specs.Prelude.{◌≡◌, ◌≤◌};
    ghost use Rattle.energy_flow.specs.Flow.{difference_of};
    ghost use Rattle.ledger_model.{specs.Moment.IsMoment, specs.Parts.Change as Shown, specs.Ranges.greatest_reading};

    ghost Value = { Shown };

    ghost view = { λ c. record { since = c.since; until = c.until; earlier = c.earlier; later = c.later } };

    ghost invariant = { λ c. IsMoment c.since × IsMoment c.until × (c.earlier ≤ greatest_reading) × (c.later ≤ greatest_reading) × (c.flow ≡ difference_of c.earlier c.later) };
}

impl Change {
    // What these two readings show, which differ by this flow.
    fn of(earlier: Reading, later: Reading, flow: Flow) -> Change
        requires { flow ≡ difference_between (earlier, later) }
        ensures { result ≡ change_of (earlier, later) }
    {
        Change {
            since: earlier.moment().nanos(),
            until: later.moment().nanos(),
            earlier: earlier.level(),
            later: later.level(),
            flow,
        }
    }

    // Returns whether the difference is shared: the moments rise, by at most a day.
    fn is_shared(&self) -> bool
        ensures { result ≡ is_shared self.now }
    {
        self.since < self.until && self.until - self.since <= LONGEST_SHARE
    }

    // How much of the difference has come by a second, rounded down. A share of the greatest level is below 2^60 before
    // it is divided.
    fn come_by(&self, second: u64) -> Flow
        requires shared { is_shared self.now ≡ true }
        requires second { second ≤ self.now.until / 1_000_000_000 }
        ensures { result ≡ come_by self.now second }
    {
        let first = self.since / NANOS_PER_SECOND;
        let long = self.until / NANOS_PER_SECOND - first;
        if long == 0 {
            return Flow::zero();
        }
        self.flow.share(second.saturating_sub(first), long)
    }

    // Puts the shares of the difference among periods of this length behind others.
    fn put_shares(&self, length: Period, parts: &mut Vec<(Quarter, Flow)>) -> Result<(), AllocError>
        requires { is_shared self.now ≡ true }
        ensures { IfOk result (λ _. parts.new.items ≡ parts.old.items ++ shares_of length self.now) }
    {
        let seconds = u64::from(length.seconds());
        let first = self.since / NANOS_PER_SECOND / seconds;
        let last = (self.until - 1) / NANOS_PER_SECOND / seconds;
        let mut come = Flow::zero();
        for number in first..last {
            let next = self.come_by((number + 1) * seconds);
            // Periods between two moments are those of moments.
            let quarter = Quarter::new(number as u32).unwrap();
            parts.push((quarter, next.minus(come)))?;
            come = next;
        }
        let quarter = quarter_of(self.until - 1, length);
        parts.push((quarter, self.flow.minus(come)))?;
        Ok(())
    }
}

// The period that a moment, given by its nanoseconds since 1970, falls into.
fn quarter_of(nanos: u64, length: Period) -> Quarter
    requires { IsMoment nanos }
    ensures { result ≡ quarter_at length nanos }
{
    let number = nanos / NANOS_PER_SECOND / u64::from(length.seconds());
    Quarter::new(number as u32).unwrap()
}

/// What two readings show, shared by time: each settlement period of this length to which a part of their difference
/// belongs, in rising order, and the energy of that part. Counts one look in `work`, also before the error, which says
/// that the allocator refused memory.
pub fn even_parts(
    alloc: Global,
    length: Period,
    earlier: Reading,
    later: Reading,
    work: &mut Work,
) -> Result<Vec<(Quarter, Flow)>, AllocError>
    ensures parts { IfOk result (λ parts. parts.items ≡ parts_by Settle.Even length (change_of (earlier, later))) }
    ensures work { work.new ≡ counted work.old 1 }
    ensures grows { work.old ≤ work.new }
{
    let flow = difference(earlier.level(), later.level(), work);
    share_evenly(alloc, length, earlier, later, flow)
}

/// The parts that [`even_parts`] gives, of two readings that differ by this flow: no level is looked at. The error says
/// that the allocator refused memory.
///
/// Condition: the flow is the difference of the readings' levels.
pub fn share_evenly(
    alloc: Global,
    length: Period,
    earlier: Reading,
    later: Reading,
    flow: Flow,
) -> Result<Vec<(Quarter, Flow)>, AllocError>
    requires { flow ≡ difference_between (earlier, later) }
    ensures { IfOk result (λ parts. parts.items ≡ parts_by Settle.Even length (change_of (earlier, later))) }
{
    let change = Change::of(earlier, later, flow);
    let mut parts = Vec::new(alloc);
    if change.is_shared() {
        change.put_shares(length, &mut parts)?;
    } else {
        let before = (change.until - 1).max(FIRST_MOMENT);
        let quarter = quarter_of(before, length);
        parts.push((quarter, change.flow))?;
    }
    Ok(parts)
}
