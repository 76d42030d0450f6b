// Settlement periods of moments.
ghost use Rattle.std.specs.Prelude.{◌≡◌, ◌↔◌, ◌-◌, IsTrue, max};
ghost use Rattle.ledger_model.{specs.Moment.first_moment, specs.Quarter.{IsQuarterOf, quarter_at}, specs.Settling.settled_at};
ghost use Rattle.reading_decimal.specs.Quarter.{quarter_start};

use ledger_model::{FIRST_MOMENT, MOMENTS_END, Moment, Period, Periods, Quarter, Settle};

const NANOS_PER_SECOND: u64 = 1_000_000_000;

/// The settlement period that a moment falls into, by periods of this length: its number, counted
/// from 1970-01-01T00:00:00Z.
pub fn quarter(moment: Moment, period: Period) -> Quarter
    ensures value { result ≡ quarter_at period moment }
    ensures own { IsQuarterOf period result }
{
    let number = moment.nanos() / NANOS_PER_SECOND / u64::from(period.seconds());
    Quarter::new(number as u32).unwrap()
}

/// The period in which a difference counts by the settlement periods of its site, if its later reading was
/// taken at this moment.
pub fn settled_quarter(moment: Moment, periods: Periods) -> Quarter
    ensures value { result ≡ settled_at periods moment }
    ensures own { IsQuarterOf periods.length result }
{
    match periods.rule() {
        Settle::Later => quarter(moment, periods.length()),
        Settle::Closing | Settle::Even => quarter(moment_before(moment), periods.length()),
    }
}

// The moment one nanosecond earlier; the first moment itself if it is that.
fn moment_before(moment: Moment) -> Moment
    ensures { result ≡ max (moment - 1) first_moment }
{
    match Moment::new(moment.nanos() - 1) {
        Some(before) => before,
        None => Moment::first(),
    }
}

/// Returns whether the period of this number, by this length, begins at a moment of the years 2000
/// to 2099.
pub fn is_of(quarter: Quarter, period: Period) -> bool
    ensures { IsTrue result ↔ IsQuarterOf period quarter }
{
    let seconds = u64::from(quarter.number()) * u64::from(period.seconds());
    (FIRST_MOMENT / NANOS_PER_SECOND..MOMENTS_END / NANOS_PER_SECOND).contains(&seconds)
}

/// The first moment of a settlement period of this length. `is_of` tests that there is one.
pub fn quarter_start(quarter: Quarter, period: Period) -> Moment
    requires { IsQuarterOf period quarter }
    ensures { result ≡ quarter_start period quarter }
{
    let seconds = u64::from(quarter.number()) * u64::from(period.seconds());
    Moment::new(seconds * NANOS_PER_SECOND).unwrap()
}
