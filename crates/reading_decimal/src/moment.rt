// Instants from texts.
ghost use Rattle.std.specs.Prelude.{◌≡◌};
ghost use Rattle.reading_decimal.specs.Moment as spec;

use jiff::Timestamp;
use ledger_model::Moment;
use std::str::FromStr;

/// Why a text is no moment. The first fault that applies, in this order, is reported.
#[derive(Clone, Copy, PartialEq, Eq)]
pub enum MomentFault {
    /// The text is no instant with its offset.
    NotATime,
    /// The instant is before 2000-01-01T00:00:00Z, or not before 2100-01-01T00:00:00Z.
    MomentRange,
}

/// The instant of a time with its offset, as RFC 3339 writes it. It reads what `jiff` reads as a
/// `Timestamp`, so also wider forms of ISO 8601. An annotation in brackets doesn't move the
/// instant, and second 60 is read as 59. Errors: `NotATime`, and `MomentRange` outside the years
/// 2000 to 2099.
pub fn moment_of(text: &str) -> Result<Moment, MomentFault>
    ensures { result ≡ spec.moment_reading text.now }
{
    let Ok(timestamp) = Timestamp::from_str(text) else {
        return Err(MomentFault::NotATime);
    };
    let Ok(nanos) = u64::try_from(timestamp.as_nanosecond()) else {
        return Err(MomentFault::MomentRange);
    };
    Moment::new(nanos).ok_or(MomentFault::MomentRange)
}
