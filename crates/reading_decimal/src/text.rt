// Texts of moments.
ghost use Rattle.std.specs.Prelude.{◌≡◌, ◌+◌, ◌≤◌, ◌<◌, ◌∷◌, ◌++◌, pos};
ghost use Rattle.arrayvec.specs.ArrayString.{array_string_len};
ghost use Rattle.jiff.specs.Words.{civil_nanos};
ghost use Rattle.ledger_model.specs.Moment.{IsMoment};
ghost use Rattle.reading_decimal.specs.MomentText.{two_digits, clock_text, text_of};

use arrayvec::ArrayString;
use jiff::Timestamp;
use jiff::civil::DateTime;
use jiff::tz::Offset;
use ledger_model::Moment;

/// The whole second of a moment in UTC, as RFC 3339 writes it: `2026-03-01T10:00:00Z`.
pub fn moment_text(moment: Moment) -> ArrayString<20>
    ensures { result.bytes ≡ text_of moment }
{
    clock_text(utc_of(moment))
}

// What a clock shows at a moment in UTC.
fn utc_of(moment: Moment) -> DateTime
    ensures shown { civil_nanos result ≡ pos moment }
    ensures range { IsMoment moment }
{
    let nanos = i128::from(moment.nanos());
    Offset::UTC.to_datetime(Timestamp::from_nanosecond(nanos).unwrap())
}

// A datetime of a year below 10,000, with `Z` behind it.
fn clock_text(clock: DateTime) -> ArrayString<20>
    ensures { result.bytes ≡ clock_text clock }
{
    let year = clock.year().unsigned_abs();
    let mut text = ArrayString::new();
    push_two(&mut text, (year / 100) as u8);
    push_two(&mut text, (year % 100) as u8);
    push_after(&mut text, '-', clock.month().unsigned_abs());
    push_after(&mut text, '-', clock.day().unsigned_abs());
    push_after(&mut text, 'T', clock.hour().unsigned_abs());
    push_after(&mut text, ':', clock.minute().unsigned_abs());
    push_after(&mut text, ':', clock.second().unsigned_abs());
    text.push('Z');
    text
}

fn push_after(text: &mut ArrayString<20>, separator: char, number: u8)
    requires ascii { separator < 128 }
    requires small { number < 100 }
    requires room { array_string_len text.old + 3 ≤ 20 }
    ensures { text.new.bytes ≡ text.old.bytes ++ separator ∷ two_digits number }
{
    text.push(separator);
    push_two(text, number);
}

fn push_two(text: &mut ArrayString<20>, number: u8)
    requires small { number < 100 }
    requires room { array_string_len text.old + 2 ≤ 20 }
    ensures { text.new.bytes ≡ text.old.bytes ++ two_digits number }
{
    text.push(char::from(b'0' + number / 10));
    text.push(char::from(b'0' + number % 10));
}
