// What the definitions of this crate mean together, each as the contract of a call without a body.
ghost use Rattle.reading_decimal.specs.Laws.{ClosesQuarters, ReadsBack, ReadsNumbers, ReadsParts, RoundsDown, StartsQuarters};

/// The milliwatt-hours of a decimal are the greatest whole number that is not above its value.
/// (Both sides are multiplied by the power of ten that makes them whole.)
pub fn rounds_down()
    ensures { RoundsDown }
{}

/// The start of each settlement period is a moment, falls into that period, and is the first to do so.
pub fn starts_quarters()
    ensures { StartsQuarters }
{}

/// A moment at which a settlement period begins closes the period before; every other moment, and the first of
/// all, closes the period that it lies in. So the two rules count a difference in two periods exactly where its
/// later reading lies at the beginning of one.
pub fn closes_quarters()
    ensures { ClosesQuarters }
{}

/// The text of a moment reads back as the moment's whole second.
pub fn reads_back()
    ensures { ReadsBack }
{}

/// A token is a decimal exactly if it is a number by the grammar of RFC 8259.
pub fn reads_numbers()
    ensures { ReadsNumbers }
{}

/// The value is computed from the digits before and behind the point and the exponent with its
/// sign; these are those that the grammar of RFC 8259 has there.
pub fn reads_parts()
    ensures { ReadsParts }
{}
