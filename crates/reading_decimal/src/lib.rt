//! The texts of OCPP messages as exact numbers: readings, instants and settlement periods.
//!
//! A reading of an energy register comes as a decimal of RFC 8259 with a [`Unit`] and a multiplier, a
//! power of ten (SampledValueType, OCPP 2.0.1 Part 2, J02). [`mwh_of`] turns the three into whole
//! milliwatt-hours, without a float and without rounding to nearest. An instant comes as a time with
//! its offset (RFC 3339); [`moment_of`] reads it and [`moment_text`] writes it. [`quarter`] gives the
//! settlement period that a moment falls into, by periods of one of four lengths, [`settled_quarter`] the one
//! in which a difference counts that ends there, and [`quarter_start`] where a period begins. [`is_integer`] finds the numbers that are integers.
//!
//! The crate's contract: each call gives exactly the value, or exactly the fault, that a short
//! definition gives for its text. The laws say what the definitions mean: a decimal is what the
//! grammar of RFC 8259 calls a number ([`reads_numbers`]), the milliwatt-hours are the greatest whole
//! number that is not above the value ([`rounds_down`]), a moment's text reads back as its whole
//! second ([`reads_back`]), a period's start is its first moment ([`starts_quarters`]), and only a reading
//! there counts in another period by the rule that closes periods ([`closes_quarters`]). No call takes memory.
//!
//! ```text
//! mwh_of("1.2345678", 0, Unit::KWh)         // Ok(1_234_567)
//! mwh_of("12.5", -1, Unit::Wh)              // Ok(1_250)
//! mwh_of("01", 0, Unit::Wh)                 // Err(DecimalFault::NotADecimal)
//! moment_text(moment_of("2026-03-01T12:00:00+02:00")?)     // "2026-03-01T10:00:00Z"
//! ```
#![tactic(auto)]

mod decimal;
mod integer;
mod laws;
mod moment;
mod numeral;
mod period;
mod scale;
mod text;

pub use decimal::{DecimalFault, Unit, multiplier_ok, mwh_of};
pub use integer::is_integer;
pub use laws::{closes_quarters, reads_back, reads_numbers, rounds_down, starts_quarters};
pub use moment::{MomentFault, moment_of};
pub use period::{is_of, quarter, quarter_start, settled_quarter};
pub use text::moment_text;
