// A decimal of RFC 8259 as whole milliwatt-hours.
ghost use Rattle.std.specs.Prelude.{◌≡◌, ◌↔◌, ◌*◌, ◌^◌, ◌≤◌, ◌&&◌, ◌≤ℤ◌, nat_lt, pos, negsuc, IsTrue};
ghost use Rattle.reading_decimal.specs.Decimal as spec;

use crate::numeral::Numeral;
use crate::scale::scaled;

/// The unit of a sampled value of energy (OCPP 2.0.1 Part 2, J02).
#[derive(Clone, Copy)]
pub enum Unit {
    /// Watt-hours, the unit if a sampled value names none.
    Wh,
    /// Thousands of watt-hours.
    KWh,
}

/// Why a token is no reading of a register. The first fault that applies, in this order, is
/// reported.
#[derive(Clone, Copy, PartialEq, Eq)]
pub enum DecimalFault {
    /// The token is no number of RFC 8259.
    NotADecimal,
    /// The token has more than 36 characters.
    TooLong,
    /// The written exponent is below -99 or above 99.
    ExponentRange,
    /// The value is below zero.
    Negative,
    /// The result is above 10^13 milliwatt-hours.
    TooLarge,
}

// The most characters of a decimal.
const MAX_CHARACTERS: usize = 36;

// The greatest exponent that a decimal may write, whatever its sign.
const MAX_EXPONENT: u128 = 99;

/// Whether a multiplier is from -12 to 12. It is the power of ten that a unit of measure names
/// (UnitOfMeasureType, OCPP 2.0.1 Part 2, J02).
pub fn multiplier_ok(multiplier: i8) -> bool
    ensures { IsTrue result ↔ ((negsuc 11 ≤ℤ multiplier) × (multiplier ≤ℤ pos 12)) }
{
    -12 <= multiplier && multiplier <= 12
}

/// The milliwatt-hours of a decimal of RFC 8259 in a unit, times the power of ten that the multiplier
/// names; rounded down to a whole number, 0 to 10^13. Minus zero is 0. The multiplier must be from -12
/// to 12 (`multiplier_ok` tests it). The error is the first [`DecimalFault`] that applies.
pub fn mwh_of(token: &str, multiplier: i8, unit: Unit) -> Result<u64, DecimalFault>
    requires low { negsuc 11 ≤ℤ multiplier }
    requires high { multiplier ≤ℤ pos 12 }
    ensures { result ≡ spec.mwh_reading token.now multiplier unit }
{
    let bytes = token.as_bytes();
    let digits = unsigned(bytes);
    let numeral = Numeral::scan(digits);
    if !numeral.is_decimal(digits.len()) {
        return Err(DecimalFault::NotADecimal);
    }
    if bytes.len() > MAX_CHARACTERS {
        return Err(DecimalFault::TooLong);
    }
    let exponent = numeral.exponent_value();
    if exponent > MAX_EXPONENT {
        return Err(DecimalFault::ExponentRange);
    }
    let value = numeral.digits_value();
    if is_below_zero(bytes, value) {
        return Err(DecimalFault::Negative);
    }
    let up = numeral.tens_up(exponent as u32) + tens_of(multiplier) + tens_of_unit(unit);
    let down = numeral.tens_down(exponent as u32) + tenths_of(multiplier);
    scaled(value, up, down).ok_or(DecimalFault::TooLarge)
}

fn is_negative(token: &[u8]) -> bool
    ensures { result ≡ spec.is_negative token.now }
{
    token.first() == Some(&b'-')
}

fn unsigned(token: &[u8]) -> &[u8]
    ensures { result.now ≡ spec.unsigned token.now }
{
    if is_negative(token) {
        &token[1..]
    } else {
        token
    }
}

fn is_below_zero(token: &[u8], digits: u128) -> bool
    ensures { result ≡ (spec.is_negative token.now && nat_lt 0 digits) }
{
    is_negative(token) && digits > 0
}

fn tens_of(multiplier: i8) -> u32
    ensures { result ≡ spec.tens_of multiplier }
{
    if multiplier < 0 {
        0
    } else {
        u32::from(multiplier.unsigned_abs())
    }
}

fn tenths_of(multiplier: i8) -> u32
    ensures value { result ≡ spec.tenths_of multiplier }
    ensures few { result ≤ 128 }
{
    if multiplier < 0 {
        u32::from(multiplier.unsigned_abs())
    } else {
        0
    }
}

// How many powers of ten turn one unit into milliwatt-hours.
fn tens_of_unit(unit: Unit) -> u32
    ensures value { spec.watt_hours unit * 1000 ≡ 10 ^ result }
    ensures few { result ≤ 6 }
{
    match unit {
        Unit::Wh => 3,
        Unit::KWh => 6,
    }
}
