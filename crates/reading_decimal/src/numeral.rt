// A number without its sign, cut into its parts.
ghost use Rattle.std.{specs.Prelude.{◌≡◌, ◌+◌, ◌≤◌, ◌<◌, ◌*◌, ◌^◌, ◌&&◌, ◌==◌, [], length, slice_index, slice_range, if◌then◌else◌, IsTrue}, specs.Float.Numeral.{scan_numeral, has_exponent, exponent_start, digits_end, numeral_digits, tens_up, tens_down}, specs.Str.Parse.{AllDigits, digits_value, digits_value_after}};

/// The longest run of digits, point and exponent at the front of a text, in its parts.
#[derive(Drop)]
pub struct Numeral<'a> {
    pub whole: &'a [u8],
    pub point: bool,
    pub fraction: &'a [u8],
    pub exponent_negative: bool,
    pub exponent: &'a [u8],
    pub len: usize,
}

impl<'a> Numeral<'a> {
    ghost use Rattle.reading_decimal.{specs.Numeral.{parts_of, IsShort}, specs.Decimal.is_decimal_of};

    /// The numeral at the front of these bytes; its digits may be none.
    pub fn scan(bytes: &'a [u8]) -> Numeral<'a>
        ensures { parts_of result ≡ scan_numeral bytes.now }
    {
        let whole_end = digits_end(bytes, 0);
        let whole = &bytes[..whole_end];
        if byte_at(bytes, whole_end) != b'.' {
            return Numeral::with_exponent(bytes, whole, false, &[], whole_end);
        }
        let end = digits_end(bytes, whole_end + 1);
        Numeral::with_exponent(bytes, whole, true, &bytes[whole_end + 1..end], end)
    }

    // The numeral with an exponent, if it has one, that begins at an index.
    fn with_exponent(
        bytes: &'a [u8],
        whole: &'a [u8],
        point: bool,
        fraction: &'a [u8],
        at: usize,
    ) -> Numeral<'a>
        requires { at ≤ length bytes.now }
        ensures whole { result.whole.now ≡ whole.entry.now }
        ensures point { result.point ≡ point }
        ensures fraction { result.fraction.now ≡ fraction.entry.now }
        ensures sign { result.exponent_negative
            ≡ (has_exponent bytes.now at && slice_index bytes.now (at + 1) == 45) }
        ensures exponent { result.exponent.now
            ≡ (if has_exponent bytes.now at
            then slice_range bytes.now (exponent_start bytes.now at)
            (digits_end bytes.now (exponent_start bytes.now at)) else []) }
        ensures len { result.len
            ≡ (if has_exponent bytes.now at
            then digits_end bytes.now (exponent_start bytes.now at) else at) }
    {
        if !has_exponent(bytes, at) {
            return Numeral {
                whole,
                point,
                fraction,
                exponent_negative: false,
                exponent: &[],
                len: at,
            };
        }
        let start = exponent_start(bytes, at);
        let len = digits_end(bytes, start);
        Numeral {
            whole,
            point,
            fraction,
            exponent_negative: byte_at(bytes, at + 1) == b'-',
            exponent: &bytes[start..len],
            len,
        }
    }

    /// Whether the whole text, of a length in bytes, is a number of RFC 8259, its sign apart.
    pub fn is_decimal(&self, len: usize) -> bool
        ensures { result ≡ is_decimal_of (parts_of self.now) len }
    {
        let whole = !self.whole.is_empty() && (self.whole.len() == 1 || self.whole[0] != b'0');
        let fraction = !self.point || !self.fraction.is_empty();
        whole && fraction && self.len == len
    }

    /// The number in the exponent, without its sign; 0 if there is no exponent.
    pub fn exponent_value(&self) -> u128
        requires { IsShort (parts_of self.now) }
        ensures { result ≡ digits_value 10 self.now.exponent.now }
    {
        value_after(0, self.exponent)
    }

    /// The digits before and after the point, read as one number.
    pub fn digits_value(&self) -> u128
        requires { IsShort (parts_of self.now) }
        ensures { result ≡ numeral_digits (parts_of self.now) }
    {
        value_after(value_after(0, self.whole), self.fraction)
    }

    /// The power of ten that the numeral multiplies its digits by, given its exponent without sign.
    pub fn tens_up(&self, exponent: u32) -> u32
        requires { exponent ≡ digits_value 10 self.now.exponent.now }
        ensures { result ≡ tens_up (parts_of self.now) }
    {
        if self.exponent_negative { 0 } else { exponent }
    }

    /// The power of ten that the numeral divides its digits by, given its exponent without sign, at most 99.
    pub fn tens_down(&self, exponent: u32) -> u32
        requires value { exponent ≡ digits_value 10 self.now.exponent.now }
        requires few { exponent ≤ 99 }
        requires short { IsShort (parts_of self.now) }
        ensures value { result ≡ tens_down (parts_of self.now) }
        ensures few { result ≤ 135 }
    {
        let places = self.fraction.len() as u32;
        if self.exponent_negative {
            places + exponent
        } else {
            places
        }
    }
}

fn byte_at(bytes: &[u8], at: usize) -> u8
    ensures { result ≡ slice_index bytes.now at }
{
    bytes.get(at).copied().unwrap_or(0)
}

// Where the digits from an index on end.
fn digits_end(bytes: &[u8], from: usize) -> usize
    requires { from ≤ length bytes.now }
    ensures value { result ≡ digits_end bytes.now from }
    ensures within { result ≤ length bytes.now }
{
    let mut end = from;
    while end < bytes.len() && bytes[end].is_ascii_digit() {
        end += 1;
    }
    end
}

// Where the digits of an exponent would begin, for an `e` at an index.
fn exponent_start(bytes: &[u8], at: usize) -> usize
    requires { at < length bytes.now }
    ensures { result ≡ exponent_start bytes.now at }
{
    match byte_at(bytes, at + 1) {
        b'-' | b'+' => at + 2,
        _ => at + 1,
    }
}

// Whether an `e` or `E` is at an index, with a digit after it or after its sign.
fn has_exponent(bytes: &[u8], at: usize) -> bool
    requires { at ≤ length bytes.now }
    ensures value { result ≡ has_exponent bytes.now at }
    ensures within { IsTrue result → exponent_start bytes.now at < length bytes.now }
{
    match byte_at(bytes, at) {
        b'e' | b'E' => byte_at(bytes, exponent_start(bytes, at)).is_ascii_digit(),
        _ => false,
    }
}

// The number that the digits make when they follow those of another number.
fn value_after(front: u128, digits: &[u8]) -> u128
    requires all { AllDigits 10 digits.now }
    requires fits { (front + 1) * 10 ^ length digits.now ≤ 2 ^ 128 }
    ensures { result ≡ digits_value_after 10 front digits.now }
{
    let mut value = front;
    for digit in digits {
        value = value * 10 + u128::from(*digit - b'0');
    }
    value
}
