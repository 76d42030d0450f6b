// Integers as JSON writes them.
ghost use Rattle.std.{specs.Prelude.◌≡◌, specs.Char.is_ascii_digit, specs.List.list_all};
ghost use Rattle.reading_decimal.specs.Integer as spec;

/// Whether a number of RFC 8259 is an integer without a point and without an exponent: only digits,
/// with or without a leading minus. `1.0` and `1e0` are none.
pub fn is_integer(token: &str) -> bool
    ensures { result ≡ spec.is_integer token.now }
{
    let digits = without_minus(token);
    !digits.is_empty() && are_digits(digits)
}

fn without_minus(token: &str) -> &[u8]
    ensures { result.now ≡ spec.without_minus token.now }
{
    let bytes = token.as_bytes();
    match bytes.first() {
        Some(b'-') => &bytes[1..],
        _ => bytes,
    }
}

fn are_digits(bytes: &[u8]) -> bool
    ensures { result ≡ list_all is_ascii_digit bytes.now }
{
    bytes.iter().all(|byte| byte.is_ascii_digit())
}
