//! The number grammar of RFC 8259, part by part.
ghost use Rattle.std.{specs.Prelude.{◌≡◌, ◌≤◌, length, option_map}, specs.List.prefix_len};
ghost use Rattle.marked_json.specs.Number as spec;

/// Whether the whole token is a number of RFC 8259.
pub(crate) fn is_number(token: &[u8]) -> bool
    ensures { result ≡ spec.is_number token.now }
{
    match after_whole(after_sign(token))
        .and_then(|rest| after_fraction(rest))
        .and_then(|rest| after_exponent(rest))
    {
        Some(rest) => rest.is_empty(),
        None => false,
    }
}

fn after_sign(bytes: &[u8]) -> &[u8]
    ensures { result.now ≡ spec.after_sign bytes.now }
{
    match bytes {
        [b'-', rest @ ..] => rest,
        _ => bytes,
    }
}

fn after_whole(bytes: &[u8]) -> Option<&[u8]>
    ensures { option_map (λ s. s.now) result ≡ spec.after_whole bytes.now }
{
    match bytes {
        [b'0', rest @ ..] => Some(rest),
        _ => after_digits(bytes),
    }
}

fn after_fraction(bytes: &[u8]) -> Option<&[u8]>
    ensures { option_map (λ s. s.now) result ≡ spec.after_fraction bytes.now }
{
    match bytes {
        [b'.', rest @ ..] => after_digits(rest),
        _ => Some(bytes),
    }
}

fn after_exponent(bytes: &[u8]) -> Option<&[u8]>
    ensures { option_map (λ s. s.now) result ≡ spec.after_exponent bytes.now }
{
    match bytes {
        [b'e' | b'E', rest @ ..] => after_digits(after_exponent_sign(rest)),
        _ => Some(bytes),
    }
}

fn after_exponent_sign(bytes: &[u8]) -> &[u8]
    ensures { result.now ≡ spec.after_exponent_sign bytes.now }
{
    match bytes {
        [b'+' | b'-', rest @ ..] => rest,
        _ => bytes,
    }
}

fn after_digits(bytes: &[u8]) -> Option<&[u8]>
    ensures { option_map (λ s. s.now) result ≡ spec.after_digits bytes.now }
{
    let digits = digits_len(bytes);
    if digits == 0 {
        None
    } else {
        Some(&bytes[digits..])
    }
}

fn digits_len(bytes: &[u8]) -> usize
    ensures value { result ≡ prefix_len spec.is_digit bytes.now }
    ensures within { result ≤ length bytes.now }
{
    bytes
        .iter()
        .take_while(|byte| matches!(**byte, b'0'..=b'9'))
        .count()
}
