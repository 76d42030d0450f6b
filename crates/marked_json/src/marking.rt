//! The marking of a text: `serde_json` reads the marked text in its place.
ghost use Rattle.std.{specs.Prelude.{◌≡◌, ◌≢◌, not, ◌<◌, ◌+◌, ◌*◌, ◌++◌, [], ◌∷◌, take, drop, ℕ, length, map, slice_index, string_bytes, ◌≤◌, true, false, Ok, Err, IfOk, IfErr, OnOk, IfSome, Some}, specs.List.{prefix_len, find}, specs.Simd.Lanes.mask_l};
ghost use Rattle.memchr.specs.Find.{IsFirstByte, is_byte2};
ghost use Rattle.marked_json.specs.Marking as spec;
ghost use Rattle.marked_json.specs.Steps as steps;
ghost use Rattle.marked_json.specs.declared.fault.JsonFault.TheVariants.{OutOfMemory};

use crate::fault::JsonFault;
use crate::number::is_number;
use memchr::memchr2;
use std::alloc::{AllocError, Global};
use std::simd::prelude::*;

/// The marked text of `text`, in one buffer that is made once.
pub(crate) fn marked_text(alloc: Global, text: &str) -> Result<String, JsonFault>
    ensures ok { IfOk result (λ out. spec.marked spec.outside text.now ≡ Ok (string_bytes out)) }
    ensures err { IfErr result (λ fault. fault ≢ OutOfMemory → spec.marked spec.outside text.now ≡ Err fault) }
{
    let mut out = room_for(alloc, text.len())?;
    mark_whole(&mut out, text)?;
    // The marked text of a text is UTF-8.
    Ok(unsafe { String::from_utf8_unchecked(out) })
}

// Puts the marked text into an empty buffer that has room for it.
fn mark_whole(out: &mut Vec<u8>, text: &str) -> Result<(), JsonFault>
    requires { 5 * length text.now + 3 ≤ 2 * length out.old.items }
    ensures ok { OnOk result (spec.marked spec.outside text.now ≡ Ok out.new.items) }
    ensures err { IfErr result (λ fault. spec.marked spec.outside text.now ≡ Err fault) }
{
    let len = mark_all(out.as_mut_slice(), text.as_bytes())?;
    out.truncate(len);
    Ok(())
}

// Room for the marked text of a text. A string has at least one byte and gets one more; a number is at least one byte
// before the next and gets three more.
fn room_for(alloc: Global, text_len: usize) -> Result<Vec<u8>, AllocError>
    ensures { IfOk result (λ out. 5 * text_len + 3 ≤ 2 * length out.items) }
{
    let Some(halves) = text_len.checked_mul(5) else {
        return Err(AllocError);
    };
    Vec::from_elem(alloc, 0, halves / 2 + 2)
}

// Puts the marked text into room for it, and returns its length.
fn mark_all(out: &mut [u8], text: &[u8]) -> Result<usize, JsonFault>
    requires { 5 * length text.now + 3 ≤ 2 * length out.old }
    ensures ok { IfOk result (λ len. spec.marked spec.outside text.now ≡ Ok (take len out.new)) }
    ensures err { IfErr result (λ fault. spec.marked spec.outside text.now ≡ Err fault) }
{
    let mut len = 0;
    let mut at = 0;
    while at < text.len() {
        match mark_next(out, len, text, at) {
            Ok(next) => {
                len = next.0;
                at = next.1;
            }
            Err(fault) => return Err(fault),
        }
    }
    Ok(len)
}

// One step outside strings, at a place, with `len` bytes put so far. It returns how many bytes are put then, and
// the place behind what it took.
#[inline(always)]
fn mark_next(
    out: &mut [u8],
    len: usize,
    text: &[u8],
    at: usize,
) -> Result<(usize, usize), JsonFault>
    requires some { at < length text.now }
    requires room { 5 * length text.now + 3 ≤ 2 * length out.old }
    requires few { steps.IsWithinRoom len text.now at }
    ensures step { IfOk result (steps.IsStep text.now out.old out.new len at) }
    ensures same_room { length out.new ≡ length out.old }
    ensures err { IfErr result (λ fault. steps.completed (take len out.old) (drop at text.now) ≡ Err fault) }
{
    let first = text[at];
    if first == b'"' {
        Ok(mark_string(out, len, text, at))
    } else if begins_number(first) {
        mark_number(out, len, text, at)
    } else {
        put_byte(out, len, first);
        Ok((len + 1, at + 1))
    }
}

#[inline(always)]
fn mark_string(out: &mut [u8], len: usize, text: &[u8], at: usize) -> (usize, usize)
    requires some { at < length text.now }
    requires quote { slice_index text.now at ≡ 34 }
    requires room { 5 * length text.now + 3 ≤ 2 * length out.old }
    requires few { steps.IsWithinRoom len text.now at }
    ensures step { steps.IsStep text.now out.old out.new len at result }
    ensures same_room { length out.new ≡ length out.old }
{
    let (_, inside) = text.split_at(at + 1);
    put_bytes(out, len, b"\"$");
    let count = put_string(out, len + 2, inside);
    (len + 2 + count, at + 1 + count)
}

// Puts what is left of a string, with its closing quote, and returns how long that is. Most strings end within 32
// bytes, which are put at once.
#[inline(always)]
fn put_string(out: &mut [u8], len: usize, rest: &[u8]) -> usize
    requires { len + length rest.now ≤ length out.old }
    ensures value { result ≡ steps.string_len false rest.now }
    ensures within { result ≤ length rest.now }
    ensures put { take (len + result) out.new ≡ take len out.old ++ take result rest.now }
    ensures same_room { length out.new ≡ length out.old }
{
    match near_stop(rest) {
        Some(stop) if rest[stop] == b'"' => {
            put_front(out, len, rest, stop + 1);
            stop + 1
        }
        _ => put_long(out, len, rest),
    }
}

// Puts the first bytes of 32, by putting all 32.
#[inline(always)]
fn put_front(out: &mut [u8], len: usize, rest: &[u8], count: usize)
    requires short { count ≤ 32 }
    requires long { 32 ≤ length rest.now }
    requires room { len + 32 ≤ length out.old }
    ensures put { take (len + count) out.new ≡ take len out.old ++ take count rest.now }
    ensures same_room { length out.new ≡ length out.old }
{
    u8x32::from_slice(rest).copy_to_slice(&mut out[len..]);
}

// Puts what is left of a string of any length.
#[inline(never)]
fn put_long(out: &mut [u8], len: usize, rest: &[u8]) -> usize
    requires { len + length rest.now ≤ length out.old }
    ensures value { result ≡ steps.string_len false rest.now }
    ensures within { result ≤ length rest.now }
    ensures put { take (len + result) out.new ≡ take len out.old ++ take result rest.now }
    ensures same_room { length out.new ≡ length out.old }
{
    let count = string_len(rest);
    let (string, _) = rest.split_at(count);
    put_bytes(out, len, string);
    count
}

// Puts the number that begins at a place, as a marked string.
fn mark_number(
    out: &mut [u8],
    len: usize,
    text: &[u8],
    at: usize,
) -> Result<(usize, usize), JsonFault>
    requires some { at < length text.now }
    requires begins { spec.begins_number (slice_index text.now at) ≡ true }
    requires room { 5 * length text.now + 3 ≤ 2 * length out.old }
    requires few { steps.IsWithinRoom len text.now at }
    ensures step { IfOk result (steps.IsStep text.now out.old out.new len at) }
    ensures same_room { length out.new ≡ length out.old }
    ensures err { IfErr result (λ fault. steps.completed (take len out.old) (drop at text.now) ≡ Err fault) }
{
    let (_, rest) = text.split_at(at);
    let count = token_len(rest);
    let (token, left) = rest.split_at(count);
    if !is_number(token) {
        return Err(JsonFault::BadNumber);
    }
    if is_before_colon(left) {
        return Err(JsonFault::NumberAsKey);
    }
    put_bytes(out, len, b"\"#");
    put_bytes(out, len + 2, token);
    put_byte(out, len + 2 + count, b'"');
    Ok((len + 3 + count, at + count))
}

#[inline(always)]
fn put_byte(out: &mut [u8], len: usize, byte: u8)
    requires { len < length out.old }
    ensures put { take (len + 1) out.new ≡ take len out.old ++ byte ∷ [] }
    ensures same_room { length out.new ≡ length out.old }
{
    out[len] = byte;
}

#[inline(always)]
fn put_bytes(out: &mut [u8], len: usize, bytes: &[u8])
    requires { len + length bytes.now ≤ length out.old }
    ensures put { take (len + length bytes.now) out.new ≡ take len out.old ++ bytes.now }
    ensures same_room { length out.new ≡ length out.old }
{
    out[len..len + bytes.len()].copy_from_slice(bytes);
}

fn begins_number(byte: u8) -> bool
    ensures { result ≡ spec.begins_number byte }
{
    // Most bytes asked about are greater than the digits.
    byte <= b'9' && (byte == b'-' || byte.is_ascii_digit())
}

fn goes_on_number(byte: u8) -> bool
    ensures { result ≡ spec.goes_on_number byte }
{
    begins_number(byte) || byte == b'+' || byte == b'.' || byte == b'e' || byte == b'E'
}

fn is_blank(byte: u8) -> bool
    ensures { result ≡ spec.is_blank byte }
{
    byte == b' ' || byte == b'\t' || byte == b'\n' || byte == b'\r'
}

fn token_len(bytes: &[u8]) -> usize
    ensures value { result ≡ prefix_len spec.goes_on_number bytes.now }
    ensures within { result ≤ length bytes.now }
{
    bytes
        .iter()
        .take_while(|byte| goes_on_number(**byte))
        .count()
}

fn is_before_colon(bytes: &[u8]) -> bool
    ensures { result ≡ spec.is_before_colon bytes.now }
{
    match first_but_blanks(bytes) {
        Some(byte) => byte == b':',
        None => false,
    }
}

fn first_but_blanks(bytes: &[u8]) -> Option<u8>
    ensures { result ≡ find (λ c. not (spec.is_blank c)) bytes.now }
{
    bytes.iter().copied().find(|byte| !is_blank(*byte))
}

/// The length of what is left of a string, with its closing quote; of all bytes, if no quote closes
/// it.
#[inline(never)]
fn string_len(bytes: &[u8]) -> usize
    ensures value { result ≡ steps.string_len false bytes.now }
    ensures within { result ≤ length bytes.now }
{
    let mut at = 0;
    while let Some(ahead) = first_stop(&bytes[at..]) {
        let found = at + ahead;
        if bytes[found] == b'"' {
            return found + 1;
        }
        at = (found + 2).min(bytes.len());
    }
    bytes.len()
}

// The first quote or backslash. Most strings end within one load of 32 bytes; a general search takes longer to
// begin.
fn first_stop(bytes: &[u8]) -> Option<usize>
    ensures { IsFirstByte (is_byte2 34 92) bytes.now result }
{
    match near_stop(bytes) {
        Some(stop) => Some(stop),
        None => memchr2(b'"', b'\\', bytes),
    }
}

// The first quote or backslash, if it is one of the first 32 bytes and there are 32 or more.
#[inline(always)]
fn near_stop(bytes: &[u8]) -> Option<usize>
    ensures first { IfSome result (λ stop. IsFirstByte (is_byte2 34 92) bytes.now (Some stop)) }
    ensures near { IfSome result (λ stop. (stop < 32) × (32 ≤ length bytes.now)) }
{
    if bytes.len() < 32 {
        return None;
    }
    let found = stops(u8x32::from_slice(bytes));
    if found == 0 {
        return None;
    }
    Some(found.trailing_zeros() as usize)
}

// Which of 32 bytes are quotes or backslashes: a bit for each byte, the lowest for the first byte.
#[inline(always)]
fn stops(v: u8x32) -> u64
    ensures { result ≡ mask_l (map (is_byte2 34 92) v) }
{
    (v.simd_eq(u8x32::splat(b'"')) | v.simd_eq(u8x32::splat(b'\\'))).to_bitmask()
}
