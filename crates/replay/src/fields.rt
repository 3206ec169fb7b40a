//! The fields of a line: apart by spaces.
ghost use Rattle.std.specs.Prelude.{◌≡◌, ◌↔◌, All, Err, IfErr, IfOk, IsNone, IsOk, Ok};
ghost use Rattle.std.specs.List.{list_all};
ghost use Rattle.hex.specs.Hex.{decode_of, is_hex_digit};
ghost use Rattle.replay.specs.declared.said.Wrong.TheVariants.{NotUnderstood, TooLittleMemory};

use crate::said::Wrong;
use rowtext::pieces::next_piece;
use std::alloc::Global;
use std::str::from_utf8;

/// The first field and what follows it; none, where there are only spaces.
pub fn next_field(text: &[u8]) -> Option<(&[u8], &[u8])>
    ensures { IsNone result ↔ All (λ byte. byte ≡ 32) text.now }
{
    let start = text.iter().position(|byte| *byte != b' ')?;
    next_piece(&text[start..], b' ')
}

/// Nothing but spaces.
pub fn no_field(text: &[u8]) -> Result<(), Wrong>
    ensures { IsOk result ↔ All (λ byte. byte ≡ 32) text.now }
{
    match next_field(text) {
        None => Ok(()),
        Some(_) => Err(Wrong::NotUnderstood),
    }
}

/// The number that digits write, if a word of the machine holds it.
fn number_of(text: &[u8]) -> Option<usize> {
    // the library also reads a sign
    if text.starts_with(b"+") {
        return None;
    }
    from_utf8(text).ok()?.parse().ok()
}

/// A number, and what follows it.
pub fn next_number(text: &[u8]) -> Result<(usize, &[u8]), Wrong> {
    let (field, rest) = next_field(text).ok_or(Wrong::NotUnderstood)?;
    let number = number_of(field).ok_or(Wrong::NotUnderstood)?;
    Ok((number, rest))
}

/// One number, and nothing else.
pub fn only_number(text: &[u8]) -> Result<usize, Wrong> {
    let (number, rest) = next_number(text)?;
    no_field(rest)?;
    Ok(number)
}

/// Whether all bytes are hexadecimal digits.
fn are_digits(field: &[u8]) -> bool
    ensures { result ≡ list_all is_hex_digit field.now }
{
    field.iter().all(|byte| byte.is_ascii_hexdigit())
}

/// The bytes that a field writes, two digits each.
// `decode` asks for memory first: what writes no bytes is refused before, whatever memory there is.
fn decode_field(heap: Global, field: &[u8]) -> Result<Vec<u8>, Wrong>
    ensures decoded { IfOk result (λ bytes. decode_of field.now ≡ Ok bytes.items) }
    ensures malformed { IfErr (decode_of field.now) (λ _. result ≡ Err NotUnderstood) }
    ensures short { IfOk (decode_of field.now) (λ _. IfErr result (λ wrong. wrong ≡ TooLittleMemory (record {}))) }
{
    if field.len() % 2 != 0 || !are_digits(field) {
        return Err(Wrong::NotUnderstood);
    }
    Ok(hex::decode(heap, field)?)
}

/// Bytes, two hexadecimal digits each, in one field or none.
pub fn read_bytes(heap: Global, text: &[u8]) -> Result<Vec<u8>, Wrong> {
    let Some((field, rest)) = next_field(text) else {
        return Ok(Vec::new(heap));
    };
    no_field(rest)?;
    decode_field(heap, field)
}
