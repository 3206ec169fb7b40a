//! Slots: a row, or none, in eight 32-bit words.
ghost use Rattle.std.specs.Prelude.{◌≡◌, ◌+◌, ◌*◌, ◌^◌, ◌≤◌, length, Some, None, slice_index};
ghost use Rattle.memo.specs.Layout.{lower, upper, unpacked, slot_row, Written};

use crate::row::Row;

/// What a slot's first half-word says: nothing held, or a row that failed or matched.
// Numbers and no enum: the words' own format, in which a cleared word says that nothing is held and any other number is read as a failure.
const NONE: u16 = 0;

const FAILED: u16 = 1;

const MATCHED: u16 = 2;

fn low(w: u32) -> u16
    ensures { result ≡ lower w }
{
    (w & 0xffff) as u16
}

fn high(w: u32) -> u16
    ensures { result ≡ upper w }
{
    (w >> 16) as u16
}

// two functions and no generic one: a trait over both widths would be longer than they are
fn joined(high: u16, low: u16) -> u32
    ensures { result ≡ high * 65536 + low }
{
    (u32::from(high) << 16) | u32::from(low)
}

fn wide(high: u32, low: u32) -> u64
    ensures { result ≡ high * 2 ^ 32 + low }
{
    (u64::from(high) << 32) | u64::from(low)
}

/// The row that eight words hold.
fn decode(slot: [u32; 8]) -> Option<Row>
    ensures { result ≡ unpacked (λ j. slice_index slot j) }
{
    let kind = low(slot[0]);
    if kind == NONE {
        return None;
    }
    Some(Row {
        matched: kind == MATCHED,
        label: (high(slot[0]) % 256) as u8,
        end: low(slot[1]),
        noted: high(slot[4]) == 1,
        note: high(slot[1]),
        marks: slot[2],
        recoveries: low(slot[3]),
        first_label: (low(slot[4]) % 256) as u8,
        first: high(slot[3]),
        depth: wide(slot[6], slot[5]),
        reach: slot[7],
    })
}

/// Eight words that hold the row.
fn packed(row: Row) -> [u32; 8]
    ensures { unpacked (λ j. slice_index result j) ≡ Some row }
{
    let kind = if row.matched { MATCHED } else { FAILED };
    [
        joined(u16::from(row.label), kind),
        joined(row.note, row.end),
        row.marks,
        joined(row.first, row.recoveries),
        joined(u16::from(row.noted), u16::from(row.first_label)),
        (row.depth % 0x1_0000_0000) as u32,
        (row.depth >> 32) as u32,
        row.reach,
    ]
}

/// Eight words that hold the row, or none.
fn encode(row: Option<Row>) -> [u32; 8]
    ensures { unpacked (λ j. slice_index result j) ≡ row }
{
    match row {
        Some(row) => packed(row),
        None => [0; 8],
    }
}

/// The row in slot s.
pub(crate) fn read(words: &[u32], s: usize) -> Option<Row>
    requires { 8 * s + 8 ≤ length words.now }
    ensures { result ≡ slot_row words.now s }
{
    decode(*words[8 * s..].first_chunk()?)
}

/// Makes slot s hold the row, or none.
pub(crate) fn write(words: &mut [u32], s: usize, row: Option<Row>)
    requires { 8 * s + 8 ≤ length words.old }
    ensures { Written words.old s row words.new }
{
    words[8 * s..8 * s + 8].copy_from_slice(&encode(row));
}
