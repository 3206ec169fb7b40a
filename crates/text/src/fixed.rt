//! Bytes for reading only.
ghost use Rattle.std.specs.Prelude.{◌≡◌, ◌≤◌, [], length, take, MatchResult};

use crate::symbol::accepts_at;
use crate::{MakeRefusal, Text, check_making};

/// A text of the first bytes of a lent buffer.
// A size beside the bytes: a refused making leaves them whole to a text of no bytes.
#[derive(Clone, Copy)]
pub struct FixedBytes<'a> {
    bytes: &'a [u8],
    size: usize,
    ghost fits: { size ≤ length bytes.now },
    ghost few: { size ≤ 65535 },
}

impl<'a> FixedBytes<'a> {
    ghost use Rattle.text.specs.Buffers.{fixed_room, fixed_text};
    ghost use Rattle.text.specs.Refusals.{BufferExactly, CountExactly};

    /// The text of the buffer's first count bytes, or one of no bytes and why.
    // a refused making still gives a text, so the answer stands beside it
    pub fn new(bytes: &'a [u8], count: usize) -> (Self, Result<(), MakeRefusal>)
        ensures buffer { BufferExactly result.1 (length bytes.now) }
        ensures count { CountExactly result.1 (length bytes.now) count }
        ensures made { MatchResult result.1 (λ _. (fixed_text result.0 ≡ take count bytes.now) × (fixed_room result.0 ≡ count)) (λ _. (fixed_text result.0 ≡ []) × (fixed_room result.0 ≡ 0)) }
        ensures untouched { result.0.bytes.now ≡ bytes.now }
    {
        let made = check_making(bytes.len(), count);
        let size = match made {
            Ok(()) => count,
            Err(_) => 0,
        };
        (FixedBytes { bytes, size }, made)
    }
}

impl Text for FixedBytes<'_> {
    ghost use Rattle.text.specs.Buffers.{fixed_room, fixed_text};
    ghost use Rattle.text.specs.Meaning.{byte_in};

    type Element = u8;

    ghost elements = { fixed_text };

    ghost fits = { byte_in };

    ghost room = { fixed_room };

    fn size(&self) -> usize {
        self.size
    }

    fn capacity(&self) -> usize {
        self.size()
    }

    fn accepts(&self, a: u32, b: u32, place: usize) -> bool {
        accepts_at(&self.bytes[..self.size], a, b, place)
    }
}
