//! Texts: what can be read, what can be changed, and the three texts in lent buffers.
#![tactic(auto)]

ghost use Rattle.std.specs.Prelude.{◌≡◌, ℕ, ◌≤◌, Bool, List, length, Err, MatchResult, OnOk};
ghost use Rattle.text.specs.Meaning.{accepted, replaced};
ghost use Rattle.text.specs.Refusals.{BufferExactly, CountExactly, RangeExactly, RoomExactly, edit_number, make_number};

mod buffer;
mod fixed;
mod splice;
mod symbol;

pub use buffer::{Buffer, ByteBuffer, EventLog};
pub use fixed::FixedBytes;
pub use symbol::{ANY_LOOP, Symbol};

/// No text is longer.
pub const MAX_ELEMENTS: usize = 65_535;

/// Why a change is refused.
#[derive(Clone, Copy, PartialEq, Eq, Debug)]
pub enum EditRefusal {
    /// 11: the elements to be replaced pass the end of the text.
    Range = 11,
    /// 12: the text would pass its capacity.
    Room = 12,
}

/// Why a buffer and a count make no text.
#[derive(Clone, Copy, PartialEq, Eq, Debug)]
pub enum MakeRefusal {
    /// 13: the buffer has more than `MAX_ELEMENTS` elements.
    Buffer = 13,
    /// 14: the count does not fit the buffer.
    Count = 14,
}

impl From<EditRefusal> for u8 {
    ghost from_gives = { λ refusal number. number ≡ edit_number (Err refusal) };

    fn from(refusal: EditRefusal) -> u8 {
        refusal as u8
    }
}

impl From<MakeRefusal> for u8 {
    ghost from_gives = { λ refusal number. number ≡ make_number (Err refusal) };

    fn from(refusal: MakeRefusal) -> u8 {
        refusal as u8
    }
}

/// A text that can be read: a list of elements, a capacity, and which pair accepts which element.
pub trait Text {
    type Element;

    /// The elements, in order.
    ghost elements: { Self → List Self.Element };

    /// Whether a pair accepts an element.
    ghost fits: { ℕ → ℕ → Self.Element → Bool };

    /// The capacity.
    ghost room: { Self → ℕ };

    /// How many elements the text has.
    fn size(&self) -> usize
        ensures is { result ≡ length (elements self.now) }
        ensures within { length (elements self.now) ≤ room self.now }
        ensures few { room self.now ≤ 65535 };

    /// How many elements it may come to have.
    fn capacity(&self) -> usize
        ensures is { result ≡ room self.now }
        ensures within { length (elements self.now) ≤ room self.now }
        ensures few { room self.now ≤ 65535 };

    /// Whether the pair a, b accepts the element at a place; from the end on there is none, and the answer is no.
    // the two numbers of a pair come as an expression of a grammar has them, in fields of its own
    fn accepts(&self, a: u32, b: u32, place: usize) -> bool
        ensures { result ≡ accepted fits (elements self.now) a b place };
}

/// A text that can be changed.
pub trait EditableText: Text {
    /// Puts the items where k elements stood at p, or says why not and changes nothing.
    // p, k and items stay three: a struct of them would hold a loan, and each call would build it to pass it on
    fn replace(&mut self, p: usize, k: usize, items: &[Self::Element]) -> Result<(), EditRefusal>
        ensures range { RangeExactly result (length (Self.Text.elements self.old)) p k }
        ensures room { RoomExactly result (length (Self.Text.elements self.old)) (Self.Text.room self.old) p k (length items.now) }
        ensures text { MatchResult result (λ _. Self.Text.elements self.new ≡ replaced (Self.Text.elements self.old) p k items.now) (λ _. self.new ≡ self.old) }
        ensures capacity { Self.Text.room self.new ≡ Self.Text.room self.old };
}

/// Whether a buffer of n elements and a count make a text.
fn check_making(n: usize, count: usize) -> Result<(), MakeRefusal>
    ensures buffer { BufferExactly result n }
    ensures count { CountExactly result n count }
    ensures fits { OnOk result ((n ≤ 65535) × (count ≤ n)) }
{
    if n > MAX_ELEMENTS {
        return Err(MakeRefusal::Buffer);
    }
    if count > n {
        return Err(MakeRefusal::Count);
    }
    Ok(())
}

#[cfg(test)]
mod tests;
