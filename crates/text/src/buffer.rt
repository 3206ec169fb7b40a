//! A text in a lent buffer, which can be changed.
ghost use Rattle.std.specs.Prelude.{◌≡◌, ◌≤◌, [], length, take, MatchResult};

use crate::splice::splice;
use crate::symbol::{Symbol, accepts_at};
use crate::{EditRefusal, EditableText, MakeRefusal, Text, check_making};

/// A text in the first places of a lent buffer.
// Numbers beside the places: the buffer is lent, and a refused making leaves it whole to a text of no capacity.
#[derive(Drop)]
pub struct Buffer<'a, E> {
    places: &'a mut [E],
    capacity: usize,
    size: usize,
    ghost fits: { size ≤ capacity },
    ghost there: { capacity ≤ length places.now },
    ghost few: { capacity ≤ 65535 },
}

/// Bytes that can be changed.
pub type ByteBuffer<'a> = Buffer<'a, u8>;

/// An event log that can be changed.
pub type EventLog<'a> = Buffer<'a, u32>;

impl<'a, E> Buffer<'a, E> {
    ghost use Rattle.text.specs.Buffers.{buffer_room, buffer_text};
    ghost use Rattle.text.specs.Refusals.{BufferExactly, CountExactly};

    /// The text of the buffer's first count elements, or one of no elements and no capacity, and why.
    // a refused making still gives a text, so the answer stands beside it
    pub fn new(places: &'a mut [E], count: usize) -> (Self, Result<(), MakeRefusal>)
        ensures buffer { BufferExactly result.1 (length places.old) }
        ensures count { CountExactly result.1 (length places.old) count }
        ensures made { MatchResult result.1 (λ _. (buffer_text result.0 ≡ take count places.old) × (buffer_room result.0 ≡ length places.old)) (λ _. (buffer_text result.0 ≡ []) × (buffer_room result.0 ≡ 0)) }
        ensures lent { result.0.places.ghost_name ≡ places.entry.ghost_name }
        ensures untouched { result.0.places.now ≡ places.old }
    {
        let made = check_making(places.len(), count);
        let (capacity, size) = match made {
            Ok(()) => (places.len(), count),
            Err(_) => (0, 0),
        };
        let text = Buffer {
            places,
            capacity,
            size,
        };
        (text, made)
    }
}

impl<E: Symbol> Text for Buffer<'_, E> {
    ghost use Rattle.text.specs.Buffers.{buffer_room, buffer_text};

    type Element = E;

    ghost elements = { buffer_text };

    ghost fits = { E.Symbol.matches };

    ghost room = { buffer_room };

    fn size(&self) -> usize {
        self.size
    }

    fn capacity(&self) -> usize {
        self.capacity
    }

    fn accepts(&self, a: u32, b: u32, place: usize) -> bool {
        accepts_at(&self.places[..self.size], a, b, place)
    }
}

impl<E: Symbol> EditableText for Buffer<'_, E> {
    ghost use Rattle.text.specs.Buffers.{UnusedUndecided, buffer_room, buffer_text};
    ghost use Rattle.text.specs.Meaning.{replaced};
    ghost use Rattle.text.specs.Refusals.{RangeExactly, RoomExactly};

    // clauses of an impl's own replace the trait's, so the trait's four stand here again
    fn replace(&mut self, p: usize, k: usize, items: &[E]) -> Result<(), EditRefusal>
        ensures range { RangeExactly result (length (buffer_text self.old)) p k }
        ensures room { RoomExactly result (length (buffer_text self.old)) (buffer_room self.old) p k (length items.now) }
        ensures text { MatchResult result (λ _. buffer_text self.new ≡ replaced (buffer_text self.old) p k items.now) (λ _. self.new ≡ self.old) }
        ensures capacity { buffer_room self.new ≡ buffer_room self.old }
        ensures lent { self.new.places.ghost_name ≡ self.old.places.ghost_name }
        ensures unused { UnusedUndecided self.old self.new }
    {
        let n = self.size;
        // neither p + k nor n - k + m is computed before it is known to fit
        if p > n || k > n - p {
            return Err(EditRefusal::Range);
        }
        let m = items.len();
        if m > self.capacity - (n - k) {
            return Err(EditRefusal::Room);
        }
        splice(self.places, n, p, k, items);
        self.size = n - k + m;
        Ok(())
    }
}
