//! How a pair of numbers accepts an element: a byte, or a word of an event log.
ghost use Rattle.std.specs.Prelude.{◌≡◌, ℕ, Bool};
ghost use Rattle.text.specs.Meaning.{accepted, byte_in, event_in, event_kind, event_loop};

/// As the second number of a pair it accepts every loop.
pub const ANY_LOOP: u32 = 16;

/// What the elements of a text can be.
pub trait Symbol: Copy {
    /// Whether a pair accepts an element.
    ghost matches: { ℕ → ℕ → Self → Bool };

    /// Whether the pair a, b accepts this element.
    fn accepted_by(self, a: u32, b: u32) -> bool
        ensures { result ≡ matches a b self };
}

impl Symbol for u8 {
    ghost matches = { byte_in };

    fn accepted_by(self, a: u32, b: u32) -> bool {
        (a..=b).contains(&u32::from(self))
    }
}

impl Symbol for u32 {
    ghost matches = { event_in };

    fn accepted_by(self, a: u32, b: u32) -> bool {
        kind_of(self) == a && (b == ANY_LOOP || loop_of(self) == b)
    }
}

/// Bits 31 to 28 of a log's word.
// A number and no enum: a log's kinds mean nothing here but to be the first number of a pair.
fn kind_of(word: u32) -> u32
    ensures { result ≡ event_kind word }
{
    word >> 28
}

/// Bits 27 to 24 of a log's word.
fn loop_of(word: u32) -> u32
    ensures { result ≡ event_loop word }
{
    (word >> 24) & 15
}

/// Whether the pair a, b accepts the element at a place; from the end on there is none, and the answer is no.
pub(crate) fn accepts_at<E: Symbol>(elements: &[E], a: u32, b: u32, place: usize) -> bool
    ensures { result ≡ accepted E.Symbol.matches elements.now a b place }
{
    elements
        .get(place)
        .is_some_and(|element| element.accepted_by(a, b))
}
