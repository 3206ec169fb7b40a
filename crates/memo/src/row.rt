//! The row: what a rule's body gave at a place in a mode, in plain numbers.

/// What a rule gave at a place; places are distances from the row's own.
///
/// A failure has no recoveries whatever its numbers hold, and a row without a note has no marks.
// Flags and no Option or Outcome: the memory trait hands out plain numbers, and whatever they are, they are a row.
#[derive(Clone, Copy, PartialEq, Eq, Debug, Default)]
pub struct Row {
    /// A match, or a failure.
    pub matched: bool,
    /// A failure's label.
    pub label: u8,
    /// To the end of the match, or to the failure's place.
    pub end: u16,
    /// Whether there is a note.
    pub noted: bool,
    /// To the note's place.
    pub note: u16,
    /// The note's marks.
    pub marks: u32,
    /// How many throws were recovered.
    pub recoveries: u16,
    /// The label of the first throw recovered.
    pub first_label: u8,
    /// To the place of the first throw recovered.
    pub first: u16,
    /// How deep its evaluation went.
    pub depth: u64,
    /// To the place after the farthest one at which anything was evaluated.
    pub reach: u32,
}
