//! Why a reading is refused.
ghost use Rattle.std.specs.Prelude.{◌≡◌};
ghost use Rattle.reading.specs.Replies.{number};

/// The three questions that a reading asks.
#[derive(Clone, Copy, PartialEq, Eq, Debug)]
pub enum Refusal {
    /// The memory has not places above the text's capacity, or rules for all of the grammar's.
    Uncovered,
    /// A row found does not fit the text and the grammar.
    Unfit,
    /// An expression, or a row found, would stand deeper than there are frames.
    TooDeep,
}

impl From<Refusal> for u8 {
    ghost from_gives = { λ e n. n ≡ number e };

    fn from(refusal: Refusal) -> u8 {
        match refusal {
            Refusal::Uncovered => 8,
            Refusal::Unfit => 9,
            Refusal::TooDeep => 10,
        }
    }
}
