//! The eight kinds of expression, and the two modes in which one is evaluated.
ghost use Rattle.std.specs.Prelude.{◌≡◌};
ghost use Rattle.grammar.specs.Marks.{mode_bit, bit_mode};

/// Whether a throw may be recovered: predicates evaluate in mode off.
#[derive(Clone, Copy, PartialEq, Eq, Debug, Default)]
pub enum Mode {
    #[default]
    On,
    Off,
}

impl From<Mode> for u8 {
    ghost from_gives = { λ m n. n ≡ mode_bit m };

    fn from(mode: Mode) -> u8 {
        match mode {
            Mode::On => 0,
            Mode::Off => 1,
        }
    }
}

impl From<u8> for Mode {
    ghost from_gives = { λ n m. m ≡ bit_mode n };

    fn from(number: u8) -> Mode {
        match number {
            0 => Mode::On,
            _ => Mode::Off,
        }
    }
}

/// An expression; parts are named by their numbers.
#[derive(Clone, Copy, PartialEq, Eq, Debug)]
pub enum Expr {
    /// Matches nothing, everywhere.
    Empty,
    /// One element that the pair a, b accepts; a failure notes the mark.
    Terminal {
        a: u32,
        b: u32,
        mark: u32,
    },
    /// What the rule's body gives.
    Call {
        rule: usize,
    },
    /// One part, then the other.
    Sequence {
        first: usize,
        second: usize,
    },
    /// One part, or the other where the first fails with a label of the set.
    Choice {
        first: usize,
        second: usize,
        set: usize,
    },
    /// The part again and again, until it fails with label 0.
    Repetition {
        part: usize,
    },
    /// That the part does not match here.
    Predicate {
        part: usize,
    },
    /// A failure with a label of its own, which may be recovered.
    Throw {
        label: usize,
    },
}
