//! Refusals as text: those of texts, of the whole memory and of parses.
ghost use Rattle.std.specs.Prelude.{◌≡◌, ℕ, Some, Err};
ghost use Rattle.text.specs.Refusals.{edit_number, make_number};
ghost use Rattle.memo.specs.Making.{number as memory_number};
ghost use Rattle.reading.specs.Replies.{number};
ghost use Rattle.replytext.specs.Replies.{refused_text};

use crate::Shown;
use memo::whole::Refusal as MemoryRefusal;
use reading::refusal::Refusal;
use std::fmt;
use text::{EditRefusal, MakeRefusal};

/// A refusal that converts to its number.
pub trait Numbered: Into<u8> + Copy {
    /// The number.
    ghost numbered: { Self → ℕ };

    /// What the conversion gives.
    ghost gives: { (r : Self) (n : ℕ) → Self.converts r n → n ≡ numbered r };
}

impl Numbered for EditRefusal {
    ghost numbered = { λ r. edit_number (Err r) };

    ghost gives = { λ r n is. is };
}

impl Numbered for MakeRefusal {
    ghost numbered = { λ r. make_number (Err r) };

    ghost gives = { λ r n is. is };
}

impl Numbered for MemoryRefusal {
    ghost numbered = { memory_number };

    ghost gives = { λ r n is. is };
}

impl Numbered for Refusal {
    ghost numbered = { number };

    ghost gives = { λ r n is. is };
}

/// A refusal by its number.
#[derive(Clone, Copy)]
pub struct Refused(pub u8);

impl fmt::Display for Refused {
    ghost output = { λ r. Some (refused_text r.0) };

    fn fmt<W: fmt::Write>(&self, f: &mut fmt::Formatter<W>) -> fmt::Result {
        let Refused(number) = *self;
        write!(f, "refused {number}")
    }
}

impl<R: Numbered> fmt::Display for Shown<R> {
    ghost output = { λ r. Some (refused_text (R.numbered r.0)) };

    fn fmt<W: fmt::Write>(&self, f: &mut fmt::Formatter<W>) -> fmt::Result {
        Refused(self.0.into()).fmt(f)
    }
}
