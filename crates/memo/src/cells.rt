//! The cells of the whole memory: two slots, one for each mode, for each of Q rules at each of P places.

use crate::change::Change;
use crate::row::Row;
use crate::slots::{read, write};
use crate::whole::WholeMemory;
use peg::results::RulePlace;

impl WholeMemory<'_> {
    ghost use Rattle.std.specs.Prelude.{◌*◌, ◌<◌};
    ghost use Rattle.memo.specs.Layout.{slot_row, Slotted, After};
    ghost use Rattle.memo.specs.Making.{p_of, q_of, words_of};

    /// The slot of a rule-place within P and Q.
    pub(crate) fn slot_of(&self, at: RulePlace) -> Option<usize>
        ensures { Slotted (p_of self.now) (q_of self.now) at.rule at.place at.mode result }
    {
        if at.rule < self.rules && at.place < self.places {
            Some(at.place * (2 * self.rules) + 2 * at.rule + usize::from(u8::from(at.mode)))
        } else {
            None
        }
    }

    /// What slot s is to hold once the change is made.
    pub(crate) fn after(&self, s: usize, change: Change) -> Option<Row>
        requires { s < 2 * q_of self.now * p_of self.now }
        ensures { After (slot_row (words_of self.now)) (2 * q_of self.now) (p_of self.now) change.p change.k change.m s result }
    {
        let width = 2 * self.rules;
        let place = s / width;
        if place < change.p {
            return read(self.words, s).filter(|row| change.leaves(place, row.reach));
        }
        let from = change.source(self.places, place)?;
        read(self.words, from * width + s % width)
    }
}
