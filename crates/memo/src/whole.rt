//! The whole memory: a slot for every rule, place and mode, in lent words. It forgets nothing.
ghost use Rattle.std.specs.Prelude.{◌≡◌, ◌*◌, ◌≤◌, length};

use crate::change::Change;
use crate::memory::Memory;
use crate::row::Row;
use crate::slots::{read, write};
use peg::results::RulePlace;

/// Why no whole memory could be made.
#[derive(Clone, Copy, PartialEq, Eq, Debug)]
pub enum Refusal {
    /// P is not 1 to 65,536, or Q is not 1 to 64.
    Size,
    /// There are fewer than 16 × P × Q words.
    Words,
}

impl From<Refusal> for u8 {
    ghost use Rattle.memo.specs.Making.{number};

    ghost from_gives = { λ e n. n ≡ number e };

    fn from(refusal: Refusal) -> u8 {
        match refusal {
            Refusal::Size => 15,
            Refusal::Words => 16,
        }
    }
}

/// A table of P places and Q rules in lent words. How rows lie in them is its own affair.
// P and Q stand beside the words: these are lent, and may be more than 16 × P × Q.
#[derive(Drop)]
pub struct WholeMemory<'a> {
    pub(crate) words: &'a mut [u32],
    pub(crate) places: usize,
    pub(crate) rules: usize,
    ghost room: { 16 * (places * rules) ≤ length words.now },
    ghost few: { rules ≤ 64 },
}

impl<'a> WholeMemory<'a> {
    ghost use Rattle.memo.specs.Making.{Asked, Hands};

    /// The questions of making, in order.
    fn asked(len: usize, places: usize, rules: usize) -> Result<(), Refusal>
        ensures { Asked places rules len result }
    {
        if places == 0 || places > 65536 || rules == 0 || rules > 64 {
            return Err(Refusal::Size);
        }
        if len < 16 * (places * rules) {
            return Err(Refusal::Words);
        }
        Ok(())
    }

    /// A memory for P places and Q rules that holds no row, and Ok; or one for none, and why.
    // The memory stands beside its answer: a refused making gives one too, with P and Q 0.
    pub fn new(
        words: &'a mut [u32],
        places: usize,
        rules: usize,
    ) -> (WholeMemory<'a>, Result<(), Refusal>)
        ensures answers { Asked places rules (length words.old) result.1 }
        ensures hands { Hands result.1 places rules words.old result.0 }
        ensures lent { result.0.words.ghost_name ≡ words.entry.ghost_name }
    {
        match WholeMemory::asked(words.len(), places, rules) {
            Ok(()) => {
                let mut memory = WholeMemory {
                    words,
                    places,
                    rules,
                };
                memory.empty();
                (memory, Ok(()))
            }
            Err(refusal) => {
                let memory = WholeMemory {
                    words,
                    places: 0,
                    rules: 0,
                };
                (memory, Err(refusal))
            }
        }
    }
}

impl Memory for WholeMemory<'_> {
    ghost use Rattle.std.specs.Prelude.{true};
    ghost use Rattle.memo.specs.Tables.{Puts, Shifts, Empty};
    ghost use Rattle.memo.specs.Layout.{Beyond};
    ghost use Rattle.memo.specs.Making.{words_of, p_of, q_of, table_of, own};

    ghost table = { table_of };

    ghost P = { p_of };

    ghost Q = { q_of };

    ghost keeps = { true };

    fn places(&self) -> usize {
        self.places
    }

    fn rules(&self) -> usize {
        self.rules
    }

    fn look(&self, at: RulePlace) -> Option<Row> {
        read(self.words, self.slot_of(at)?)
    }

    // here and below: clauses of an impl's own replace the trait's, so the trait's stand here again
    fn put(&mut self, at: RulePlace, row: Row)
        ensures puts { Puts true (p_of self.old) (q_of self.old) (table_of self.old) at.rule at.place at.mode row (table_of self.new) }
        ensures places { p_of self.new ≡ p_of self.old }
        ensures rules { q_of self.new ≡ q_of self.old }
        ensures beyond { Beyond (own self.old) (words_of self.old) (words_of self.new) }
        ensures lent { self.new.words.ghost_name ≡ self.old.words.ghost_name }
    {
        if let Some(s) = self.slot_of(at) {
            write(self.words, s, Some(row));
        }
    }

    fn shift(&mut self, p: usize, k: usize, m: usize)
        ensures shifts { Shifts true (p_of self.old) p k m (table_of self.old) (table_of self.new) }
        ensures places { p_of self.new ≡ p_of self.old }
        ensures rules { q_of self.new ≡ q_of self.old }
        ensures beyond { Beyond (own self.old) (words_of self.old) (words_of self.new) }
        ensures lent { self.new.words.ghost_name ≡ self.old.words.ghost_name }
    {
        let change = Change { p, k, m };
        let n = 2 * self.rules * self.places;
        // by turns: a loop for each direction would say the step twice
        for t in 0..n {
            let s = change.turn(n, t);
            let row = self.after(s, change);
            write(self.words, s, row);
        }
    }

    fn empty(&mut self)
        ensures empty { Empty (table_of self.new) }
        ensures places { p_of self.new ≡ p_of self.old }
        ensures rules { q_of self.new ≡ q_of self.old }
        ensures beyond { Beyond (own self.old) (words_of self.old) (words_of self.new) }
        ensures lent { self.new.words.ghost_name ≡ self.old.words.ghost_name }
    {
        let own = 16 * (self.places * self.rules);
        self.words[..own].fill(0);
    }
}
