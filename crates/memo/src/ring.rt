//! The ring: the 64 rows put last, each of another rule-place, in its own array. It forgets.
ghost use Rattle.std.specs.Prelude.{◌≡◌, ◌<◌, true, false, []};
ghost use Rattle.memo.specs.Tables.{Puts, Shifts, Empty};
ghost use Rattle.memo.specs.Entries.{RoomyFor, put_in, shifted};
ghost use Rattle.memo.specs.Rings.{model, ring_table, ring_P, ring_Q};

pub use self::state::Ring;
use crate::change::Change;
use crate::entries::{Entry, PLACES, RULES, enter, find, shift_all};
use crate::memory::Memory;
use crate::row::Row;
use arrayvec::ArrayVec;
use peg::results::RulePlace;

pub mod state;

impl Ring {
    /// A ring that holds no row.
    pub fn new() -> Ring
        ensures { model result ≡ [] }
    {
        Ring {
            entries: ArrayVec::new(),
        }
    }
}

impl Memory for Ring {
    ghost table = { ring_table };

    ghost P = { ring_P };

    ghost Q = { ring_Q };

    ghost keeps = { false };

    fn places(&self) -> usize {
        PLACES
    }

    fn rules(&self) -> usize {
        RULES
    }

    fn look(&self, at: RulePlace) -> Option<Row> {
        find(&self.entries, at)
    }

    // here and below: clauses of an impl's own replace the trait's, so the trait's stand here again
    fn put(&mut self, at: RulePlace, row: Row)
        ensures puts { Puts false (ring_P self.old) (ring_Q self.old) (ring_table self.old) at.rule at.place at.mode row (ring_table self.new) }
        ensures places { ring_P self.new ≡ ring_P self.old }
        ensures rules { ring_Q self.new ≡ ring_Q self.old }
        ensures order { model self.new ≡ put_in at.rule at.place at.mode row (model self.old) }
        ensures keeps { RoomyFor (model self.old) (record { at = at; row = row }) → Puts true (ring_P self.old) (ring_Q self.old) (ring_table self.old) at.rule at.place at.mode row (ring_table self.new) }
    {
        if at.rule < RULES && at.place < PLACES {
            enter(&mut self.entries, Entry { at, row });
        }
    }

    fn shift(&mut self, p: usize, k: usize, m: usize)
        ensures shifts { Shifts false (ring_P self.old) p k m (ring_table self.old) (ring_table self.new) }
        ensures places { ring_P self.new ≡ ring_P self.old }
        ensures rules { ring_Q self.new ≡ ring_Q self.old }
        ensures order { model self.new ≡ shifted p k m (model self.old) }
        ensures keeps { Shifts true (ring_P self.old) p k m (ring_table self.old) (ring_table self.new) }
    {
        shift_all(&mut self.entries, Change { p, k, m });
    }

    fn empty(&mut self)
        ensures empty { Empty (ring_table self.new) }
        ensures places { ring_P self.new ≡ ring_P self.old }
        ensures rules { ring_Q self.new ≡ ring_Q self.old }
        ensures order { model self.new ≡ [] }
    {
        self.entries.clear();
    }
}
