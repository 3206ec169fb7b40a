//! The memory trait: a table of rows for rules below Q and places below P, and what each call may do to it.
ghost use Rattle.std.specs.Prelude.{◌≡◌, ℕ, Bool};
ghost use Rattle.memo.specs.Tables.{Table, Within, Puts, Shifts, Empty};

use crate::row::Row;
use peg::results::RulePlace;

/// A memory means a table from rules, places and modes to rows; places below P and rules below Q have one.
/// P and Q are fixed: every call leaves them as they were.
// That P and Q stay is a clause of each call: a fact of before and after is no invariant of a type.
pub trait Memory {
    /// The row, if any, of a rule at a place in a mode.
    ghost table: { Self → Table };

    /// P: places are below it.
    ghost P: { Self → ℕ };

    /// Q: rules are below it.
    ghost Q: { Self → ℕ };

    /// Whether it forgets nothing: a put drops no row, and a shift only what it must.
    ghost keeps: { Bool };

    fn places(&self) -> usize
        ensures { result ≡ P self.now };

    fn rules(&self) -> usize
        ensures { result ≡ Q self.now };

    /// The row of the rule-place, for every rule and place; it changes nothing.
    fn look(&self, at: RulePlace) -> Option<Row>
        ensures row { result ≡ table self.now at.rule at.place at.mode }
        ensures within { Within (P self.now) (Q self.now) (table self.now) };

    /// Makes the row stand at its rule-place. A memory that forgets may drop others.
    fn put(&mut self, at: RulePlace, row: Row)
        ensures puts { Puts keeps (P self.old) (Q self.old) (table self.old) at.rule at.place at.mode row (table self.new) }
        ensures places { P self.new ≡ P self.old }
        ensures rules { Q self.new ≡ Q self.old };

    /// Follows a change of k elements at p into m. A memory that forgets may drop more.
    // p, k and m stay three: a settle has them in its slip, and would build a struct for this one call
    fn shift(&mut self, p: usize, k: usize, m: usize)
        ensures shifts { Shifts keeps (P self.old) p k m (table self.old) (table self.new) }
        ensures places { P self.new ≡ P self.old }
        ensures rules { Q self.new ≡ Q self.old };

    /// Drops every row.
    fn empty(&mut self)
        ensures empty { Empty (table self.new) }
        ensures places { P self.new ≡ P self.old }
        ensures rules { Q self.new ≡ Q self.old };
}
