//! Entries of the ring, the one put last first.
ghost use Rattle.std.specs.Prelude.{◌≡◌, ◌+◌, ◌<◌, ◌≤◌, true, [], ◌∷◌, ◌++◌, cond, length, take, drop};
ghost use Rattle.memo.specs.Entries.{found, lawful, entered, rehomed, at_place, shifted};

use crate::change::Change;
use crate::row::Row;
use arrayvec::ArrayVec;
use peg::results::RulePlace;

/// A ring's P and Q.
pub const PLACES: usize = 65536;

pub const RULES: usize = 64;

/// A rule-place with its row.
#[derive(Clone, Copy, Default)]
pub struct Entry {
    pub at: RulePlace,
    pub row: Row,
}

impl Entry {
    /// Follows the change to where the row stands then. Gives whether it stands anywhere.
    pub(crate) fn follow(&mut self, change: Change) -> bool
        ensures { cond result (self.new ∷ []) [] ≡ at_place self.old (rehomed change.p change.k change.m self.old.at.place self.old.row.reach) [] }
    {
        match change.home(self.at.place, self.row.reach) {
            Some(place) => {
                self.at.place = place;
                true
            }
            None => false,
        }
    }
}

/// The row of the entry of a rule-place.
pub(crate) fn find(entries: &[Entry], at: RulePlace) -> Option<Row>
    ensures { result ≡ found entries.now at.rule at.place at.mode }
{
    entries
        .iter()
        .find(|entry| entry.at == at)
        .map(|entry| entry.row)
}

/// Puts an entry in front in place of the one at i; those before it go one back.
fn renew(entries: &mut [Entry], i: usize, new: Entry)
    requires { i < length entries.old }
    ensures { entries.new ≡ new ∷ take i entries.old ++ drop (i + 1) entries.old }
{
    entries[i] = new;
    entries[..=i].rotate_right(1);
}

/// Puts an entry in front. The old one of its rule-place goes, or of 64 others the one put longest ago.
// no second entry is of that rule-place: the search stops at the old one, and those behind it stay
pub(crate) fn enter(entries: &mut ArrayVec<Entry, 64>, new: Entry)
    requires lawful { lawful entries.old.items ≡ true }
    ensures entered { entries.new.items ≡ entered new entries.old.items }
    ensures few { length entries.new.items ≤ 64 }
{
    match entries.iter().position(|entry| entry.at == new.at) {
        Some(i) => renew(entries.as_mut_slice(), i, new),
        None => {
            if entries.is_full() {
                entries.pop();
            }
            entries.insert(0, new);
        }
    }
}

/// Keeps, moves and drops entries, in their order.
pub(crate) fn shift_all(entries: &mut ArrayVec<Entry, 64>, change: Change)
    ensures shifted { entries.new.items ≡ shifted change.p change.k change.m entries.old.items }
    ensures few { length entries.new.items ≤ length entries.old.items }
{
    entries.retain(|entry| entry.follow(change));
}
