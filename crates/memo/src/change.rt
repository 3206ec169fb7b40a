//! A change of a text, as a memory follows it.
ghost use Rattle.std.specs.Prelude.{◌≡◌, ◌+◌, ◌<◌, nat_le};
ghost use Rattle.memo.specs.Entries.{rehomed};
ghost use Rattle.memo.specs.Layout.{Comes, turn};

use crate::entries::PLACES;

/// k elements at p become m.
#[derive(Clone, Copy)]
pub struct Change {
    pub p: usize,
    pub k: usize,
    pub m: usize,
}

impl Change {
    /// Whether it leaves a row at a place before p: its reach is at most p.
    pub(crate) fn leaves(self, place: usize, reach: u32) -> bool
        requires { place < self.p }
        ensures { result ≡ nat_le (place + reach) self.p }
    {
        reach as usize <= self.p - place
    }

    /// Where a row of the ring stands afterwards.
    pub(crate) fn home(self, place: usize, reach: u32) -> Option<usize>
        ensures { result ≡ rehomed self.p self.k self.m place reach }
    {
        if place < self.p {
            return self.leaves(place, reach).then_some(place);
        }
        if place - self.p < self.k {
            return None;
        }
        (place - self.k)
            .checked_add(self.m)
            .filter(|to| *to < PLACES)
    }

    /// The place below P whose row comes to this one.
    pub(crate) fn source(self, places: usize, place: usize) -> Option<usize>
        ensures { Comes places self.p self.k self.m place result }
    {
        let base = place.checked_sub(self.m)?;
        if base < self.p {
            return None;
        }
        base.checked_add(self.k).filter(|from| *from < places)
    }

    /// The slot of turn t of n: downward where the text grows.
    pub(crate) fn turn(self, n: usize, t: usize) -> usize
        requires { t < n }
        ensures { result ≡ turn self.k self.m n t }
    {
        if self.k < self.m { n - 1 - t } else { t }
    }
}
