//! What a ring holds: its entries, the one put last first.
ghost use Rattle.std.specs.Prelude.{◌≡◌, ◌≤◌, true, length};
ghost use Rattle.memo.specs.Entries.{lawful};

use crate::entries::Entry;
use arrayvec::ArrayVec;

/// The 64 rows put last.
#[derive(Drop)]
pub struct Ring {
    pub(super) entries: ArrayVec<Entry, 64>,
    ghost few: { length entries.items ≤ 64 },
    ghost lawful: { lawful entries.items ≡ true },
}
