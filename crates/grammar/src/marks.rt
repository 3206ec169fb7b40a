//! What the check marks of expressions, in the work words that it is lent: four yes/no facts of each.
ghost use Rattle.std.specs.Prelude.{◌≡◌, ℕ, ◌+◌, ◌*◌, ◌<◌, ◌≤◌, length, replicate};
ghost use Rattle.grammar.specs.Marks.{mark, fact_bit, Marked};

use crate::expr::Mode;
use crate::row::word_at;
use crate::word::holds;

/// A fact that is marked of an expression in a mode.
// One enum of two cases, over which each lemma of marking is stated once; a closure would have to bring its laws to each call.
#[derive(Clone, Copy)]
pub(crate) enum Fact {
    /// The expression may match nothing.
    MayMatchNothing,
    /// Every walk to leading parts that starts here ends.
    WalksEnd,
}

impl From<Fact> for usize {
    ghost from_gives = { λ f n. n ≡ fact_bit f };

    /// The fact's bit in a work word.
    fn from(fact: Fact) -> usize {
        match fact {
            Fact::MayMatchNothing => 0,
            Fact::WalksEnd => 1,
        }
    }
}

/// Whether a fact is marked; beyond the work words nothing is.
// Fact, number and mode stay three arguments: most calls name a part and a mode of their own beside a fact that stays.
pub(crate) fn marked(work: &[u32], fact: Fact, number: usize, mode: Mode) -> bool
    ensures { result ≡ mark work.now fact number mode }
{
    let second = number.saturating_add(usize::from(u8::from(mode)));
    holds(word_at(work, number, second), usize::from(fact))
}

/// Marks a fact.
pub(crate) fn set_mark(work: &mut [u32], fact: Fact, number: usize, mode: Mode)
    requires { 2 * number + 1 < length work.old }
    ensures { Marked work.old work.new fact number mode }
{
    let at = 2 * number + usize::from(u8::from(mode));
    work[at] |= 1 << usize::from(fact);
}

/// Takes all marks away.
pub(crate) fn clear(work: &mut [u32])
    ensures { work.new ≡ replicate (length work.old) 0 }
{
    work.fill(0);
}
