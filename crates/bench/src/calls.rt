//! The five calls. Each is lent the whole bench: grammar, text and memory.
// They are lent one by one, a form of the project: a call borrows mutably only what it changes, and its clauses name T's and M's members.
ghost use Rattle.std.specs.Prelude.{◌≡◌, [], length, IfOk, MatchResult};
ghost use Rattle.grammar.specs.Words.{meaning};
ghost use Rattle.memo.specs.Tables.{Empty, Shifts};
ghost use Rattle.bench.specs.Runs.{settled, Run};
ghost use Rattle.text.specs.Meaning.{replaced};
ghost use Rattle.reading.specs.Promises.{Promised, PromisedByNumber};
ghost use Rattle.reading.specs.Reads.{setting};
ghost use Rattle.reading.specs.Replies.{RefusedBy, Replies};
ghost use Rattle.engine.specs.Frames.{blanked};
ghost use Rattle.bench.specs.Calls.{bounds, ChangesOn, ChangesOnKnowing, EndsKnown, GoesOn, GoesOnKnowing, Numbered, Obeys, ParsesOn, StaysKnown};
ghost use Rattle.bench.specs.Slips.{out};

use crate::state::{SPENT, Settled, Slip};
use engine::frame::Frame;
use engine::read::read;
use grammar::accepted::Grammar;
use memo::memory::Memory;
use reading::reply::Reply;
use text::{EditRefusal, EditableText, Text};

/// Drops every row.
fn forget<M: Memory>(memory: &mut M)
    ensures empty { Empty (M.table memory.new) }
    ensures places { M.P memory.new ≡ M.P memory.old }
    ensures rules { M.Q memory.new ≡ M.Q memory.old }
{
    memory.empty();
}

/// Opens a bench: empties the memory.
pub fn open<T: Text, M: Memory>(grammar: &Grammar<'_>, text: &T, memory: &mut M) -> Settled
    ensures empty { Empty (M.table memory.new) }
    ensures places { M.P memory.new ≡ M.P memory.old }
    ensures rules { M.Q memory.new ≡ M.Q memory.old }
    ensures run { Run T.fits (bounds M.keeps (M.P memory.new) (M.Q memory.new) (T.room text.now)) grammar.now.words.now (T.elements text.now) [] (T.elements text.now) (M.table memory.new) [] settled }
{
    // asked for what every text promises of its capacity
    let _ = text.capacity();
    forget(memory);
    Settled::new()
}

/// Clears a settled bench: empties its memory.
pub fn clear<T: Text, M: Memory>(_state: &Settled, grammar: &Grammar<'_>, text: &T, memory: &mut M)
    ensures empty { Empty (M.table memory.new) }
    ensures places { M.P memory.new ≡ M.P memory.old }
    ensures rules { M.Q memory.new ≡ M.Q memory.old }
    ensures run { GoesOn T.fits (bounds M.keeps (M.P memory.old) (M.Q memory.old) (T.room text.now)) (bounds M.keeps (M.P memory.new) (M.Q memory.new) (T.room text.now)) grammar.now.words.now (T.elements text.now) (T.elements text.now) (M.table memory.old) (M.table memory.new) settled settled }
    ensures known { GoesOnKnowing T.fits (bounds M.keeps (M.P memory.old) (M.Q memory.old) (T.room text.now)) (bounds M.keeps (M.P memory.new) (M.Q memory.new) (T.room text.now)) grammar.now.words.now (T.elements text.now) (T.elements text.now) (M.table memory.old) (M.table memory.new) settled settled EndsKnown }
{
    forget(memory);
}

/// Settles a change: spends the slip on its own bench, and shifts the memory by its change.
pub fn settle<T: Text, M: Memory>(
    slip: Slip,
    grammar: &Grammar<'_>,
    text: &T,
    memory: &mut M,
) -> Settled
    ensures shifts { Shifts M.keeps (M.P memory.old) slip.p slip.k slip.m (M.table memory.old) (M.table memory.new) }
    ensures places { M.P memory.new ≡ M.P memory.old }
    ensures rules { M.Q memory.new ≡ M.Q memory.old }
    ensures run { GoesOn T.fits (bounds M.keeps (M.P memory.old) (M.Q memory.old) (T.room text.now)) (bounds M.keeps (M.P memory.new) (M.Q memory.new) (T.room text.now)) grammar.now.words.now (T.elements text.now) (T.elements text.now) (M.table memory.old) (M.table memory.new) (out slip) settled }
    ensures known { GoesOnKnowing T.fits (bounds M.keeps (M.P memory.old) (M.Q memory.old) (T.room text.now)) (bounds M.keeps (M.P memory.new) (M.Q memory.new) (T.room text.now)) grammar.now.words.now (T.elements text.now) (T.elements text.now) (M.table memory.old) (M.table memory.new) (out slip) settled StaysKnown }
{
    let mut slip = slip;
    memory.shift(slip.p, slip.k, slip.m);
    slip.p = SPENT;
    Settled::new()
}

/// Parses the text of a settled bench: rule 0 in mode on at place 0.
// What `read` promises stands here again: a function takes over no clause from the one that it calls.
pub fn parse<T: Text, M: Memory>(
    _state: &Settled,
    grammar: &Grammar<'_>,
    text: &T,
    memory: &mut M,
    frames: &mut [Frame],
) -> Reply
    ensures law { Obeys T.fits (bounds M.keeps (M.P memory.old) (M.Q memory.old) (T.room text.now)) grammar.now.words.now (T.elements text.now) (M.table memory.old) (length frames.old) result (M.table memory.new) }
    ensures replies { Replies (setting (meaning grammar.now.words.now) T.fits (T.elements text.now) (length frames.old) M.keeps (M.P memory.old) (M.Q memory.old)) (T.room text.now) (M.table memory.old) result (M.table memory.new) }
    ensures promised { Promised (setting (meaning grammar.now.words.now) T.fits (T.elements text.now) (length frames.old) M.keeps (M.P memory.old) (M.Q memory.old)) (T.room text.now) (M.table memory.old) result (M.table memory.new) }
    ensures numbered { PromisedByNumber (setting (meaning grammar.now.words.now) T.fits (T.elements text.now) (length frames.old) M.keeps (M.P memory.old) (M.Q memory.old)) (T.room text.now) (M.table memory.old) result (M.table memory.new) }
    ensures run { GoesOn T.fits (bounds M.keeps (M.P memory.old) (M.Q memory.old) (T.room text.now)) (bounds M.keeps (M.P memory.new) (M.Q memory.new) (T.room text.now)) grammar.now.words.now (T.elements text.now) (T.elements text.now) (M.table memory.old) (M.table memory.new) settled settled }
    ensures known { ParsesOn T.fits (bounds M.keeps (M.P memory.old) (M.Q memory.old) (T.room text.now)) (bounds M.keeps (M.P memory.new) (M.Q memory.new) (T.room text.now)) grammar.now.words.now (T.elements text.now) (M.table memory.old) (M.table memory.new) (length frames.old) }
    ensures unchanged { RefusedBy 8 result → memory.new ≡ memory.old }
    ensures blank { frames.new ≡ blanked frames.old }
    ensures places { M.P memory.new ≡ M.P memory.old }
    ensures rules { M.Q memory.new ≡ M.Q memory.old }
{
    read(grammar, text, memory, frames)
}

/// Changes the text of a settled bench: the items stand where k elements stood at p. Refused, it gives the state back.
pub fn change<T: EditableText, M: Memory>(
    state: Settled,
    grammar: &Grammar<'_>,
    text: &mut T,
    memory: &M,
    p: usize,
    k: usize,
    items: &[T::Element],
) -> Result<Slip, (Settled, EditRefusal)>
    ensures answers { Numbered result (length (T.Text.elements text.old)) (T.Text.room text.old) p k (length items.now) }
    ensures slip { IfOk result (λ s. (s.p ≡ p) × (s.k ≡ k) × (s.m ≡ length items.now)) }
    ensures text { MatchResult result (λ _. T.Text.elements text.new ≡ replaced (T.Text.elements text.old) p k items.now) (λ _. text.new ≡ text.old) }
    ensures capacity { T.Text.room text.new ≡ T.Text.room text.old }
    ensures run { ChangesOn result T.Text.fits (bounds M.Memory.keeps (M.Memory.P memory.now) (M.Memory.Q memory.now) (T.Text.room text.old)) (bounds M.Memory.keeps (M.Memory.P memory.now) (M.Memory.Q memory.now) (T.Text.room text.new)) grammar.now.words.now (T.Text.elements text.old) (T.Text.elements text.new) (M.Memory.table memory.now) p k items.now }
    ensures known { ChangesOnKnowing result T.Text.fits (bounds M.Memory.keeps (M.Memory.P memory.now) (M.Memory.Q memory.now) (T.Text.room text.old)) (bounds M.Memory.keeps (M.Memory.P memory.now) (M.Memory.Q memory.now) (T.Text.room text.new)) grammar.now.words.now (T.Text.elements text.old) (T.Text.elements text.new) (M.Memory.table memory.now) p k items.now }
{
    match text.replace(p, k, items) {
        Ok(()) => Ok(Slip {
            p,
            k,
            m: items.len(),
        }),
        Err(refusal) => Err((state, refusal)),
    }
}
