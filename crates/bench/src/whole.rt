//! A parse over the whole memory: the law with nothing left to say about forgetting.
ghost use Rattle.std.specs.Prelude.{◌≡◌, true, length};
ghost use Rattle.memo.specs.Making.{p_of, q_of, table_of};
ghost use Rattle.engine.specs.Frames.{blanked};
ghost use Rattle.grammar.specs.Words.{meaning};
ghost use Rattle.reading.specs.Promises.{Promised, PromisedByNumber};
ghost use Rattle.reading.specs.Reads.{setting};
ghost use Rattle.reading.specs.Replies.{RefusedBy, Replies};
ghost use Rattle.bench.specs.Runs.{settled};
ghost use Rattle.bench.specs.Calls.{bounds, CountsExactly, GoesOn, Obeys, ParsesOn};

use crate::calls::parse;
use crate::state::Settled;
use engine::frame::Frame;
use grammar::accepted::Grammar;
use memo::whole::WholeMemory;
use reading::reply::Reply;
use text::Text;

/// `parse` over the whole memory.
// What `parse` promises stands here again: a function takes over no clause from the one that it calls.
pub fn parse_whole<T: Text>(
    state: &Settled,
    grammar: &Grammar<'_>,
    text: &T,
    memory: &mut WholeMemory<'_>,
    frames: &mut [Frame],
) -> Reply
    ensures law { Obeys T.fits (bounds true (p_of memory.old) (q_of memory.old) (T.room text.now)) grammar.now.words.now (T.elements text.now) (table_of memory.old) (length frames.old) result (table_of memory.new) }
    ensures counts { CountsExactly T.fits (bounds true (p_of memory.old) (q_of memory.old) (T.room text.now)) grammar.now.words.now (T.elements text.now) (table_of memory.old) (length frames.old) result }
    ensures replies { Replies (setting (meaning grammar.now.words.now) T.fits (T.elements text.now) (length frames.old) true (p_of memory.old) (q_of memory.old)) (T.room text.now) (table_of memory.old) result (table_of memory.new) }
    ensures promised { Promised (setting (meaning grammar.now.words.now) T.fits (T.elements text.now) (length frames.old) true (p_of memory.old) (q_of memory.old)) (T.room text.now) (table_of memory.old) result (table_of memory.new) }
    ensures numbered { PromisedByNumber (setting (meaning grammar.now.words.now) T.fits (T.elements text.now) (length frames.old) true (p_of memory.old) (q_of memory.old)) (T.room text.now) (table_of memory.old) result (table_of memory.new) }
    ensures run { GoesOn T.fits (bounds true (p_of memory.old) (q_of memory.old) (T.room text.now)) (bounds true (p_of memory.new) (q_of memory.new) (T.room text.now)) grammar.now.words.now (T.elements text.now) (T.elements text.now) (table_of memory.old) (table_of memory.new) settled settled }
    ensures known { ParsesOn T.fits (bounds true (p_of memory.old) (q_of memory.old) (T.room text.now)) (bounds true (p_of memory.new) (q_of memory.new) (T.room text.now)) grammar.now.words.now (T.elements text.now) (table_of memory.old) (table_of memory.new) (length frames.old) }
    ensures unchanged { RefusedBy 8 result → memory.new ≡ memory.old }
    ensures blank { frames.new ≡ blanked frames.old }
    ensures places { p_of memory.new ≡ p_of memory.old }
    ensures rules { q_of memory.new ≡ q_of memory.old }
{
    parse(state, grammar, text, memory, frames)
}
