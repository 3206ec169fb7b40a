//! Reading a text by a grammar, with a memory and lent frames.
ghost use Rattle.std.specs.Prelude.{◌≡◌, ◌<◌, ◌≤◌, length};
ghost use Rattle.grammar.specs.declared.expr.Mode.TheVariants.{On};
ghost use Rattle.grammar.specs.Questions.{Tells};
ghost use Rattle.grammar.specs.Words.{meaning};
ghost use Rattle.engine.specs.Frames.{blanked};
ghost use Rattle.reading.specs.Reads.{setting, store, rule, Reads};
ghost use Rattle.reading.specs.Promises.{Promised, PromisedByNumber};
ghost use Rattle.reading.specs.Replies.{answer_of, RefusedBy, Replies};

use crate::frame::Frame;
use crate::guard::Guard;
use crate::resume::keep_row;
use crate::run::evaluate;
use crate::scene::Scene;
use grammar::accepted::Grammar;
use grammar::expr::Mode;
use memo::memory::Memory;
use peg::results::{Reading, RulePlace};
use reading::refusal::Refusal;
use reading::reply::{Answer, Reply};
use text::Text;

/// What is answered of what was read.
fn answered(res: Result<Reading, Refusal>) -> Result<Answer, Refusal>
    ensures { result ≡ answer_of res }
{
    res.map(|reading| Answer {
        outcome: reading.outcome,
        note: reading.note,
        recoveries: reading.recoveries,
    })
}

/// Rule 0 in mode on at place 0.
const ROOT: RulePlace = RulePlace {
    rule: 0,
    place: 0,
    mode: Mode::On,
};

/// What the root gives.
fn root<T: Text, M: Memory>(
    scene: &Scene<'_, T>,
    memory: &mut M,
    fresh: &mut u32,
    frames: &mut [Frame],
) -> Result<Reading, Refusal>
    requires { scene.now.frames ≡ length frames.old }
    ensures reads { Reads (setting (meaning scene.now.grammar.now.words.now) T.fits (T.elements scene.now.text.now) scene.now.frames M.keeps (M.P memory.old) (M.Q memory.old)) 0 (store (M.table memory.old) fresh.old) (rule 0) 0 On result (store (M.table memory.new) fresh.new) }
    ensures places { M.P memory.new ≡ M.P memory.old }
    ensures rules { M.Q memory.new ≡ M.Q memory.old }
{
    if let Some(row) = memory.look(ROOT) {
        return scene.found(scene.frames, ROOT, row);
    }
    let reading = evaluate(scene, memory, fresh, frames, scene.grammar.body(0))?;
    keep_row(memory, fresh, ROOT, reading);
    Ok(reading)
}

/// Whether a memory has places above the text's capacity, and rules for all of the grammar's.
fn covers(places: usize, capacity: usize, rules: usize, needed: usize) -> bool
    ensures { Tells result ((capacity < places) × (needed ≤ rules)) }
{
    capacity < places && needed <= rules
}

/// Reads a text by a grammar: rule 0 in mode on at place 0.
///
/// The reply and the rows left are those of a reading (`replies`); what that promises, in the words of the rules and by number, is `promised`
/// and `numbered`.
/// The frames are blank again whichever way it ends, whatever they held; their number bounds the depth.
pub fn read<T: Text, M: Memory>(
    grammar: &Grammar<'_>,
    text: &T,
    memory: &mut M,
    frames: &mut [Frame],
) -> Reply
    ensures replies { Replies (setting (meaning grammar.now.words.now) T.fits (T.elements text.now) (length frames.old) M.keeps (M.P memory.old) (M.Q memory.old)) (T.room text.now) (M.table memory.old) result (M.table memory.new) }
    ensures promised { Promised (setting (meaning grammar.now.words.now) T.fits (T.elements text.now) (length frames.old) M.keeps (M.P memory.old) (M.Q memory.old)) (T.room text.now) (M.table memory.old) result (M.table memory.new) }
    ensures numbered { PromisedByNumber (setting (meaning grammar.now.words.now) T.fits (T.elements text.now) (length frames.old) M.keeps (M.P memory.old) (M.Q memory.old)) (T.room text.now) (M.table memory.old) result (M.table memory.new) }
    ensures unchanged { RefusedBy 8 result → memory.new ≡ memory.old }
    ensures blank { frames.new ≡ blanked frames.old }
    ensures places { M.P memory.new ≡ M.P memory.old }
    ensures rules { M.Q memory.new ≡ M.Q memory.old }
{
    let guard = Guard { frames };
    if !covers(
        memory.places(),
        text.capacity(),
        memory.rules(),
        grammar.rules(),
    ) {
        return Reply {
            result: Err(Refusal::Uncovered),
            fresh: 0,
        };
    }
    let mut fresh = 0;
    let scene = Scene {
        grammar,
        text,
        size: text.size(),
        frames: guard.frames.len(),
    };
    let result = root(&scene, memory, &mut fresh, guard.frames);
    Reply {
        result: answered(result),
        fresh,
    }
}
