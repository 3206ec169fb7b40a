//! The loop: expressions are entered and frames resumed until rule 0's body has given something.
ghost use Rattle.std.specs.Prelude.{◌≡◌, ◌<◌, length, IfOk};
ghost use Rattle.grammar.specs.declared.expr.Mode.TheVariants.{On};
ghost use Rattle.grammar.specs.Words.{meaning};
ghost use Rattle.reading.specs.Reads.{setting, store, expression, Reads};
ghost use Rattle.engine.specs.Machine.{Fine, Room, frames_after, open_after, comes_next};

use crate::frame::Frame;
use crate::resume::resume;
use crate::scene::Scene;
use crate::step::{Ask, Control, Move};
use grammar::expr::Mode;
use memo::memory::Memory;
use peg::results::Reading;
use reading::refusal::Refusal;
use text::Text;

/// Takes a step at a level, where the frame that it opens is held: how many are open then, and what comes next.
fn taken(frames: &mut [Frame], level: usize, step: Move) -> (usize, Control)
    requires { Room (length frames.old) level step }
    ensures next { result ≡ (open_after level step, comes_next step) }
    ensures held { frames.new ≡ frames_after frames.old level step }
{
    match step {
        Move::Open { frame, ask } => {
            frames[level] = frame;
            (level + 1, Control::Evaluate { ask })
        }
        Move::Give { reading } => (level, Control::Return { reading }),
    }
}

/// Evaluates an expression at place 0 in mode on, with no other open.
// The lent frames are the stack, a form of the project: `height` says how many are open.
pub(crate) fn evaluate<T: Text, M: Memory>(
    scene: &Scene<'_, T>,
    memory: &mut M,
    fresh: &mut u32,
    frames: &mut [Frame],
    root: usize,
) -> Result<Reading, Refusal>
    requires lent { scene.now.frames ≡ length frames.old }
    requires known { root < (meaning scene.now.grammar.now.words.now).N }
    ensures reads { Reads (setting (meaning scene.now.grammar.now.words.now) T.fits (T.elements scene.now.text.now) scene.now.frames M.keeps (M.P memory.old) (M.Q memory.old)) 0 (store (M.table memory.old) fresh.old) (expression root) 0 On result (store (M.table memory.new) fresh.new) }
    ensures fine { IfOk result (λ v. Fine v) }
    ensures places { M.P memory.new ≡ M.P memory.old }
    ensures rules { M.Q memory.new ≡ M.Q memory.old }
{
    let mut height = 0;
    let mut control = Control::Evaluate {
        ask: Ask {
            expression: root,
            place: 0,
            mode: Mode::On,
        },
    };
    'turns: loop {
        match control {
            Control::Evaluate { ask } => {
                let step = scene.enter(&*memory, height, ask)?;
                (height, control) = taken(frames, height, step);
            }
            Control::Return { reading } => {
                if height == 0 {
                    return Ok(reading);
                }
                let top = height - 1;
                let step = resume(scene.grammar, memory, fresh, top, frames[top], reading);
                (height, control) = taken(frames, top, step);
            }
        }
    }
}
