//! An expression is entered: it gives at once, or is opened with its first part.
ghost use Rattle.std.specs.Prelude.{◌≡◌, ℕ, ◌^◌, ◌<◌, ◌≤◌};
ghost use Rattle.grammar.specs.declared.expr.Expr.TheVariants.{Call};
ghost use Rattle.grammar.specs.Words.{meaning};
ghost use Rattle.peg.specs.declared.results.Outcome.TheVariants.{Failure};
ghost use Rattle.peg.specs.Rules.{unmarked};
ghost use Rattle.peg.specs.Readings.{read_alone};
ghost use Rattle.text.specs.Meaning.{accepted};
ghost use Rattle.engine.specs.Frames.{fresh_frame};
ghost use Rattle.reading.specs.Reads.{setting, store, read_terminal};
ghost use Rattle.engine.specs.Machine.{Entered, opens_with};

use crate::frame::Frame;
use crate::readings::{Part, alone};
use crate::scene::Scene;
use crate::step::{Ask, Move};
use grammar::expr::{Expr, Mode};
use memo::memory::Memory;
use peg::results::{Note, Outcome, Reading, RulePlace};
use reading::refusal::Refusal;
use text::Text;

/// The frame of an expression that begins.
fn fresh(ask: Ask) -> Frame
    ensures { result ≡ fresh_frame ask.expression ask.place ask.mode }
{
    Frame {
        expression: ask.expression,
        place: ask.place,
        mode: ask.mode.into(),
        at: ask.place,
        ..Frame::blank()
    }
}

/// An expression is opened with a part, at its own place.
fn opened(ask: Ask, part: usize, mode: Mode) -> Move
    ensures { result ≡ opens_with ask part mode }
{
    Move::Open {
        frame: fresh(ask),
        ask: Ask {
            expression: part,
            mode,
            ..ask
        },
    }
}

/// A terminal.
// Here and below, that the place is small is asked for `alone`.
fn terminal<T: Text>(text: &T, a: u32, b: u32, mark: u32, place: usize) -> Reading
    requires { (mark < 32) × (place < 2 ^ 63) }
    ensures { result ≡ read_terminal (accepted T.fits (T.elements text.now) a b place) mark place }
{
    if text.accepts(a, b, place) {
        alone(place, Outcome::Match { end: place + 1 }, None)
    } else {
        let marks = 1 << mark;
        alone(
            place,
            Outcome::Failure { label: 0, place },
            Some(Note { place, marks }),
        )
    }
}

/// A throw that nothing recovers.
fn thrown(label: u8, place: usize) -> Reading
    requires { place < 2 ^ 63 }
    ensures { result ≡ read_alone place (Failure label place) (unmarked place) }
{
    alone(
        place,
        Outcome::Failure { label, place },
        Some(Note { place, marks: 0 }),
    )
}

impl<T: Text> Scene<'_, T> {
    /// A call: its rule-place is looked up first.
    fn enter_call<M: Memory>(
        &self,
        memory: &M,
        height: usize,
        ask: Ask,
        rule: usize,
    ) -> Result<Move, Refusal>
        requires known { ask.expression < (meaning self.now.grammar.now.words.now).N }
        requires within { ask.place ≤ self.now.size }
        requires level { height < self.now.frames }
        requires call { (meaning self.now.grammar.now.words.now).expr ask.expression ≡ Call rule }
        ensures { (n : ℕ) → Entered (setting (meaning self.now.grammar.now.words.now) T.fits (T.elements self.now.text.now) self.now.frames M.keeps (M.P memory.now) (M.Q memory.now)) (store (M.table memory.now) n) height ask.expression ask.place ask.mode result }
    {
        let Ask { place, mode, .. } = ask;
        let at = RulePlace { rule, place, mode };
        match memory.look(at) {
            None => Ok(opened(ask, self.grammar.body(rule), mode)),
            Some(row) => {
                let reading = self.found(self.frames - height - 1, at, row)?;
                let part = Part { reading };
                Ok(Move::Give {
                    reading: part.deeper(),
                })
            }
        }
    }

    /// Enters an expression below so many open ones.
    pub(crate) fn enter<M: Memory>(
        &self,
        memory: &M,
        height: usize,
        ask: Ask,
    ) -> Result<Move, Refusal>
        requires known { ask.expression < (meaning self.now.grammar.now.words.now).N }
        requires within { ask.place ≤ self.now.size }
        ensures { (n : ℕ) → Entered (setting (meaning self.now.grammar.now.words.now) T.fits (T.elements self.now.text.now) self.now.frames M.keeps (M.P memory.now) (M.Q memory.now)) (store (M.table memory.now) n) height ask.expression ask.place ask.mode result }
    {
        if height >= self.frames {
            return Err(Refusal::TooDeep);
        }
        let Ask { place, mode, .. } = ask;
        match self.grammar.expr(ask.expression) {
            Expr::Empty => Ok(Move::Give {
                reading: alone(place, Outcome::Match { end: place }, None),
            }),
            Expr::Terminal { a, b, mark } => Ok(Move::Give {
                reading: terminal(self.text, a, b, mark, place),
            }),
            Expr::Call { rule } => self.enter_call(memory, height, ask, rule),
            Expr::Sequence { first, .. } => Ok(opened(ask, first, mode)),
            Expr::Choice { first, .. } => Ok(opened(ask, first, mode)),
            Expr::Repetition { part } => Ok(opened(ask, part, mode)),
            Expr::Predicate { part } => Ok(opened(ask, part, Mode::Off)),
            Expr::Throw { label } => match self.grammar.recovers(label, mode) {
                Some(part) => Ok(opened(ask, part, Mode::On)),
                None => Ok(Move::Give {
                    reading: thrown(label as u8, place),
                }),
            },
        }
    }
}
