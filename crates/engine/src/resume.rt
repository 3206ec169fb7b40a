//! A frame is handed what its open part gave: it gives in turn, or goes on with another part.
ghost use Rattle.std.specs.Prelude.{◌≡◌, ℕ, ◌+◌, ◌^◌, ◌<◌};
ghost use Rattle.grammar.specs.Words.{meaning};
ghost use Rattle.engine.specs.Frames.{so_far};
ghost use Rattle.reading.specs.Reads.{Setting, Store, store, row_of, Stores};
ghost use Rattle.engine.specs.Machine.{finish, Sane, Awaiting, Fine, Handed, Resumes, Resumed, GoesBy};
ghost use Rattle.grammar.specs.declared.expr.Expr.TheVariants.{Sequence, Choice, Repetition, Call, Predicate, Throw};
ghost use Rattle.peg.specs.Rules.{caught};

use crate::frame::Frame;
use crate::readings::Part;
use crate::step::Move;
use grammar::accepted::Grammar;
use grammar::expr::Expr;
use memo::memory::Memory;
use memo::row::Row;
use peg::results::{Outcome, Reading, RulePlace};

/// The row of what a rule gave at a place.
// `Fine` stays a clause: it has several ways to hold, and a ghost field keeps only what has one.
fn row_at(place: usize, v: Reading) -> Row
    requires small { Fine v }
    ensures { result ≡ row_of place v }
{
    let (matched, label, far) = match v.outcome {
        Outcome::Match { end } => (true, 0, end),
        Outcome::Failure { label, place } => (false, label, place),
    };
    let (noted, note, marks) = match v.note {
        None => (false, 0, 0),
        Some(x) => (true, x.place.saturating_sub(place), x.marks),
    };
    Row {
        matched,
        label,
        end: far.saturating_sub(place) as u16,
        noted,
        note: note as u16,
        marks,
        recoveries: v.recoveries.count,
        first_label: v.recoveries.label,
        first: v.recoveries.place.saturating_sub(place) as u16,
        depth: v.depth as u64,
        reach: v.reach.saturating_sub(place) as u32,
    }
}

/// Puts the row of what a rule gave at its rule-place, and counts it, up to where the count stops.
// The memory and the count are two parameters throughout: a struct of both would hold a loan, and each clause would have to name it again.
pub(crate) fn keep_row<M: Memory>(memory: &mut M, fresh: &mut u32, at: RulePlace, v: Reading)
    requires { Fine v }
    ensures stores { (G : Setting) → GoesBy G M.keeps (M.P memory.old) (M.Q memory.old) → Stores G (store (M.table memory.old) fresh.old) at.rule at.place at.mode (row_of at.place v) (store (M.table memory.new) fresh.new) }
    ensures places { M.P memory.new ≡ M.P memory.old }
    ensures rules { M.Q memory.new ≡ M.Q memory.old }
{
    memory.put(at, row_at(at.place, v));
    *fresh = fresh.saturating_add(1);
}

/// Whether a set catches an outcome.
fn is_caught(grammar: &Grammar<'_>, set: usize, outcome: Outcome) -> bool
    ensures { result ≡ caught (meaning grammar.now.words.now) set outcome }
{
    match outcome {
        Outcome::Match { .. } => false,
        Outcome::Failure { label, .. } => grammar.catches(set, label as usize),
    }
}

/// A frame, handed what its open part gave.
#[derive(Clone, Copy)]
struct Handover {
    frame: Frame,
    part: Part,
    ghost shallow: { frame.depth + 1 < 2 ^ 64 },
}

// The four `after_` are inlined: called, each would have frame and reading copied to it for every step.
impl Handover {
    /// What the finished parts came to.
    fn so_far(self) -> Part
        ensures { result.reading ≡ so_far self.frame }
    {
        Part {
            reading: self.frame.told_so_far(),
        }
    }

    /// What a repetition gives, from what it gives after the rounds so far.
    fn after_rounds(self, rest: Reading) -> Reading
        ensures { result ≡ finish self.frame self.frame.stage rest }
    {
        if self.frame.stage == 0 {
            rest
        } else {
            self.so_far().round(rest)
        }
    }

    /// A sequence.
    #[inline(always)]
    fn after_sequence(self, second: usize) -> Move
        ensures { (G : Setting) (T : Store) (h a : ℕ) → Resumes G h self.frame self.part.reading (Sequence a second) T T result }
    {
        let Handover { frame, part } = self;
        if frame.stage != 0 {
            return Move::Give {
                reading: self.so_far().sequence(part),
            };
        }
        match part.reading.outcome {
            Outcome::Match { end } => frame.goes_on(second, end, part.reading),
            Outcome::Failure { .. } => Move::Give {
                reading: part.deeper(),
            },
        }
    }

    /// A choice.
    #[inline(always)]
    fn after_choice(self, grammar: &Grammar<'_>, second: usize, set: usize) -> Move
        ensures { (G : Setting) (T : Store) (h a : ℕ) → G.grammar ≡ meaning grammar.now.words.now → Resumes G h self.frame self.part.reading (Choice a second set) T T result }
    {
        let Handover { frame, part } = self;
        if frame.stage != 0 {
            return Move::Give {
                reading: self.so_far().other(part),
            };
        }
        if is_caught(grammar, set, part.reading.outcome) {
            frame.goes_on(second, frame.place, part.reading)
        } else {
            Move::Give {
                reading: part.deeper(),
            }
        }
    }

    /// A repetition.
    #[inline(always)]
    fn after_round(self, again: usize) -> Move
        ensures { (G : Setting) (T : Store) (h : ℕ) → Resumes G h self.frame self.part.reading (Repetition again) T T result }
    {
        let Handover { frame, part } = self;
        match part.reading.outcome {
            Outcome::Match { end } => frame.goes_on(again, end, frame.with_round(part.reading)),
            Outcome::Failure { label, .. } => Move::Give {
                reading: self.after_rounds(part.unmatched(frame.at, label)),
            },
        }
    }

    /// A call: the row of what its rule gave is put.
    #[inline(always)]
    fn after_call<M: Memory>(self, memory: &mut M, fresh: &mut u32, rule: usize) -> Move
        requires { Fine self.part.reading }
        ensures resumed { (G : Setting) (h : ℕ) → GoesBy G M.keeps (M.P memory.old) (M.Q memory.old) → Resumes G h self.frame self.part.reading (Call rule) (store (M.table memory.old) fresh.old) (store (M.table memory.new) fresh.new) result }
        ensures places { M.P memory.new ≡ M.P memory.old }
        ensures rules { M.Q memory.new ≡ M.Q memory.old }
    {
        let Handover { frame, part } = self;
        let at = RulePlace {
            rule,
            place: frame.place,
            mode: frame.mode.into(),
        };
        keep_row(memory, fresh, at, part.reading);
        Move::Give {
            reading: part.deeper(),
        }
    }
}

/// Hands a frame, below which so many are open, what its open part gave.
pub(crate) fn resume<M: Memory>(
    grammar: &Grammar<'_>,
    memory: &mut M,
    fresh: &mut u32,
    level: usize,
    frame: Frame,
    v: Reading,
) -> Move
    requires { Handed (meaning grammar.now.words.now) level frame v }
    ensures resumed { (G : Setting) → G.grammar ≡ meaning grammar.now.words.now → GoesBy G M.keeps (M.P memory.old) (M.Q memory.old) → Sane G → Awaiting G level frame v → Resumed G (store (M.table memory.old) fresh.old) (store (M.table memory.new) fresh.new) level frame v result }
    ensures places { M.P memory.new ≡ M.P memory.old }
    ensures rules { M.Q memory.new ≡ M.Q memory.old }
{
    let part = Part { reading: v };
    let handover = Handover { frame, part };
    match grammar.expr(frame.expression) {
        Expr::Empty => unreachable(),
        Expr::Terminal { .. } => unreachable(),
        Expr::Call { rule } => handover.after_call(memory, fresh, rule),
        Expr::Sequence { second, .. } => handover.after_sequence(second),
        Expr::Choice { second, set, .. } => handover.after_choice(grammar, second, set),
        Expr::Repetition { part: again } => handover.after_round(again),
        Expr::Predicate { .. } => Move::Give {
            reading: part.predicate(frame.place),
        },
        Expr::Throw { label } => Move::Give {
            reading: part.recovery(label as u8, frame.place),
        },
    }
}
