//! The check's last layer: what may match nothing, and walks to leading parts that never end.
ghost use Rattle.std.specs.Prelude.{◌≡◌, ℕ, ◌*◌, ◌<◌, ◌≤◌, false, length, replicate, MatchOption, MatchResult};
ghost use Rattle.grammar.specs.declared.expr.Mode.{Mode};
ghost use Rattle.grammar.specs.declared.expr.Mode.TheVariants.{On, Off};
ghost use Rattle.grammar.specs.Words.{bit, meaning};
ghost use Rattle.grammar.specs.Questions.{Never, Lowest, Tells, WordAtFault, FormPasses, FormFails};
ghost use Rattle.grammar.specs.Faults.{form_report};
ghost use Rattle.grammar.specs.Marks.{mark, may, ends, due, Backed, Complete, Ready, Same, other, Grew, Tried, Decided, Blank, FaultAt, faulty, Right, Mask};

use crate::expr::{Expr, Mode};
use crate::fault::FormFault;
use crate::marks::{Fact, marked, set_mark};
use crate::references::WholeRow;
use crate::row::{body_of, expr_of, expressions_of, recovers_in, rules_of};

/// Whether an expression may match nothing, as far as its parts are marked.
fn may_match_nothing(words: &[u32], work: &[u32], number: usize, mode: Mode) -> bool
    ensures { result ≡ may (meaning words.now) (mark work.now) ((meaning words.now).expr number) mode }
{
    let fact = Fact::MayMatchNothing;
    match expr_of(words, number) {
        Expr::Empty | Expr::Repetition { .. } | Expr::Predicate { .. } => true,
        Expr::Terminal { .. } => false,
        Expr::Call { rule } => marked(work, fact, body_of(words, rule), mode),
        Expr::Sequence { first, second } => marked(work, fact, first, mode)
            && marked(work, fact, second, mode),
        Expr::Choice { first, second, .. } => marked(work, fact, first, mode)
            || marked(work, fact, second, mode),
        Expr::Throw { label } => recovers_in(words, label, mode).is_some_and(|e| marked(
            work,
            fact,
            e,
            Mode::On,
        )),
    }
}

/// Whether every walk from an expression ends, as far as its leading parts are marked.
fn walks_end(words: &[u32], work: &[u32], number: usize, mode: Mode) -> bool
    ensures { result ≡ ends (meaning words.now) (mark work.now) ((meaning words.now).expr number) mode }
{
    let fact = Fact::WalksEnd;
    match expr_of(words, number) {
        Expr::Empty | Expr::Terminal { .. } => true,
        Expr::Call { rule } => marked(work, fact, body_of(words, rule), mode),
        Expr::Sequence { first, second } => {
            marked(work, fact, first, mode)
                && (!marked(work, Fact::MayMatchNothing, first, mode)
                    || marked(work, fact, second, mode))
        }
        Expr::Choice { first, second, .. } => marked(work, fact, first, mode)
            && marked(work, fact, second, mode),
        Expr::Repetition { part } => marked(work, fact, part, mode),
        Expr::Predicate { part } => marked(work, fact, part, Mode::Off),
        Expr::Throw { label } => recovers_in(words, label, mode).is_none_or(|e| marked(
            work,
            fact,
            e,
            Mode::On,
        )),
    }
}

/// Whether a fact holds of an expression, as far as its parts are marked.
fn is_due(words: &[u32], work: &[u32], fact: Fact, number: usize, mode: Mode) -> bool
    ensures { result ≡ due (meaning words.now) (mark work.now) fact ((meaning words.now).expr number) mode }
{
    match fact {
        Fact::MayMatchNothing => may_match_nothing(words, work, number, mode),
        Fact::WalksEnd => walks_end(words, work, number, mode),
    }
}

/// Marks a fact of an expression if it is due; says whether that was a new mark.
// Here and below, `room`, `ready` and `backed` stay clauses: they speak of the lent work words, which change at each step, and the last two hold derivations, which no ghost field keeps.
fn grow(row: &WholeRow, work: &mut [u32], fact: Fact, number: usize, mode: Mode) -> bool
    requires room { 2 * (meaning row.now.words.now).N ≤ length work.old }
    requires known { number < (meaning row.now.words.now).N }
    requires ready { Ready (meaning row.now.words.now) (mark work.old) fact }
    requires backed { Backed (meaning row.now.words.now) (mark work.old) fact }
    ensures grew { Grew (meaning row.now.words.now) work.old work.new fact result }
    ensures tried { result ≡ false → Tried (meaning row.now.words.now) (mark work.old) fact number mode }
{
    if marked(work, fact, number, mode) || !is_due(row.words, work, fact, number, mode) {
        return false;
    }
    set_mark(work, fact, number, mode);
    true
}

/// Marks a fact of an expression in both modes, where it is due; says whether there was a new mark.
fn grow_both(row: &WholeRow, work: &mut [u32], fact: Fact, number: usize) -> bool
    requires room { 2 * (meaning row.now.words.now).N ≤ length work.old }
    requires known { number < (meaning row.now.words.now).N }
    requires ready { Ready (meaning row.now.words.now) (mark work.old) fact }
    requires backed { Backed (meaning row.now.words.now) (mark work.old) fact }
    ensures grew { Grew (meaning row.now.words.now) work.old work.new fact result }
    ensures tried { result ≡ false → (m : Mode) → Tried (meaning row.now.words.now) (mark work.old) fact number m }
{
    let on = grow(row, work, fact, number, Mode::On);
    let off = grow(row, work, fact, number, Mode::Off);
    on || off
}

/// One pass over the expressions; says whether there was a new mark.
fn pass(row: &WholeRow, work: &mut [u32], fact: Fact) -> bool
    requires room { 2 * (meaning row.now.words.now).N ≤ length work.old }
    requires ready { Ready (meaning row.now.words.now) (mark work.old) fact }
    requires backed { Backed (meaning row.now.words.now) (mark work.old) fact }
    ensures grew { Grew (meaning row.now.words.now) work.old work.new fact result }
    ensures tried { result ≡ false → Complete (meaning row.now.words.now) (mark work.new) fact }
{
    let mut grown = false;
    for number in 0..expressions_of(row.words) {
        grown |= grow_both(row, work, fact, number);
    }
    grown
}

/// Marks a fact wherever it holds, by passes until one brings nothing new.
fn settle(row: &WholeRow, work: &mut [u32], fact: Fact)
    requires room { 2 * (meaning row.now.words.now).N ≤ length work.old }
    requires ready { Ready (meaning row.now.words.now) (mark work.old) fact }
    requires blank { Blank (mark work.old) fact }
    ensures decided { Decided (meaning row.now.words.now) (mark work.new) fact }
    ensures same { Same (mark work.old) (mark work.new) (other fact) }
{
    'passes: while pass(row, work, fact) {}
}

/// Whether an expression is at fault: a repetition of what may match nothing, or the start of an endless walk.
fn at_fault(words: &[u32], work: &[u32], fact: Fact, number: usize) -> bool
    ensures { result ≡ faulty (meaning words.now) (mark work.now) fact number }
{
    match fact {
        Fact::MayMatchNothing => match expr_of(words, number) {
            Expr::Repetition { part } => marked(work, fact, part, Mode::On)
                || marked(work, fact, part, Mode::Off),
            _ => false,
        },
        Fact::WalksEnd => !marked(work, fact, number, Mode::On)
            || !marked(work, fact, number, Mode::Off),
    }
}

/// The word of the lowest expression at fault.
// A loop and no `find`: tried, and what `at_fault` ensures inside the closure is out of the proof's reach unless a clause repeats it.
fn lowest_fault(row: &WholeRow, work: &[u32], fact: Fact) -> Option<usize>
    requires { Decided (meaning row.now.words.now) (mark work.now) fact }
    ensures { MatchOption result
        (Never (WordAtFault row.now.words.now (FaultAt (meaning row.now.words.now) fact)))
        (λ w. Lowest (WordAtFault row.now.words.now (FaultAt (meaning row.now.words.now) fact)) w) }
{
    let count = expressions_of(row.words);
    for number in 0..count {
        if at_fault(row.words, work, fact, number) {
            return Some(row.words.len() - count + number);
        }
    }
    None
}

/// The rules that may match nothing in a mode, a bit for each.
fn nullable_rules(row: &WholeRow, work: &[u32], mode: Mode) -> u64
    requires { Right (meaning row.now.words.now) (mark work.now) }
    ensures { Mask (meaning row.now.words.now) mode result }
{
    let mut mask = 0;
    for rule in 0..rules_of(row.words) {
        if marked(work, Fact::MayMatchNothing, body_of(row.words, rule), mode) {
            mask |= 1 << rule;
        }
    }
    mask
}

/// Asks questions 6 and 7, with blank work words; gives the rules that may match nothing, in mode on and in mode off.
pub(crate) fn check_form(row: &WholeRow, work: &mut [u32]) -> Result<(u64, u64), FormFault>
    requires room { 2 * (meaning row.now.words.now).N ≤ length work.old }
    requires blank { work.old ≡ replicate (length work.old) 0 }
    ensures { MatchResult result
        (λ rules. FormPasses row.now.words.now × Mask (meaning row.now.words.now) On rules.0 × Mask (meaning row.now.words.now) Off rules.1)
        (λ f. FormFails row.now.words.now (form_report f)) }
{
    settle(row, work, Fact::MayMatchNothing);
    if let Some(word) = lowest_fault(row, work, Fact::MayMatchNothing) {
        return Err(FormFault::EmptyRepetition { word });
    }
    let on = nullable_rules(row, work, Mode::On);
    let off = nullable_rules(row, work, Mode::Off);
    settle(row, work, Fact::WalksEnd);
    if let Some(word) = lowest_fault(row, work, Fact::WalksEnd) {
        return Err(FormFault::EndlessWalk { word });
    }
    Ok((on, off))
}
