//! An accepted grammar, and the check by which a row of words becomes one.
ghost use Rattle.std.specs.Prelude.{◌≡◌, ℕ, ◌*◌, ◌<◌, ◌≤◌, true, false, ◌↔◌, [], ◌∷◌, length, is_ok, IfOk};
ghost use Rattle.grammar.specs.declared.expr.Mode.TheVariants.{On, Off};
ghost use Rattle.grammar.specs.Words.{meaning};
ghost use Rattle.grammar.specs.Form.{recovers_lem};
ghost use Rattle.grammar.specs.Faults.{Report, report};
ghost use Rattle.grammar.specs.Questions.{Accepted, Counted, Headed, Never, Misformed, Misnamed, Hollow, Unending, Reported, Tells, work_left};
ghost use Rattle.grammar.specs.Marks.{Mask, Judged, NullableRule};

use crate::expr::{Expr, Mode};
use crate::fault::FormFault;
use crate::form::check_form;
use crate::marks::clear;
use crate::references::check_work;
use crate::row::{
    body_of, catches_in, expr_of, expressions_of, labels_of, recovers_in, recovery_of, rules_of,
    sets_of,
};

/// Work words that are enough for every grammar.
pub const MOST_WORK: usize = 2000;

/// The smallest grammar: one rule, whose body is the empty expression.
static SMALLEST: [u32; 3] = [0x8004_0100, 0x9000_0000, 0];

/// An accepted grammar.
#[derive(Clone, Copy)]
pub struct Grammar<'a> {
    /// The row of words.
    words: &'a [u32],
    /// The rules that may match nothing in mode on, a bit for each.
    on: u64,
    /// The same in mode off.
    off: u64,
    ghost counted: { Counted words.now },
    ghost headed: { Headed words.now },
    ghost formed: { Never (Misformed words.now) },
    ghost named: { Never (Misnamed words.now) },
    ghost solid: { Never (Hollow words.now) },
    ghost ending: { Never (Unending words.now) },
    ghost mask_on: { ∥ Mask (meaning words.now) On on ∥₁ },
    ghost mask_off: { ∥ Mask (meaning words.now) Off off ∥₁ },
}

/// Asks all questions of a row; gives the rules that may match nothing, in mode on and in mode off.
fn judge(words: &[u32], work: &mut [u32]) -> Result<(u64, u64), FormFault>
    ensures { Judged words.now work.old work.new result }
{
    let row = check_work(words, work.len())?;
    clear(work);
    let verdict = check_form(&row, work);
    clear(work);
    verdict
}

/// Checks a row of words, and on success gives the grammar of the row.
///
/// The work words stay as they are where the fault is not of the grammar's form, and are all zero otherwise.
pub fn check<'a>(words: &'a [u32], work: &mut [u32]) -> Result<Grammar<'a>, FormFault>
    ensures answers { (t : Report) → (report result ≡ t) ↔ Reported words.now (length work.old) t }
    ensures accepts { (is_ok result ≡ true) ↔ (Accepted words.now × (2 * (meaning words.now).N ≤ length work.old)) }
    ensures work { work.new ≡ work_left result work.old }
    ensures grammar { IfOk result (λ g. g.words.now ≡ words.now) }
{
    let (on, off) = judge(words, work)?;
    Ok(Grammar { words, on, off })
}

impl<'a> Grammar<'a> {
    /// The smallest grammar: it matches nothing, everywhere.
    pub fn smallest() -> Grammar<'a>
        ensures { result.words.now ≡ 0x80040100 ∷ 0x90000000 ∷ 0 ∷ [] }
    {
        Grammar {
            words: &SMALLEST,
            on: 1,
            off: 1,
        }
    }

    /// N, the number of expressions.
    pub fn expressions(&self) -> usize
        ensures { result ≡ (meaning self.now.words.now).N }
    {
        expressions_of(self.words)
    }

    /// R, the number of rules.
    pub fn rules(&self) -> usize
        ensures { result ≡ (meaning self.now.words.now).R }
    {
        rules_of(self.words)
    }

    /// L, the number of labels.
    pub fn labels(&self) -> usize
        ensures { result ≡ (meaning self.now.words.now).L }
    {
        labels_of(self.words)
    }

    /// S, the number of sets.
    pub fn sets(&self) -> usize
        ensures { result ≡ (meaning self.now.words.now).S }
    {
        sets_of(self.words)
    }

    /// An expression by its number; beyond the last, the empty one.
    pub fn expr(&self, number: usize) -> Expr
        ensures { result ≡ (meaning self.now.words.now).expr number }
    {
        expr_of(self.words, number)
    }

    /// The body of a rule; beyond the last rule, a number without meaning.
    pub fn body(&self, rule: usize) -> usize
        ensures { result ≡ (meaning self.now.words.now).body rule }
    {
        body_of(self.words, rule)
    }

    /// The recovery expression of a label, if it has one; an answer without meaning for a number that is no label's.
    pub fn recovery(&self, label: usize) -> Option<usize>
        ensures { result ≡ (meaning self.now.words.now).recovery label }
    {
        recovery_of(self.words, label)
    }

    /// The recovery expression of a throw of a label: only in mode on, and only if the label has one.
    pub fn recovers(&self, label: usize, mode: Mode) -> Option<usize>
        ensures { result ≡ recovers_lem (meaning self.now.words.now) label mode }
    {
        recovers_in(self.words, label, mode)
    }

    /// Whether a set holds a label; an answer without meaning beyond the last set, or above label 27.
    pub fn catches(&self, set: usize, label: usize) -> bool
        ensures { result ≡ (meaning self.now.words.now).catches set label }
    {
        catches_in(self.words, set, label)
    }

    /// The rules that may match nothing in a mode, a bit for each.
    fn mask(&self, mode: Mode) -> u64
        ensures { ∥ Mask (meaning self.now.words.now) mode result ∥₁ }
    {
        match mode {
            Mode::On => self.on,
            Mode::Off => self.off,
        }
    }

    /// Whether a rule may match nothing in a mode; no, where there is no such rule.
    pub fn may_match_nothing(&self, rule: usize, mode: Mode) -> bool
        ensures { Tells result (NullableRule (meaning self.now.words.now) mode rule) }
    {
        rule < rules_of(self.words) && (self.mask(mode) >> rule) & 1 == 1
    }
}
