//! The check's second and third layers: what words name, and the memory lent to the check.
ghost use Rattle.std.specs.Prelude.{◌≡◌, ℕ, ◌*◌, ◌<◌, ◌≤◌, length, MatchResult};
ghost use Rattle.grammar.specs.Words.{kind, field_a, field_b, field_c, meaning};
ghost use Rattle.grammar.specs.Questions.{Counted, Headed, Never, Misformed, Misnamed, named_kind, named_as, named, ReferencesFail, WorkFails};
ghost use Rattle.grammar.specs.Faults.{reference_report, work_report};

use crate::expr::Expr;
use crate::fault::{ReferenceFault, WorkFault};
use crate::part::Part;
use crate::row::{expressions_of, labels_of, part_at, rules_of, sets_of};
use crate::word::{a_of, b_of, expression_of};
use crate::words::check_words;

/// A row of words that passes questions 1 to 4: each word is formed as its part, and what it names is there.
#[derive(Clone, Copy)]
pub(crate) struct WholeRow<'a> {
    pub(crate) words: &'a [u32],
    ghost counted: { Counted words.now },
    ghost headed: { Headed words.now },
    ghost formed: { Never (Misformed words.now) },
    ghost named: { Never (Misnamed words.now) },
}

/// Whether all that an expression names is there, and its operands are lower than its number.
fn expression_named(words: &[u32], number: usize, word: u32) -> bool
    ensures { result ≡ named_kind (meaning words.now) number (kind word) (field_a word) (field_b word) (field_c word) }
{
    match expression_of(word) {
        Expr::Empty | Expr::Terminal { .. } => true,
        Expr::Call { rule } => rule < rules_of(words),
        Expr::Sequence { first, second } => first < number && second < number,
        Expr::Choice { first, second, set } => first < number
            && second < number
            && set < sets_of(words),
        Expr::Repetition { part } | Expr::Predicate { part } => part < number,
        Expr::Throw { label } => 1 <= label && label <= labels_of(words),
    }
}

/// Whether all that a word names is there.
fn word_named(words: &[u32], part: Part, word: u32) -> bool
    ensures { result ≡ named_as (meaning words.now) part word }
{
    match part {
        Part::Header => true,
        Part::Rule => (a_of(word) as usize) < expressions_of(words),
        Part::Label => b_of(word) == 0 || (a_of(word) as usize) < expressions_of(words),
        Part::Set => true,
        Part::Expression { number } => expression_named(words, number, word),
    }
}

/// Asks questions 1 to 4.
fn check_references<'a>(words: &'a [u32]) -> Result<WholeRow<'a>, ReferenceFault>
    ensures { MatchResult result (λ row. row.words.now ≡ words.now) (λ f. ReferencesFail words.now (reference_report f)) }
{
    check_words(words)?;
    for (place, word) in words.iter().enumerate() {
        if !word_named(words, part_at(words, place), *word) {
            return Err(ReferenceFault::Missing { word: place });
        }
    }
    Ok(WholeRow { words })
}

/// Asks questions 1 to 5, with so many work words lent.
pub(crate) fn check_work<'a>(words: &'a [u32], lent: usize) -> Result<WholeRow<'a>, WorkFault>
    ensures { MatchResult result (λ row. (row.words.now ≡ words.now) × (2 * (meaning row.words.now).N ≤ lent)) (λ f. WorkFails words.now lent (work_report f)) }
{
    let row = check_references(words)?;
    if lent < 2 * expressions_of(words) {
        return Err(WorkFault::Short);
    }
    Ok(row)
}
