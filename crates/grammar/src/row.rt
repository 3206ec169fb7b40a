//! Reads any row of words as a grammar, whether it is one or not.
ghost use Rattle.std.specs.Prelude.{◌≡◌, ℕ, ◌+◌, ◌-◌, ◌^◌, ◌<◌, ◌≤◌, length, slice_index};
ghost use Rattle.grammar.specs.Words.{meaning};
ghost use Rattle.grammar.specs.Form.{recovers_lem};
ghost use Rattle.grammar.specs.Questions.{part_of};

use crate::expr::{Expr, Mode};
use crate::part::Part;
use crate::word::{a_of, b_of, c_of, expression_of, holds};

/// The word at base + offset, and 0 beyond the end.
pub(crate) fn word_at(words: &[u32], base: usize, offset: usize) -> u32
    ensures { result ≡ slice_index words.now (base + offset) }
{
    let word = base.checked_add(offset).and_then(|at| words.get(at));
    word.copied().unwrap_or(0)
}

/// N, the number of expressions.
pub(crate) fn expressions_of(words: &[u32]) -> usize
    ensures value { result ≡ (meaning words.now).N }
    ensures bound { result < 1024 }
{
    a_of(word_at(words, 0, 0)) as usize
}

/// R, the number of rules.
pub(crate) fn rules_of(words: &[u32]) -> usize
    ensures value { result ≡ (meaning words.now).R }
    ensures bound { result < 1024 }
{
    b_of(word_at(words, 0, 0)) as usize
}

/// L, the number of labels.
pub(crate) fn labels_of(words: &[u32]) -> usize
    ensures value { result ≡ (meaning words.now).L }
    ensures bound { result < 256 }
{
    c_of(word_at(words, 0, 0)) as usize
}

/// S, the number of sets: what the row leaves over.
pub(crate) fn sets_of(words: &[u32]) -> usize
    ensures value { result ≡ (meaning words.now).S }
{
    words.len().saturating_sub(1 + rules_of(words) + labels_of(words) + expressions_of(words))
}

/// The body of a rule.
pub(crate) fn body_of(words: &[u32], rule: usize) -> usize
    ensures { result ≡ (meaning words.now).body rule }
{
    a_of(word_at(words, 1, rule)) as usize
}

/// The recovery expression of a label.
pub(crate) fn recovery_of(words: &[u32], label: usize) -> Option<usize>
    ensures { result ≡ (meaning words.now).recovery label }
{
    let word = word_at(words, rules_of(words), label);
    if b_of(word) == 0 {
        None
    } else {
        Some(a_of(word) as usize)
    }
}

/// The recovery expression of a throw, which only mode on has.
pub(crate) fn recovers_in(words: &[u32], label: usize, mode: Mode) -> Option<usize>
    ensures { result ≡ recovers_lem (meaning words.now) label mode }
{
    match mode {
        Mode::On => recovery_of(words, label),
        Mode::Off => None,
    }
}

/// Whether a set holds a label.
pub(crate) fn catches_in(words: &[u32], set: usize, label: usize) -> bool
    ensures { result ≡ (meaning words.now).catches set label }
{
    holds(
        word_at(words, 1 + rules_of(words) + labels_of(words), set),
        label,
    )
}

/// An expression by its number.
pub(crate) fn expr_of(words: &[u32], number: usize) -> Expr
    ensures { result ≡ (meaning words.now).expr number }
{
    let base = words.len().saturating_sub(expressions_of(words));
    expression_of(word_at(words, base, number))
}

/// What the word at a place of the row is.
pub(crate) fn part_at(words: &[u32], place: usize) -> Part
    ensures { result ≡ part_of (meaning words.now) place }
{
    let rules = rules_of(words);
    let labels = rules + labels_of(words);
    let sets = labels.saturating_add(sets_of(words));
    if place == 0 {
        Part::Header
    } else if place <= rules {
        Part::Rule
    } else if place <= labels {
        Part::Label
    } else if place <= sets {
        Part::Set
    } else {
        Part::Expression {
            number: place - 1 - sets,
        }
    }
}
