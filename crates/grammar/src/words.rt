//! The check's first layer: each word by itself.
ghost use Rattle.std.specs.Prelude.{◌≡◌, ℕ, ◌<◌, ◌≤◌, length, MatchResult};
ghost use Rattle.grammar.specs.Words.{kind, field_a, field_b, field_c, meaning};
ghost use Rattle.grammar.specs.Questions.{Headed, Tells, formed_kind, formed_label, formed_as, formed, WordsPass, WordsFail};
ghost use Rattle.grammar.specs.Faults.{word_report};

use crate::fault::WordFault;
use crate::part::Part;
use crate::row::{expressions_of, labels_of, part_at, rules_of};
use crate::word::{Kind, a_of, b_of, c_of};

pub const FEWEST_WORDS: usize = 3;

pub const MOST_WORDS: usize = 1156;

pub const MOST_EXPRESSIONS: usize = 1000;

pub const MOST_RULES: usize = 64;

pub const MOST_LABELS: usize = 27;

pub const MOST_SETS: usize = 64;

pub const HIGHEST_MARK: u32 = 31;

/// Whether the first word is a header whose numbers leave a right number of sets.
fn is_headed(words: &[u32]) -> bool
    requires { 0 < length words.now }
    ensures { Tells result (Headed words.now) }
{
    let n = expressions_of(words);
    let r = rules_of(words);
    let l = labels_of(words);
    let least = 1 + r + l + n;
    Kind::of(words[0]) == Some(Kind::Header)
        && (1..=MOST_EXPRESSIONS).contains(&n)
        && (1..=MOST_RULES).contains(&r)
        && l <= MOST_LABELS
        && (least..=least + MOST_SETS).contains(&words.len())
}

/// Whether an expression's fields without a meaning are zero, and its mark in range.
fn expression_formed(word: u32) -> bool
    ensures { result ≡ formed_kind (kind word) (field_a word) (field_b word) (field_c word) }
{
    let a = a_of(word);
    let b = b_of(word);
    let c = c_of(word);
    match Kind::of(word) {
        Some(Kind::Empty) => a == 0 && b == 0 && c == 0,
        Some(Kind::Terminal) => c <= HIGHEST_MARK,
        Some(Kind::Sequence) => c == 0,
        Some(Kind::Choice) => true,
        Some(Kind::Call | Kind::Repetition | Kind::Predicate | Kind::Throw) => b == 0 && c == 0,
        _ => false,
    }
}

/// Whether a label word's b and a agree.
fn label_formed(word: u32) -> bool
    ensures { result ≡ formed_label (field_b word) (field_a word) }
{
    match b_of(word) {
        0 => a_of(word) == 0,
        1 => true,
        _ => false,
    }
}

/// Whether a word has its part's kind, zeros and ranges, among so many labels.
fn word_formed(part: Part, labels: usize, word: u32) -> bool
    requires { labels ≤ 27 }
    ensures { result ≡ formed_as part labels word }
{
    match part {
        Part::Header => true,
        Part::Rule => Kind::of(word) == Some(Kind::Rule) && b_of(word) == 0 && c_of(word) == 0,
        Part::Label => Kind::of(word) == Some(Kind::Label) && c_of(word) == 0 && label_formed(word),
        Part::Set => Kind::of(word) == Some(Kind::Set)
            && (word & 0x0fff_ffff) < (1 << (labels + 1)),
        Part::Expression { number: _ } => expression_formed(word),
    }
}

/// Asks questions 1 to 3.
pub(crate) fn check_words(words: &[u32]) -> Result<(), WordFault>
    ensures { MatchResult result (λ _. WordsPass words.now) (λ f. WordsFail words.now (word_report f)) }
{
    if !(FEWEST_WORDS..=MOST_WORDS).contains(&words.len()) {
        return Err(WordFault::Count);
    }
    if !is_headed(words) {
        return Err(WordFault::Header);
    }
    let labels = labels_of(words);
    for (place, word) in words.iter().enumerate() {
        if !word_formed(part_at(words, place), labels, *word) {
            return Err(WordFault::Word { word: place });
        }
    }
    Ok(())
}
