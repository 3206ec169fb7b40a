//! The fields of one word, by shift and mask.
ghost use Rattle.std.specs.Prelude.{◌≡◌, ℕ, ◌^◌, ◌<◌, ◌≤◌, MatchOption};
ghost use Rattle.grammar.specs.Words.{kind, field_a, field_b, field_c, bit, expression};
ghost use Rattle.grammar.specs.Kinds.{kinds, kind_number};

use crate::expr::Expr;

/// What a word is, by its bits 31 to 28: one of the eight kinds of expression, or another part of the row.
#[derive(Clone, Copy, PartialEq, Eq, Debug)]
pub(crate) enum Kind {
    Empty,
    Terminal,
    Call,
    Sequence,
    Choice,
    Repetition,
    Predicate,
    Throw,
    Header,
    Rule,
    Label,
    Set,
}

impl Kind {
    /// The kind of a word; none, where its bits are no kind's.
    pub(crate) fn of(word: u32) -> Option<Kind>
        ensures { MatchOption result (kinds ≤ kind word) (λ k. kind word ≡ kind_number k) }
    {
        match word >> 28 {
            0 => Some(Kind::Empty),
            1 => Some(Kind::Terminal),
            2 => Some(Kind::Call),
            3 => Some(Kind::Sequence),
            4 => Some(Kind::Choice),
            5 => Some(Kind::Repetition),
            6 => Some(Kind::Predicate),
            7 => Some(Kind::Throw),
            8 => Some(Kind::Header),
            9 => Some(Kind::Rule),
            10 => Some(Kind::Label),
            11 => Some(Kind::Set),
            _ => None,
        }
    }
}

/// Bits 27 to 18.
// One function a field: a common one would be told shift and mask at each call.
pub(crate) fn a_of(word: u32) -> u32
    ensures { result ≡ field_a word }
{
    (word >> 18) & 0x3ff
}

/// Bits 17 to 8.
pub(crate) fn b_of(word: u32) -> u32
    ensures { result ≡ field_b word }
{
    (word >> 8) & 0x3ff
}

/// Bits 7 to 0.
pub(crate) fn c_of(word: u32) -> u32
    ensures { result ≡ field_c word }
{
    word & 0xff
}

/// Whether a set of labels or marks holds this one.
pub(crate) fn holds(set: u32, member: usize) -> bool
    ensures { result ≡ bit set member }
{
    member < 32 && (set >> member) & 1 == 1
}

/// The expression that a word stands for, whatever its kind.
pub(crate) fn expression_of(word: u32) -> Expr
    ensures { result ≡ expression word }
{
    let a = a_of(word);
    let b = b_of(word);
    let c = c_of(word);
    match Kind::of(word) {
        Some(Kind::Empty) => Expr::Empty,
        Some(Kind::Terminal) => Expr::Terminal { a, b, mark: c },
        Some(Kind::Call) => Expr::Call { rule: a as usize },
        Some(Kind::Sequence) => Expr::Sequence {
            first: a as usize,
            second: b as usize,
        },
        Some(Kind::Choice) => Expr::Choice {
            first: a as usize,
            second: b as usize,
            set: c as usize,
        },
        Some(Kind::Repetition) => Expr::Repetition { part: a as usize },
        Some(Kind::Predicate) => Expr::Predicate { part: a as usize },
        _ => Expr::Throw { label: a as usize },
    }
}
