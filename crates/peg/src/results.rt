//! What an evaluation comes to, as a reader answers it.
use grammar::expr::Mode;

/// A rule at a place in a mode.
#[derive(Clone, Copy, PartialEq, Eq, Debug, Default)]
pub struct RulePlace {
    pub rule: usize,
    pub place: usize,
    pub mode: Mode,
}

/// A match with its end, or a failure with its label and place.
// No Result: a failure is an answer that choices and predicates look at, and never goes up by `?`.
#[derive(Clone, Copy, PartialEq, Eq, Debug)]
pub enum Outcome {
    Match { end: usize },
    Failure { label: u8, place: usize },
}

/// The farthest failure: its place, and the marks of what was expected there.
#[derive(Clone, Copy, PartialEq, Eq, Debug)]
pub struct Note {
    pub place: usize,
    pub marks: u32,
}

/// How many throws were recovered, but never more than 65,535, and the first one's label and place; all 0 if none was.
// No Option: counts add up, and 0 says that nothing was recovered.
#[derive(Clone, Copy, PartialEq, Eq, Debug, Default)]
pub struct Recoveries {
    pub count: u16,
    pub label: u8,
    pub place: usize,
}

/// All that a reader tells of an evaluation; places are places of the text.
#[derive(Clone, Copy, PartialEq, Eq, Debug)]
pub struct Reading {
    pub outcome: Outcome,
    pub note: Option<Note>,
    pub recoveries: Recoveries,
    pub depth: usize,
    pub reach: usize,
}
