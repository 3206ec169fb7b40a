//! What a reading replies.
use crate::refusal::Refusal;
use peg::results::{Note, Outcome, Recoveries};

/// What a reading answers.
#[derive(Clone, Copy, PartialEq, Eq, Debug)]
pub struct Answer {
    pub outcome: Outcome,
    /// The farthest failure, with the marks of what was expected there.
    pub note: Option<Note>,
    pub recoveries: Recoveries,
}

/// An answer or a refusal, with the count of rows put; a refusal keeps the rows put before it.
#[derive(Clone, Copy, PartialEq, Eq, Debug)]
pub struct Reply {
    pub result: Result<Answer, Refusal>,
    pub fresh: u32,
}
