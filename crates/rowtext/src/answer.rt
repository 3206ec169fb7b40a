//! What is said of one line.
ghost use Rattle.std.specs.Prelude.{◌≡◌, IfOk, string_bytes, vec_items};
ghost use Rattle.rowtext.specs.Verdicts.{Judged};
ghost use Rattle.rowtext.specs.Exact.{Exactly};
ghost use Rattle.rowtext.specs.Answers.{Answered, is_row, is_accepted_lem, said, as_line};

use crate::row::read_row;
use crate::verdict::{Verdict, judge};
use std::alloc::{AllocError, Global};

/// What the check says of a line; none, where the line is no row of words.
#[derive(Clone, Copy, PartialEq, Eq, Debug)]
pub struct Answer(pub Option<Verdict>);

impl Answer {
    /// Reads a line as a row of words, and checks it.
    pub fn for_line(heap: Global, line: &[u8]) -> Result<Answer, AllocError>
        ensures { IfOk result (λ a. Exactly a (Answered line.now)) }
    {
        let words = read_row(heap, line)?;
        Ok(Answer(words.map(
            |words|
                ensures { Judged (vec_items words) result }
            { judge(words.as_slice()) },
        )))
    }

    /// Whether the line counts as a row.
    pub fn is_row(self) -> bool
        ensures { result ≡ is_row self }
    {
        self.0.is_some()
    }

    /// Whether the line is an accepted row.
    pub fn is_accepted(self) -> bool
        ensures { result ≡ is_accepted_lem self }
    {
        self.0.is_some_and(|verdict| verdict.0.is_ok())
    }

    /// The answer to the line of that number, as a line of text.
    pub fn to_text(self, heap: Global, line: usize) -> Result<String, AllocError>
        ensures { IfOk result (λ text. string_bytes text ≡ as_line (said line self)) }
    {
        match self.0 {
            Some(verdict) => format!(in heap; "{verdict}\n"),
            None => format!(in heap; "line {line}: not a row of words\n"),
        }
    }
}
