//! The account of a whole input: an answer to each line, and the sum of them.
ghost use Rattle.std.specs.Prelude.{IfOk, string_bytes};
ghost use Rattle.rowtext.specs.Exact.{Exactly};
ghost use Rattle.rowtext.specs.Accounts.{Accounted};

use crate::answer::Answer;
use crate::pieces::next_piece;
use std::alloc::{AllocError, Global};

/// Answers each line of an input, in order, and says at the end how many rows there were and how many were accepted.
pub fn account(heap: Global, input: &[u8]) -> Result<String, AllocError>
    ensures { IfOk result (λ text. Exactly (string_bytes text) (Accounted input.now)) }
{
    let mut text = String::new(heap);
    let mut lines = 0usize;
    let mut rows = 0usize;
    let mut accepted = 0usize;
    let mut rest = input;
    // no iterator of its own, and so no `enumerate`: it would have to say again what the clauses of next_piece say of each piece
    while let Some((line, after)) = next_piece(rest, b'\n') {
        rest = after;
        lines += 1;
        let answer = Answer::for_line(heap, line)?;
        rows += usize::from(answer.is_row());
        accepted += usize::from(answer.is_accepted());
        text.push_str(answer.to_text(heap, lines)?.as_str())?;
    }
    text.push_str(format!(in heap; "rows {rows} accepted {accepted}\n")?.as_str())?;
    Ok(text)
}
