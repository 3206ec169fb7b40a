//! A line of text as a row of words.
ghost use Rattle.std.specs.Prelude.{IfOk, vec_items};
ghost use Rattle.std.specs.Option.{option_map};
ghost use Rattle.rowtext.specs.Rows.{RowOf};

use crate::hex::read_word;
use crate::pieces::next_piece;
use std::alloc::{AllocError, Global};

/// The words of a line, in hexadecimal and apart by spaces; none, where the line is no such row.
pub fn read_row(heap: Global, line: &[u8]) -> Result<Option<Vec<u32>>, AllocError>
    ensures { IfOk result (λ words. RowOf line.now (option_map vec_items words)) }
{
    let mut words = Vec::new(heap);
    let mut rest = line;
    // no iterator of its own: that would have to say again what the clauses of next_piece say of each piece
    while let Some((piece, after)) = next_piece(rest, b' ') {
        rest = after;
        if piece.is_empty() {
            continue;
        }
        let Some(word) = read_word(piece) else {
            return Ok(None);
        };
        words.push(word)?;
    }
    Ok(Some(words))
}
