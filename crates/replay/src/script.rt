//! The lines of a session, in order.
use rowtext::pieces::next_piece;
use std::alloc::{AllocError, Global};
use std::iter::Zip;
use std::ops::Range;
use std::slice::Iter;

/// The lines to come, each with its number; they count from 1.
// half-open numbers: an inclusive range costs more at each line
pub type Script<'a> = Zip<Range<usize>, Iter<'a, &'a [u8]>>;

/// The lines of an input.
pub fn lines_of<'a>(heap: Global, input: &'a [u8]) -> Result<Vec<&'a [u8]>, AllocError> {
    let mut lines = Vec::new(heap);
    let mut rest = input;
    // no iterator over pieces: it would be longer than this loop
    while let Some((line, after)) = next_piece(rest, b'\n') {
        rest = after;
        lines.push(line)?;
    }
    Ok(lines)
}
