//! A text cut at a separator: lines at byte 10, words at the space.
ghost use Rattle.std.specs.Prelude.{◌≡◌, ℕ, ◌<◌, ◌≤◌, [], ◌∷◌, length, MatchOption, ◌≢◌, slice_index};
ghost use Rattle.std.specs.Option.{option_map};
ghost use Rattle.rowtext.specs.Pieces.{pieces, cut};

/// How many bytes stand before the first separator; all of them, where there is none.
// A number and no Option: both ways the first piece is what stands before it.
fn before(text: &[u8], separator: u8) -> usize
    ensures within { result ≤ length text.now }
    ensures apart { (k : ℕ) → k < result → slice_index text.now k ≢ separator }
    ensures found { result < length text.now → slice_index text.now result ≡ separator }
{
    text.iter()
        .position(|byte| *byte == separator)
        .unwrap_or(text.len())
}

/// The first piece of a text, and what follows its separator; none, where the text is empty.
pub fn next_piece(text: &[u8], separator: u8) -> Option<(&[u8], &[u8])>
    ensures parts { option_map (λ p. (p.0.now, p.1.now)) result ≡ cut separator text.now }
    ensures cuts { MatchOption result (pieces separator text.now ≡ []) (λ p. pieces separator text.now ≡ p.0.now ∷ pieces separator p.1.now) }
    ensures falls { MatchOption result (length text.now ≡ 0) (λ p. length p.1.now < length text.now) }
{
    if text.is_empty() {
        return None;
    }
    let end = before(text, separator);
    if end == text.len() {
        return Some((text, &text[end..]));
    }
    Some((&text[0..end], &text[end + 1..]))
}
