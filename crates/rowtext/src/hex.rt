//! Words in hexadecimal.
ghost use Rattle.std.specs.Prelude.{◌≡◌};
ghost use Rattle.rowtext.specs.Hex.{word};

/// The most digits that a word has.
const MOST_DIGITS: usize = 8;

/// The word that 1 to 8 hexadecimal digits write, in either case; none, where the text is not that.
pub fn read_word(text: &[u8]) -> Option<u32>
    ensures { result ≡ word text.now }
{
    if text.is_empty() || text.len() > MOST_DIGITS {
        return None;
    }
    let mut word = 0;
    // no `from_str_radix`: it also reads a sign, and asks first that the bytes are UTF-8
    for byte in text {
        word = word * 16 + char::from(*byte).to_digit(16)?;
    }
    Some(word)
}
