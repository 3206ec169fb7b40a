//! What an evaluation goes over, and does not change.
ghost use Rattle.std.specs.Prelude.{◌≡◌, ◌≤◌, length};

use grammar::accepted::Grammar;
use text::Text;

/// A grammar, a text with its size, and how many frames are lent.
// The size and the number of frames stand here too: the text is asked once, and the frames themselves are lent for writing elsewhere.
#[derive(Drop)]
pub(crate) struct Scene<'a, T: Text> {
    pub(crate) grammar: &'a Grammar<'a>,
    pub(crate) text: &'a T,
    pub(crate) size: usize,
    pub(crate) frames: usize,
    ghost whole: { size ≡ length (T.elements text.now) },
    ghost small: { size ≤ 65535 },
}
