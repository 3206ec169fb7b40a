//! Expected marks in hexadecimal.
ghost use Rattle.std.specs.Prelude.{Some};
ghost use Rattle.replytext.specs.Marks.{marks_text};

use std::fmt;

/// A set of marks, shown as 8 hexadecimal digits.
#[derive(Clone, Copy)]
pub struct Marks(pub u32);

impl fmt::Display for Marks {
    ghost output = { λ m. Some (marks_text m.0) };

    fn fmt<W: fmt::Write>(&self, f: &mut fmt::Formatter<W>) -> fmt::Result {
        let Marks(marks) = *self;
        write!(f, "{marks:08X}")
    }
}
