//! The explicit stack: one record of plain numbers for each open expression.
ghost use Rattle.std.specs.Prelude.{◌≡◌};
ghost use Rattle.engine.specs.Frames.{blank, so_far, going_on};
ghost use Rattle.engine.specs.Machine.{rounds, goes_on_with};

use crate::readings::joined;
use crate::step::{Ask, Move};
use peg::results::{Note, Outcome, Reading, Recoveries};

/// An open expression, with what its finished parts gave. Blank is all zero.
// Lent frames are plain numbers, a form of the project: so `mode`, `stage` and `noted` are no enum, bool or Option, and `count` 0 says that there is no first.
#[derive(Clone, Copy, PartialEq, Eq, Debug, Default)]
pub struct Frame {
    /// The expression's number.
    pub expression: usize,
    /// Where it began.
    pub place: usize,
    /// The mode it is evaluated in: 0 is on.
    pub mode: u8,
    /// Whether a part is finished: 0 is no.
    pub stage: u8,
    /// Where the open part began.
    pub at: usize,
    /// Whether the finished parts have a note: 0 is no.
    pub noted: u8,
    /// The note's place.
    pub note: usize,
    /// The note's marks.
    pub marks: u32,
    /// How many throws the finished parts recovered.
    pub count: u16,
    /// The label of the first.
    pub label: u8,
    /// The place of the first.
    pub first: usize,
    /// How deep the finished parts went.
    pub depth: usize,
    /// How far they reached.
    pub reach: usize,
}

impl Frame {
    /// A blank frame.
    pub fn blank() -> Frame
        ensures { result ≡ blank }
    {
        Frame::default()
    }

    /// What the finished parts came to.
    pub(crate) fn told_so_far(self) -> Reading
        ensures { result ≡ so_far self }
    {
        Reading {
            outcome: Outcome::Match { end: self.at },
            note: (self.noted != 0).then_some(Note {
                place: self.note,
                marks: self.marks,
            }),
            recoveries: Recoveries {
                count: self.count,
                label: self.label,
                place: self.first,
            },
            depth: self.depth,
            reach: self.reach,
        }
    }

    /// The frame with a part finished: its parts came to v, and the next begins at a place.
    fn next(self, at: usize, v: Reading) -> Frame
        ensures { result ≡ going_on self at v }
    {
        let (noted, note, marks) = match v.note {
            None => (0, 0, 0),
            Some(x) => (1, x.place, x.marks),
        };
        Frame {
            stage: 1,
            at,
            noted,
            note,
            marks,
            count: v.recoveries.count,
            label: v.recoveries.label,
            first: v.recoveries.place,
            depth: v.depth,
            reach: v.reach,
            ..self
        }
    }

    /// The frame with a part finished, which goes on with another at a place.
    pub(crate) fn goes_on(self, part: usize, at: usize, v: Reading) -> Move
        ensures { result ≡ goes_on_with self part at v }
    {
        Move::Open {
            frame: self.next(at, v),
            ask: Ask {
                expression: part,
                place: at,
                mode: self.mode.into(),
            },
        }
    }

    /// What the rounds of a repetition so far, with one more, came to.
    pub(crate) fn with_round(self, v: Reading) -> Reading
        ensures { result ≡ rounds self self.stage v }
    {
        if self.stage == 0 {
            v
        } else {
            joined(self.told_so_far(), v)
        }
    }
}
