//! The settled state, and the slip that stands for it between a change and its settle.
ghost use Rattle.bench.specs.Slips.{Spent};

/// The place that marks a slip as spent: no text has it.
// A number, since a slip is a record of just p, k and m.
pub(crate) const SPENT: usize = 65_536;

/// A bench is settled: its memory has followed every change of its text.
#[derive(Drop)]
pub struct Settled {
    token: (),
}

impl Settled {
    /// Only the calls of this crate settle a bench.
    pub(crate) fn new() -> Settled {
        Settled { token: () }
    }
}

/// A change that the memory has not followed yet: k elements at p became m. It cannot end before it is spent.
pub struct Slip {
    pub(crate) p: usize,
    pub(crate) k: usize,
    pub(crate) m: usize,
}

// by hand: its end asks that it is spent
impl Drop for Slip {
    fn drop(self)
        requires { Spent self }
    {
        let Slip { p: _, k: _, m: _ } = self;
    }
}
