//! What a step of the engine comes to.
use crate::frame::Frame;
use grammar::expr::Mode;
use peg::results::Reading;

/// An expression to be evaluated at a place in a mode.
#[derive(Clone, Copy)]
pub(crate) struct Ask {
    pub(crate) expression: usize,
    pub(crate) place: usize,
    pub(crate) mode: Mode,
}

/// What entering an expression, or resuming a frame, comes to.
#[derive(Clone, Copy)]
pub(crate) enum Move {
    /// The frame is open, and goes on with a part.
    Open { frame: Frame, ask: Ask },
    /// The expression gives this.
    Give { reading: Reading },
}

/// What comes next.
// The loop goes by it in place of recursion: what is open stands in lent frames, a form of the project.
#[derive(Clone, Copy)]
pub(crate) enum Control {
    Evaluate { ask: Ask },
    Return { reading: Reading },
}
