//! Whichever way a reading ends, the lent frames are blank again.
ghost use Rattle.std.specs.Prelude.{◌≡◌};
ghost use Rattle.engine.specs.Frames.{blanked};

use crate::frame::Frame;

/// Holds the lent frames, and blanks them at its end.
pub(crate) struct Guard<'a> {
    pub(crate) frames: &'a mut [Frame],
}

// by hand: its end blanks the frames
impl Drop for Guard<'_> {
    fn drop(self)
        ensures { self.exit.0.now ≡ blanked self.entry.frames.now }
    {
        self.frames.fill(Frame::blank());
        let Guard { frames: _ } = self;
    }
}
