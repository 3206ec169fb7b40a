//! The line that a case prints.
use grammar::fault::Place;
use reading::reply::Reply;
use replytext::Shown;
use std::fmt;

/// What was read over the two memories.
#[derive(Clone, Copy)]
pub struct Read {
    pub whole: Reply,
    pub ring: Reply,
}

/// What a case gives: what was read, or where its grammar has a fault.
#[derive(Clone, Copy)]
pub struct Line(pub Result<Read, Place>);

impl fmt::Display for Read {
    fn fmt<W: fmt::Write>(&self, f: &mut fmt::Formatter<W>) -> fmt::Result {
        Shown(self.whole).fmt(f)?;
        if self.whole.result != self.ring.result {
            write!(f, " ring differs: {}", Shown(self.ring.result))?;
        }
        Ok(())
    }
}

impl fmt::Display for Line {
    fn fmt<W: fmt::Write>(&self, f: &mut fmt::Formatter<W>) -> fmt::Result {
        match self.0 {
            Ok(read) => read.fmt(f),
            Err(place) => place.fmt(f),
        }
    }
}
