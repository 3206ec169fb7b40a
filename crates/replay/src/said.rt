//! What is answered to a line.
ghost use Rattle.std.specs.Prelude.{◌≡◌};
ghost use Rattle.hex.specs.declared.error.FromHexError.TheVariants.{OutOfMemory};
ghost use Rattle.replay.specs.declared.said.Wrong.TheVariants.{TooLittleMemory};

use grammar::fault::Place;
use hex::FromHexError;
use memo::whole::Refusal as MemoryRefusal;
use reading::reply::Reply;
use replytext::Shown;
use rowtext::verdict::{Counts, Verdict};
use std::alloc::AllocError;
use std::fmt;
use std::fmt::Display;
use text::{EditRefusal, MakeRefusal};
use thiserror::Error;

/// Why a line does nothing.
#[derive(Clone, Copy, Debug, Error)]
pub enum Wrong {
    #[error("not understood")]
    NotUnderstood,
    #[error("no grammar yet")]
    NoGrammar,
    #[error("no memory yet")]
    NoMemory,
    #[error("no text yet")]
    NoText,
    #[error("no bench is open")]
    NotOpen,
    #[error("this text cannot be changed")]
    ReadOnly,
    #[error("too little memory")]
    TooLittleMemory(#[from(alloc)] AllocError),
    #[error("{0}")]
    Grammar(#[from] Place),
    #[error("{}", Shown(*.0))]
    Memory(#[from] MemoryRefusal),
    #[error("{}", Shown(*.0))]
    Text(#[from] MakeRefusal),
    #[error("{}", Shown(*.0))]
    Change(#[from] EditRefusal),
}

impl Wrong {
    /// Whether it has a number of its own, and so needs not that of its line.
    fn is_refusal(self) -> bool {
        matches!(
            self,
            Wrong::Grammar(_) | Wrong::Memory(_) | Wrong::Text(_) | Wrong::Change(_)
        )
    }
}

impl From<FromHexError> for Wrong {
    ghost from_gives = { λ error wrong. error ≡ OutOfMemory → wrong ≡ TooLittleMemory (record {}) };

    fn from(error: FromHexError) -> Wrong {
        match error {
            FromHexError::OutOfMemory => Wrong::TooLittleMemory(AllocError),
            _ => Wrong::NotUnderstood,
        }
    }
}

/// The answer to a line that does something.
#[derive(Clone, Copy)]
pub enum Said {
    Grammar(Counts),
    Memory { places: usize, rules: usize },
    Text { size: usize, capacity: usize },
    Open,
    Changed(usize),
    Parsed(Reply),
    Cleared,
}

impl fmt::Display for Said {
    fn fmt<W: fmt::Write>(&self, f: &mut fmt::Formatter<W>) -> fmt::Result {
        match *self {
            Said::Grammar(counts) => Verdict(Ok(counts)).fmt(f),
            Said::Memory { places, rules } => write!(f, "memory {places} {rules}"),
            Said::Text { size, capacity } => write!(f, "text {size} of {capacity}"),
            Said::Open => write!(f, "open"),
            Said::Changed(size) => write!(f, "changed {size}"),
            Said::Parsed(reply) => Shown(reply).fmt(f),
            Said::Cleared => write!(f, "cleared"),
        }
    }
}

/// The answer to the line of that number.
#[derive(Clone, Copy)]
pub struct Answer {
    pub line: usize,
    pub said: Result<Said, Wrong>,
}

impl fmt::Display for Answer {
    fn fmt<W: fmt::Write>(&self, f: &mut fmt::Formatter<W>) -> fmt::Result {
        match self.said {
            Ok(said) => said.fmt(f),
            Err(wrong) if wrong.is_refusal() => wrong.fmt(f),
            Err(wrong) => write!(f, "line {}: {wrong}", self.line),
        }
    }
}
