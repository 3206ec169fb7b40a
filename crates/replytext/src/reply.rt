//! A reply as text: what was read, and how many rows it took.
ghost use Rattle.std.specs.Prelude.{Some};
ghost use Rattle.replytext.specs.Replies.{outcome_text, note_text, recoveries_text, answer_text, result_text, reply_text};

use crate::Shown;
use crate::marks::Marks;
use peg::results::{Note, Outcome, Recoveries};
use reading::refusal::Refusal;
use reading::reply::{Answer, Reply};
use std::fmt;

impl fmt::Display for Shown<Outcome> {
    ghost output = { λ o. Some (outcome_text o.0) };

    fn fmt<W: fmt::Write>(&self, f: &mut fmt::Formatter<W>) -> fmt::Result {
        let Shown(outcome) = *self;
        match outcome {
            Outcome::Match { end } => write!(f, "match {end}"),
            Outcome::Failure { label, place } => write!(f, "fail {label} {place}"),
        }
    }
}

impl fmt::Display for Shown<Option<Note>> {
    ghost output = { λ x. Some (note_text x.0) };

    fn fmt<W: fmt::Write>(&self, f: &mut fmt::Formatter<W>) -> fmt::Result {
        let Shown(note) = *self;
        match note {
            None => write!(f, "far none marks 00000000"),
            Some(Note { place, marks }) => {
                let marks = Marks(marks);
                write!(f, "far {place} marks {marks}")
            }
        }
    }
}

impl fmt::Display for Shown<Recoveries> {
    ghost output = { λ r. Some (recoveries_text r.0) };

    fn fmt<W: fmt::Write>(&self, f: &mut fmt::Formatter<W>) -> fmt::Result {
        let Shown(
            Recoveries {
                count,
                label,
                place,
            },
        ) = *self;
        write!(f, "recovered {count} first {label} at {place}")
    }
}

impl fmt::Display for Shown<Answer> {
    ghost output = { λ a. Some (answer_text a.0) };

    fn fmt<W: fmt::Write>(&self, f: &mut fmt::Formatter<W>) -> fmt::Result {
        let Shown(answer) = *self;
        let outcome = Shown(answer.outcome);
        let note = Shown(answer.note);
        let recoveries = Shown(answer.recoveries);
        write!(f, "{outcome} {note} {recoveries}")
    }
}

impl fmt::Display for Shown<Result<Answer, Refusal>> {
    ghost output = { λ r. Some (result_text r.0) };

    fn fmt<W: fmt::Write>(&self, f: &mut fmt::Formatter<W>) -> fmt::Result {
        let Shown(result) = *self;
        match result {
            Ok(answer) => Shown(answer).fmt(f),
            Err(refusal) => Shown(refusal).fmt(f),
        }
    }
}

impl fmt::Display for Shown<Reply> {
    ghost output = { λ q. Some (reply_text q.0) };

    fn fmt<W: fmt::Write>(&self, f: &mut fmt::Formatter<W>) -> fmt::Result {
        let Shown(Reply { result, fresh }) = *self;
        write!(f, "{} fresh {fresh}", Shown(result))
    }
}
