//! What is told of a whole, from what was told of its parts.
ghost use Rattle.std.specs.Prelude.{◌≡◌, ◌+◌, ◌^◌, ◌<◌, Some};
ghost use Rattle.peg.specs.Rules.{join as joinNotes};
ghost use Rattle.peg.specs.Summaries.{added as adds};
ghost use Rattle.peg.specs.Readings.{no_recoveries, matched_only, read_alone, read_deeper, read_sequence, read_other, read_end, read_round, read_predicate, read_recovery};
ghost use Rattle.engine.specs.Machine.{joined as joins, read_unmatched};

use peg::results::{Note, Outcome, Reading, Recoveries};
use std::cmp::Ordering;

/// No recoveries.
// By a name: its clause says which value the default is.
pub(crate) fn none_recovered() -> Recoveries
    ensures { result ≡ no_recoveries }
{
    Recoveries::default()
}

/// An expression that evaluates no parts.
// That the place is small is asked where 1 is added to it; places of the text go through every other function as they are.
pub(crate) fn alone(place: usize, outcome: Outcome, note: Option<Note>) -> Reading
    requires { place < 2 ^ 63 }
    ensures { result ≡ read_alone place outcome note }
{
    Reading {
        outcome,
        note,
        recoveries: none_recovered(),
        depth: 1,
        reach: place + 1,
    }
}

/// The farther of two notes, with the marks of both where they are equally far.
fn farther(x: Note, y: Note) -> Note
    ensures { Some result ≡ joinNotes (Some x) (Some y) }
{
    match x.place.cmp(&y.place) {
        Ordering::Less => y,
        Ordering::Greater => x,
        Ordering::Equal => Note {
            marks: x.marks | y.marks,
            ..x
        },
    }
}

/// Two notes joined.
pub(crate) fn join(a: Option<Note>, b: Option<Note>) -> Option<Note>
    ensures { result ≡ joinNotes a b }
{
    match (a, b) {
        (Some(x), Some(y)) => Some(farther(x, y)),
        (None, note) | (note, None) => note,
    }
}

/// Recoveries added up: the count stops, and the first is the first that there is.
pub(crate) fn added(a: Recoveries, b: Recoveries) -> Recoveries
    ensures { result ≡ adds a b }
{
    if a.count == 0 {
        return b;
    }
    Recoveries {
        count: a.count.saturating_add(b.count),
        ..a
    }
}

/// Failures have no recoveries.
fn if_matched(outcome: Outcome, recoveries: Recoveries) -> Recoveries
    ensures { result ≡ matched_only outcome recoveries }
{
    match outcome {
        Outcome::Match { .. } => recoveries,
        Outcome::Failure { .. } => none_recovered(),
    }
}

/// Two readings, one after the other: the rounds of a repetition so far, and one more.
pub(crate) fn joined(s: Reading, v: Reading) -> Reading
    ensures { result ≡ joins s v }
{
    Reading {
        outcome: v.outcome,
        note: join(s.note, v.note),
        recoveries: added(s.recoveries, v.recoveries),
        depth: s.depth.max(v.depth),
        reach: s.reach.max(v.reach),
    }
}

/// What a part gave, to which the whole can add its level.
#[derive(Clone, Copy)]
pub(crate) struct Part {
    pub(crate) reading: Reading,
    ghost shallow: { reading.depth + 1 < 2 ^ 64 },
}

impl Part {
    /// The whole gives what the part gave.
    pub(crate) fn deeper(self) -> Reading
        ensures { result ≡ read_deeper self.reading }
    {
        Reading {
            depth: self.reading.depth + 1,
            ..self.reading
        }
    }

    /// A sequence, of this part and its second.
    pub(crate) fn sequence(self, second: Part) -> Reading
        ensures { result ≡ read_sequence self.reading second.reading }
    {
        let both = joined(self.reading, second.reading);
        Reading {
            recoveries: if_matched(both.outcome, both.recoveries),
            depth: both.depth + 1,
            ..both
        }
    }

    /// A choice, of this part, which failed, and the other.
    pub(crate) fn other(self, second: Part) -> Reading
        ensures { result ≡ read_other self.reading second.reading }
    {
        let (v, w) = (self.reading, second.reading);
        let both = joined(v, w);
        Reading {
            recoveries: w.recoveries,
            depth: both.depth + 1,
            ..both
        }
    }

    /// A repetition that ends at a place, where its part failed.
    fn ended(self, place: usize) -> Reading
        ensures { result ≡ read_end place self.reading }
    {
        Reading {
            outcome: Outcome::Match { end: place },
            recoveries: none_recovered(),
            ..self.deeper()
        }
    }

    /// A repetition from a place on whose part failed: label 0 ends it there.
    pub(crate) fn unmatched(self, place: usize, label: u8) -> Reading
        ensures { result ≡ read_unmatched place label self.reading }
    {
        if label == 0 {
            self.ended(place)
        } else {
            self.deeper()
        }
    }

    /// A repetition, of its rounds so far and what the rest of it gave.
    pub(crate) fn round(self, rest: Reading) -> Reading
        ensures { result ≡ read_round self.reading rest }
    {
        let both = joined(self.deeper(), rest);
        Reading {
            recoveries: if_matched(both.outcome, both.recoveries),
            ..both
        }
    }

    /// A predicate at a place.
    pub(crate) fn predicate(self, place: usize) -> Reading
        ensures { result ≡ read_predicate place self.reading }
    {
        let v = self.reading;
        let noted = Some(Note { place, marks: 0 });
        let (outcome, note) = match v.outcome {
            Outcome::Match { .. } => (Outcome::Failure { label: 0, place }, noted),
            Outcome::Failure { label: 0, .. } => (Outcome::Match { end: place }, None),
            Outcome::Failure { .. } => (v.outcome, noted),
        };
        Reading {
            outcome,
            note,
            recoveries: none_recovered(),
            ..self.deeper()
        }
    }

    /// A recovered throw of a label at a place, of its recovery expression.
    pub(crate) fn recovery(self, label: u8, place: usize) -> Reading
        ensures { result ≡ read_recovery label place self.reading }
    {
        let v = self.reading;
        let one = Recoveries {
            count: 1,
            label,
            place,
        };
        Reading {
            note: join(Some(Note { place, marks: 0 }), v.note),
            recoveries: if_matched(v.outcome, added(one, v.recoveries)),
            ..self.deeper()
        }
    }
}
