//! A row that was found: what it tells from its place, and whether it may stand for the evaluation.
ghost use Rattle.std.specs.Prelude.{◌≡◌, ℕ, ◌+◌, ◌^◌, ◌<◌, not, ◌&&◌, ◌||◌};
ghost use Rattle.grammar.specs.Words.{meaning};
ghost use Rattle.grammar.specs.Questions.{Tells};
ghost use Rattle.memo.specs.Rows.{outcome_from, note_from, recoveries_from, told_from};
ghost use Rattle.reading.specs.Reads.{Setting, Fits};
ghost use Rattle.engine.specs.Finding.{places_fit_lem, is_nothing_lem, outcome_fits, note_fits_lem, Found};

use crate::readings::none_recovered;
use crate::scene::Scene;
use memo::row::Row;
use peg::results::{Note, Outcome, Reading, Recoveries, RulePlace};
use reading::refusal::Refusal;
use text::Text;

/// A row, at the place where it was found.
#[derive(Clone, Copy)]
struct RowAt {
    row: Row,
    place: usize,
    ghost small: { place < 2 ^ 63 },
}

impl RowAt {
    /// Its outcome.
    fn outcome(self) -> Outcome
        ensures { result ≡ outcome_from self.row self.place }
    {
        let far = self.place + self.row.end as usize;
        if self.row.matched {
            Outcome::Match { end: far }
        } else {
            Outcome::Failure {
                label: self.row.label,
                place: far,
            }
        }
    }

    /// Its note.
    fn note(self) -> Option<Note>
        ensures { result ≡ note_from self.row self.place }
    {
        self.row.noted.then_some(Note {
            place: self.place + self.row.note as usize,
            marks: self.row.marks,
        })
    }

    /// Its recoveries: a failure has none.
    fn recoveries(self) -> Recoveries
        ensures { result ≡ recoveries_from self.row self.place }
    {
        if self.row.matched && self.row.recoveries > 0 {
            Recoveries {
                count: self.row.recoveries,
                label: self.row.first_label,
                place: self.place + self.row.first as usize,
            }
        } else {
            none_recovered()
        }
    }

    /// All that it tells.
    fn told(self) -> Reading
        ensures { result ≡ told_from self.row self.place }
    {
        Reading {
            outcome: self.outcome(),
            note: self.note(),
            recoveries: self.recoveries(),
            depth: self.row.depth as usize,
            reach: self.place + self.row.reach as usize,
        }
    }
}

/// Whether an outcome's place lies within the text, and its label is one of the grammar's.
fn outcome_fits(size: usize, labels: usize, outcome: Outcome) -> bool
    ensures { result ≡ outcome_fits size labels outcome }
{
    match outcome {
        Outcome::Match { end } => end <= size,
        Outcome::Failure { label, place } => (label as usize) <= labels && place <= size,
    }
}

/// Whether a note's place lies within the text.
fn note_fits(size: usize, note: Option<Note>) -> bool
    ensures { result ≡ note_fits_lem size note }
{
    note.is_none_or(|x| x.place <= size)
}

/// Whether all places lie within the text, and all labels are the grammar's.
fn places_fit(size: usize, labels: usize, v: Reading) -> bool
    requires { size < 2 ^ 63 }
    ensures { result ≡ places_fit_lem size labels v }
{
    let Recoveries { label, place, .. } = v.recoveries;
    outcome_fits(size, labels, v.outcome)
        && note_fits(size, v.note)
        && place <= size
        && (label as usize) <= labels
        && v.reach <= size + 1
}

/// Whether an outcome is a match of nothing.
fn is_nothing(place: usize, outcome: Outcome) -> bool
    ensures { result ≡ is_nothing_lem place outcome }
{
    matches!(outcome, Outcome::Match { end } if end == place)
}

/// All fits, and a match of nothing only where that may be.
// A function of its own: in one expression with what it is told of, its three ways would each be a goal.
fn all_fits(fits: bool, nothing: bool, may: bool) -> bool
    ensures { result ≡ (fits && (not nothing || may)) }
{
    fits && (!nothing || may)
}

impl<T: Text> Scene<'_, T> {
    /// Whether what a row found tells may stand for the evaluation of its rule-place.
    fn may_stand(&self, at: RulePlace, v: Reading) -> bool
        ensures { (G : Setting) → G.grammar ≡ meaning self.now.grammar.now.words.now → G.size ≡ self.now.size → Tells result (Fits G at.rule at.place at.mode v) }
    {
        let fits = places_fit(self.size, self.grammar.labels(), v);
        let nothing = is_nothing(at.place, v.outcome);
        let may = self.grammar.may_match_nothing(at.rule, at.mode);
        all_fits(fits, nothing, may)
    }

    /// What a row found comes to, where so many frames are left: question 9, then question 10.
    // That the place is small is asked of the place alone; with the row it is a fact of `RowAt`.
    // Inlined, since a parse after a change is mostly rows that are found.
    #[inline(always)]
    pub(crate) fn found(&self, left: usize, at: RulePlace, row: Row) -> Result<Reading, Refusal>
        requires { at.place < 2 ^ 63 }
        ensures { (G : Setting) (h : ℕ) → G.grammar ≡ meaning self.now.grammar.now.words.now → G.size ≡ self.now.size → h + left ≡ G.frames → Found G h at.rule at.place at.mode row result }
    {
        let place = at.place;
        let reading = RowAt { row, place }.told();
        if !self.may_stand(at, reading) {
            return Err(Refusal::Unfit);
        }
        if reading.depth > left {
            return Err(Refusal::TooDeep);
        }
        Ok(reading)
    }
}
