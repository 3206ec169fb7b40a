//! What the check says of a row of words, and how that is written.
ghost use Rattle.std.specs.Prelude.{◌≡◌, Some};
ghost use Rattle.grammar.specs.Words.{meaning};
ghost use Rattle.rowtext.specs.Exact.{Exactly};
ghost use Rattle.rowtext.specs.Verdicts.{counts_text, verdict_text, numbers, Refuses, Judged, RefusedBy};

use grammar::accepted::{Grammar, MOST_WORK, check};
use grammar::fault::{FormFault, Place};
use std::fmt;

/// How many expressions, rules, labels and sets a grammar has.
#[derive(Clone, Copy, PartialEq, Eq, Debug)]
pub struct Counts {
    pub expressions: usize,
    pub rules: usize,
    pub labels: usize,
    pub sets: usize,
}

impl fmt::Display for Counts {
    ghost output = { λ n. Some (counts_text n) };

    fn fmt<W: fmt::Write>(&self, f: &mut fmt::Formatter<W>) -> fmt::Result {
        write!(
            f,
            "N {} R {} L {} S {}",
            self.expressions, self.rules, self.labels, self.sets
        )
    }
}

/// What the check says of a row: the numbers of the grammar that it is, or the first question that was answered no, and where.
#[derive(Clone, Copy, PartialEq, Eq, Debug)]
pub struct Verdict(pub Result<Counts, Place>);

impl fmt::Display for Verdict {
    ghost output = { λ v. Some (verdict_text v) };

    fn fmt<W: fmt::Write>(&self, f: &mut fmt::Formatter<W>) -> fmt::Result {
        match self.0 {
            Ok(counts) => write!(f, "accepted {counts}"),
            Err(place) => write!(f, "{place}"),
        }
    }
}

impl Verdict {
    /// The verdict on the row of a grammar that was accepted.
    pub fn accepted(grammar: &Grammar) -> Verdict
        ensures { result ≡ numbers (meaning grammar.now.words.now) }
    {
        Verdict(Ok(Counts {
            expressions: grammar.expressions(),
            rules: grammar.rules(),
            labels: grammar.labels(),
            sets: grammar.sets(),
        }))
    }

    /// The verdict on a row with a fault.
    pub fn refused(fault: FormFault) -> Verdict
        ensures { Refuses fault result }
    {
        Verdict(Err(fault.place()))
    }
}

/// Checks a row of words, with work words enough for every grammar.
pub fn judge(words: &[u32]) -> Verdict
    ensures answers { Exactly result (Judged words.now) }
    ensures roomy { RefusedBy 5 result → ⊥ }
{
    let mut work = [0; MOST_WORK];
    match check(words, &mut work) {
        Ok(grammar) => Verdict::accepted(&grammar),
        Err(fault) => Verdict::refused(fault),
    }
}
