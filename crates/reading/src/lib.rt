//! Reading with a memory: what it is, and the theorems that tie it to the rules.
//!
//! Each function below is a theorem: its contract is the statement, and it does nothing.
#![tactic(auto)]

ghost use Rattle.reading.specs.Once.{AtMostOne};
ghost use Rattle.reading.specs.Truth.{TrueReading, MadeProper, Emptied};
ghost use Rattle.reading.specs.Counts.{Counts};
ghost use Rattle.reading.specs.Runs.{Shifted, Steps};

pub mod refusal;
pub mod reply;

/// A reading has at most one answer, count and table, over a memory that forgets nothing, and over any once the dropped rows are given.
pub fn at_most_one_reading()
    ensures { AtMostOne }
{}

/// Over true rows a reading answers what the rules derive, or is too deep exactly if that is; no row is unfit, and all rows stay true.
pub fn true_rows_answer_for_the_rules()
    ensures { TrueReading }
{}

/// An accepted row and the elements of a text make a setting that the theorems here speak of.
pub fn accepted_rows_are_proper<E>()
    ensures { MadeProper E }
{}

/// Over an emptied memory that covers text and rules, with frames enough, the answer is what the rules derive.
pub fn emptied_memory_answers_what_is_derived<E>()
    ensures { Emptied E }
{}

/// The rows put are at least the rule-places completed and not known; over a memory that keeps all, exactly these, each once.
pub fn rows_put_are_the_fresh_ones()
    ensures { Counts }
{}

/// Rows kept or moved by a shift are true over the changed text, and held within what the settle rule keeps; just these over a memory that forgets nothing.
pub fn shifts_keep_rows_true<E>()
    ensures { Shifted E }
{}

/// Over every run, rows are true, held rule-places known, and known ones derived and closed: each parse, shift and empty keeps it so.
pub fn runs_keep_rows_true<E>()
    ensures { Steps E }
{}
