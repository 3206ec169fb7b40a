//! The rules: what an expression of a grammar gives at a place of a text, and the theorems that everything rests on.
//!
//! Each function below is a theorem: its contract is the statement, and it does nothing.
#![tactic(auto)]

ghost use Rattle.peg.specs.Rules.{AtMostOne, Calls};
ghost use Rattle.peg.specs.Halting.{Frames};
ghost use Rattle.peg.specs.Moves.{Local};
ghost use Rattle.peg.specs.Summaries.{Summaries};
ghost use Rattle.peg.specs.Readings.{Readings};
ghost use Rattle.peg.specs.Rows.{Rows};
ghost use Rattle.peg.specs.Edits.{Edits};
ghost use Rattle.peg.specs.Totality.{Total};
ghost use Rattle.peg.specs.Fitting.{Fitting};
ghost use Rattle.peg.specs.Completing.{Completes, CompletesAmong};
ghost use Rattle.peg.specs.Counting.{Counting};
ghost use Rattle.peg.specs.Known.{Learns};
ghost use Rattle.peg.specs.Settling.{Settling};
ghost use Rattle.peg.specs.Evaluation.{Evaluation};
ghost use Rattle.peg.specs.Worked.{Worked};

pub mod results;

/// An expression, and a rule, give at most one thing at a place in a mode.
pub fn at_most_one_result()
    ensures { AtMostOne }
{}

/// A call gives what the rule gives, one deeper, and nothing else.
pub fn calls_give_what_rules_give()
    ensures { Calls }
{}

/// An evaluation within its frames does not halt; a deeper one halts, in one way, when a first part of its rule-places is completed.
pub fn frames_or_halt()
    ensures { Frames }
{}

/// What is given rests only on the elements below its reach, and moves with them.
pub fn rests_on_its_reach()
    ensures { Local }
{}

/// A reader may add and move summaries of recoveries in place of the lists.
pub fn summaries_add_and_move()
    ensures { Summaries }
{}

/// What is told of a whole is read from what is told of its parts, put together as they come.
pub fn readings_need_no_lists()
    ensures { Readings }
{}

/// A row told from its place is what the rule gives there, and it is the row wherever its elements are found again.
pub fn rows_tell_what_is_given()
    ensures { Rows }
{}

/// What was given before an edit, with its reach, stands; what was given behind it moves along; rows too.
pub fn edits_keep_and_move<E>()
    ensures { Edits E }
{}

/// A well-formed grammar, and so every accepted row, gives exactly one result everywhere, at most 2 × N × (n + 1) deep; with k frames, such a result or the halt.
pub fn exactly_one_result<E>()
    ensures { Total E }
{}

/// What is given has places of the text, labels of the grammar and 32 marks, and matches nothing only where that may be; so it is for every accepted row.
pub fn results_fit_the_text()
    ensures { Fitting }
{}

/// What an evaluation completed was completed at no smaller place, with no greater reach, with all inside it, and never inside itself.
pub fn completes_what_is_inside()
    ensures { Completes }
{}

/// All that is completed are rule-places of the grammar's rules and the text's places; so it is for every accepted row.
pub fn completes_rule_places_of_the_text()
    ensures { CompletesAmong }
{}

/// The fresh count is the number of rule-places completed and not known before, and at most 2 × R × (n + 1).
pub fn fresh_rule_places_are_counted()
    ensures { Counting }
{}

/// After a parse, with a result or halted, what is known is derived and closed; what is known brings nothing fresh.
pub fn known_rule_places_stay_closed()
    ensures { Learns }
{}

/// Known rule-places that an edit keeps or moves are derived and closed over the new text.
pub fn edits_settle_what_is_known<E>()
    ensures { Settling E }
{}

/// The rules as a function answer just what the rules say, both ways; so it is for every accepted row.
pub fn evaluation_is_the_rules()
    ensures { Evaluation }
{}

/// The worked runs of the grammar of site files, and what the check reports of the worked rows of words.
pub fn worked_runs()
    ensures { Worked }
{}
