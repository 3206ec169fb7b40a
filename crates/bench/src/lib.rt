//! The bench: a text with a memory and an accepted grammar, and the law over every run of its calls.
#![tactic(auto)]

ghost use Rattle.std.specs.Prelude.{true, false};
ghost use Rattle.bench.specs.Law.{Law};
ghost use Rattle.bench.specs.Tour.{Toured};
ghost use Rattle.bench.specs.Called.{TouredByCalls};

pub mod calls;
pub mod state;
pub mod whole;

/// After every run of the calls, a parse answers what the rules derive for the text as it now stands, and counts what is new.
pub fn law_over_runs<E>()
    ensures { Law E }
{}

/// There are runs with every kind of step, over a memory that forgets nothing and over one that forgets.
pub fn runs_there_are()
    ensures keeping { Toured true }
    ensures forgetting { Toured false }
    ensures keeping_calls { TouredByCalls true }
    ensures forgetting_calls { TouredByCalls false }
{}
