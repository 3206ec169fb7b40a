//! Replies and refusals as text: what a display shows of them.
#![tactic(auto)]

pub mod marks;
pub mod refusal;
pub mod reply;

/// Something to be shown; the types shown are of other crates.
#[derive(Clone, Copy)]
pub struct Shown<T>(pub T);
