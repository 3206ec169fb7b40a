//! Evaluation with a memory and an explicit stack: one text of code for every element kind and every memory.
#![tactic(auto)]

mod enter;
mod find;
pub mod frame;
mod guard;
pub mod read;
mod readings;
mod resume;
mod run;
mod scene;
mod step;
