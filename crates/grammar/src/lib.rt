//! Grammars as rows of 32-bit words: their format, their check, and what they mean.
#![tactic(auto)]

pub mod accepted;
pub mod expr;
pub mod fault;
mod form;
mod marks;
mod part;
mod references;
mod row;
pub mod site;
mod word;
mod words;
