//! Rows of words as text: reading them, and writing what the check of a grammar says of them.
#![tactic(auto)]

pub mod account;
pub mod answer;
pub mod hex;
pub mod pieces;
pub mod row;
#[cfg(test)]
mod tests;
pub mod verdict;
