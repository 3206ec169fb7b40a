//! Memories: what rules gave at places, kept from parse to parse, and forgotten where an edit touches it.
#![tactic(auto)]

mod cells;
mod change;
mod entries;
pub mod memory;
pub mod ring;
pub mod row;
mod slots;
#[cfg(test)]
mod tests;
pub mod whole;
