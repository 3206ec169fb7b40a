//! The parts that a row of words is made of.

/// What a word of a row is, by its place in the row.
#[derive(Clone, Copy)]
pub(crate) enum Part {
    Header,
    Rule,
    Label,
    Set,
    /// An expression, with its number.
    Expression { number: usize },
}
