//! A case: the words of a grammar, the elements of a text, and a number of frames, as a line has them.
use anyhow::Context;
use std::alloc::Global;
use std::num::ParseIntError;

/// The elements of a text.
#[derive(Drop)]
pub enum Elements {
    Bytes(Vec<u8>),
    Log(Vec<u32>),
}

/// One case.
#[derive(Drop)]
pub struct Case {
    pub words: Vec<u32>,
    pub elements: Elements,
    pub frames: usize,
}

/// Numbers, as a text has them between spaces.
fn numbers_of<T: Drop, F: Fn(&str) -> Result<T, ParseIntError>>(
    heap: Global,
    text: &str,
    number: F,
) -> anyhow::Result<Vec<T>>
    requires { F.IsAlwaysCallable number }
{
    text.split_whitespace()
        .map(|piece| -> anyhow::Result<T> { Ok(number(piece)?) })
        .try_collect(heap)
}

/// Words in hexadecimal.
// Not rowtext's `read_row`: a case that is malformed ends the program with an error, where that gives none.
fn words_of(heap: Global, text: &str) -> anyhow::Result<Vec<u32>> {
    numbers_of(heap, text, |word| u32::from_str_radix(word, 16))
}

/// Bytes in hexadecimal.
fn bytes_of(heap: Global, text: &str) -> anyhow::Result<Vec<u8>> {
    numbers_of(heap, text, |byte| u8::from_str_radix(byte, 16))
}

/// The words of a log, or bytes.
fn elements_of(heap: Global, text: &str) -> anyhow::Result<Elements> {
    match text.trim().strip_prefix("log") {
        Some(log) => Ok(Elements::Log(words_of(heap, log)?)),
        None => Ok(Elements::Bytes(bytes_of(heap, text)?)),
    }
}

/// The case of a line `WORD.. | TEXT | FRAMES`.
pub fn case_of(heap: Global, line: &str) -> anyhow::Result<Case> {
    let (words, rest) = line.split_once('|').context("no text")?;
    let (text, frames) = rest.split_once('|').context("no frames")?;
    Ok(Case {
        words: words_of(heap, words)?,
        elements: elements_of(heap, text)?,
        frames: frames.trim().parse::<usize>()?,
    })
}
