//! A case tried: the check of its grammar, and a reading over each of the two memories, emptied.
use crate::case::{Case, Elements, case_of};
use crate::shown::{Line, Read};
use anyhow::Context;
use engine::frame::Frame;
use engine::read::read;
use grammar::accepted::{Grammar, MOST_WORK, check};
use memo::memory::Memory;
use memo::ring::state::Ring;
use memo::whole::WholeMemory;
use reading::reply::Reply;
use std::alloc::Global;
use text::{EventLog, FixedBytes, Text};

/// A reading over a whole memory that covers the text's capacity and the grammar's rules, and holds no row.
fn over_whole<T: Text>(
    heap: Global,
    grammar: &Grammar<'_>,
    text: &T,
    frames: &mut [Frame],
) -> anyhow::Result<Reply> {
    let places = text.capacity() + 1;
    let count = grammar
        .rules()
        .checked_mul(16 * places)
        .context("too many words")?;
    let mut words = vec![in heap; 0u32; count]?;
    let (mut memory, made) = WholeMemory::new(&mut words, places, grammar.rules());
    made.ok().context("no memory of this size")?;
    Ok(read(grammar, text, &mut memory, frames))
}

/// A reading over a ring that holds no row.
fn over_ring<T: Text>(grammar: &Grammar<'_>, text: &T, frames: &mut [Frame]) -> Reply {
    let mut ring = Ring::new();
    read(grammar, text, &mut ring, frames)
}

/// Readings over both memories.
fn over_both<T: Text>(
    heap: Global,
    grammar: &Grammar<'_>,
    text: &T,
    count: usize,
) -> anyhow::Result<Read> {
    let mut frames = vec![in heap; Frame::blank(); count]?;
    let whole = over_whole(heap, grammar, text, &mut frames)?;
    let ring = over_ring(grammar, text, &mut frames);
    Ok(Read { whole, ring })
}

/// What is read of the elements.
fn read_elements(
    heap: Global,
    grammar: &Grammar<'_>,
    elements: Elements,
    frames: usize,
) -> anyhow::Result<Read> {
    match elements {
        Elements::Bytes(bytes) => {
            let (text, made) = FixedBytes::new(&bytes, bytes.len());
            made.ok().context("no text of this size")?;
            over_both(heap, grammar, &text, frames)
        }
        Elements::Log(mut log) => {
            let count = log.len();
            let (text, made) = EventLog::new(&mut log, count);
            made.ok().context("no log of this size")?;
            over_both(heap, grammar, &text, frames)
        }
    }
}

/// What a line's case gives.
pub fn answer(heap: Global, line: &str) -> anyhow::Result<Line> {
    let Case {
        words,
        elements,
        frames,
    } = case_of(heap, line)?;
    let mut work = vec![in heap; 0u32; MOST_WORK]?;
    let read = match check(&words, &mut work) {
        Ok(grammar) => Ok(read_elements(heap, &grammar, elements, frames)?),
        Err(fault) => Err(fault.place()),
    };
    Ok(Line(read))
}
