//! The parts of a bench, as a session keeps them: a grammar's words, a memory's words, a text's elements.
ghost use Rattle.std.specs.Prelude.{◌↔◌, IsOk, IsSome};

use crate::fields::{next_field, next_number, no_field, only_number};
use crate::item::Item;
use crate::said::{Said, Wrong};
use memo::memory::Memory;
use memo::ring::state::Ring;
use memo::whole::{Refusal, WholeMemory};
use rowtext::row::read_row;
use rowtext::verdict::judge;
use std::alloc::Global;
use text::{Buffer, FixedBytes, MAX_ELEMENTS};

/// A text that can be changed: its places, and how many of them it uses. A bench is lent them all, those in use and the others.
#[derive(Drop)]
pub struct Stored<E> {
    pub places: Vec<E>,
    pub size: usize,
}

/// A text.
#[derive(Drop)]
pub enum StoredText {
    Bytes(Stored<u8>),
    Log(Stored<u32>),
    Fixed(Vec<u8>),
}

/// A memory; the ring is made when a bench is opened.
// P and Q stand beside the words: these say nothing of them.
#[derive(Drop)]
pub enum StoredMemory {
    Whole {
        words: Vec<u32>,
        places: usize,
        rules: usize,
    },
    Ring,
}

/// A part that was accepted.
#[derive(Drop)]
pub enum Part {
    Grammar(Vec<u32>),
    Memory(StoredMemory),
    Text(StoredText),
}

/// The parts there are.
#[derive(Default, Drop)]
pub struct Parts {
    pub grammar: Option<Vec<u32>>,
    pub memory: Option<StoredMemory>,
    pub text: Option<StoredText>,
}

impl Parts {
    /// Puts a part in the place of the one that was there.
    pub fn accept(&mut self, part: Part) {
        match part {
            Part::Grammar(words) => self.grammar = Some(words),
            Part::Memory(memory) => self.memory = Some(memory),
            Part::Text(text) => self.text = Some(text),
        }
    }

    /// All parts for a bench, or the first that is missing.
    pub fn whole(&mut self) -> Result<Whole<'_>, Wrong>
        ensures { IsOk result ↔ (IsSome self.old.grammar × IsSome self.old.memory × IsSome self.old.text) }
    {
        Ok(Whole {
            grammar: self.grammar.as_ref().ok_or(Wrong::NoGrammar)?.as_slice(),
            memory: self.memory.as_mut().ok_or(Wrong::NoMemory)?,
            text: self.text.as_mut().ok_or(Wrong::NoText)?,
        })
    }
}

/// All parts for a bench.
#[derive(Drop)]
pub struct Whole<'a> {
    pub grammar: &'a [u32],
    pub memory: &'a mut StoredMemory,
    pub text: &'a mut StoredText,
}

/// A part that was accepted, and what is said of it.
#[derive(Drop)]
pub struct Laid {
    pub said: Said,
    pub part: Part,
}

fn lay_grammar(heap: Global, fields: &[u8]) -> Result<Laid, Wrong> {
    let words = read_row(heap, fields)?.ok_or(Wrong::NotUnderstood)?;
    let counts = judge(words.as_slice()).0?;
    Ok(Laid {
        said: Said::Grammar(counts),
        part: Part::Grammar(words),
    })
}

/// With no words lent, the memory's own questions tell whether its sizes are right: then only words are missing.
fn lay_whole(heap: Global, fields: &[u8]) -> Result<Laid, Wrong> {
    let (places, rest) = next_number(fields)?;
    let rules = only_number(rest)?;
    let (_, made) = WholeMemory::new(&mut [], places, rules);
    if let Err(Refusal::Size) = made {
        return Err(Refusal::Size.into());
    }
    let words = vec![in heap; 0u32; places.saturating_mul(rules).saturating_mul(16)]?;
    Ok(Laid {
        said: Said::Memory { places, rules },
        part: Part::Memory(StoredMemory::Whole {
            words,
            places,
            rules,
        }),
    })
}

fn lay_ring(fields: &[u8]) -> Result<Laid, Wrong> {
    no_field(fields)?;
    let ring = Ring::new();
    Ok(Laid {
        said: Said::Memory {
            places: ring.places(),
            rules: ring.rules(),
        },
        part: Part::Memory(StoredMemory::Ring),
    })
}

fn lay_memory(heap: Global, fields: &[u8]) -> Result<Laid, Wrong> {
    match next_field(fields) {
        Some((b"whole", rest)) => lay_whole(heap, rest),
        Some((b"ring", rest)) => lay_ring(rest),
        _ => Err(Wrong::NotUnderstood),
    }
}

/// A buffer beyond the most elements is refused whatever its size, so one place beyond is enough to ask.
fn lay_buffer<E: Item>(heap: Global, fields: &[u8]) -> Result<Laid, Wrong> {
    let (capacity, rest) = next_number(fields)?;
    let mut places = E::read_items(heap, rest)?;
    let size = places.len();
    places.resize(capacity.min(MAX_ELEMENTS + 1), E::default())?;
    let (_, made) = Buffer::new(&mut places, size);
    made?;
    Ok(Laid {
        said: Said::Text { size, capacity },
        part: Part::Text(E::text_of(Stored { places, size })),
    })
}

fn lay_fixed(heap: Global, fields: &[u8]) -> Result<Laid, Wrong> {
    let bytes = u8::read_items(heap, fields)?;
    let size = bytes.len();
    let (_, made) = FixedBytes::new(bytes.as_slice(), size);
    made?;
    Ok(Laid {
        said: Said::Text {
            size,
            capacity: size,
        },
        part: Part::Text(StoredText::Fixed(bytes)),
    })
}

/// Lays out a part by its command.
pub fn lay(heap: Global, command: &[u8], fields: &[u8]) -> Result<Laid, Wrong> {
    match command {
        b"grammar" => lay_grammar(heap, fields),
        b"memory" => lay_memory(heap, fields),
        b"bytes" => lay_buffer::<u8>(heap, fields),
        b"log" => lay_buffer::<u32>(heap, fields),
        b"fixed" => lay_fixed(heap, fields),
        _ => Err(Wrong::NotUnderstood),
    }
}
