//! A key: a change of a bench's text, and the settle after it.
use crate::fields::next_number;
use crate::item::Item;
use crate::said::{Said, Wrong};
use bench::calls::{change, settle};
use bench::state::Settled;
use grammar::accepted::Grammar;
use memo::memory::Memory;
use std::alloc::Global;
use text::{Buffer, FixedBytes, Symbol, Text};

/// A text on a bench, and what a key does to it.
pub trait Keyed: Text {
    /// Changes the text by the fields of a key and settles the change; the bench stays settled either way.
    fn key<M: Memory>(
        &mut self,
        heap: Global,
        state: Settled,
        grammar: &Grammar<'_>,
        memory: &mut M,
        fields: &[u8],
    ) -> (Settled, Result<Said, Wrong>);
}

/// A place, a count and elements.
#[derive(Drop)]
struct Key<E> {
    p: usize,
    k: usize,
    items: Vec<E>,
}

fn read_key<E: Item>(heap: Global, fields: &[u8]) -> Result<Key<E>, Wrong> {
    let (p, rest) = next_number(fields)?;
    let (k, rest) = next_number(rest)?;
    let items = E::read_items(heap, rest)?;
    Ok(Key { p, k, items })
}

impl<E: Symbol + Item> Keyed for Buffer<'_, E> {
    fn key<M: Memory>(
        &mut self,
        heap: Global,
        state: Settled,
        grammar: &Grammar<'_>,
        memory: &mut M,
        fields: &[u8],
    ) -> (Settled, Result<Said, Wrong>) {
        let Key { p, k, items } = match read_key::<E>(heap, fields) {
            Ok(key) => key,
            // by hand: the state goes back beside the error
            Err(wrong) => return (state, Err(wrong)),
        };
        match change(state, grammar, self, memory, p, k, items.as_slice()) {
            Ok(slip) => {
                let state = settle(slip, grammar, self, memory);
                (state, Ok(Said::Changed(self.size())))
            }
            Err((state, refusal)) => (state, Err(refusal.into())),
        }
    }
}

impl Keyed for FixedBytes<'_> {
    fn key<M: Memory>(
        &mut self,
        _heap: Global,
        state: Settled,
        _grammar: &Grammar<'_>,
        _memory: &mut M,
        _fields: &[u8],
    ) -> (Settled, Result<Said, Wrong>) {
        (state, Err(Wrong::ReadOnly))
    }
}
