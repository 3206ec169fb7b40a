//! Elements as a line writes them.
use crate::fields::read_bytes;
use crate::parts::{Stored, StoredText};
use crate::said::Wrong;
use rowtext::row::read_row;
use std::alloc::Global;

/// What an element of a text is written as; its default stands in a buffer's unused places.
pub trait Item: Copy + Default {
    /// The elements that fields write.
    fn read_items(heap: Global, text: &[u8]) -> Result<Vec<Self>, Wrong>;

    /// A text of these elements.
    fn text_of(stored: Stored<Self>) -> StoredText;
}

impl Item for u8 {
    fn read_items(heap: Global, text: &[u8]) -> Result<Vec<u8>, Wrong> {
        read_bytes(heap, text)
    }

    fn text_of(stored: Stored<u8>) -> StoredText {
        StoredText::Bytes(stored)
    }
}

impl Item for u32 {
    fn read_items(heap: Global, text: &[u8]) -> Result<Vec<u32>, Wrong> {
        read_row(heap, text)?.ok_or(Wrong::NotUnderstood)
    }

    fn text_of(stored: Stored<u32>) -> StoredText {
        StoredText::Log(stored)
    }
}
