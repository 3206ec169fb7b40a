//! What a line asks for.
use crate::fields::{next_field, no_field, only_number};
use crate::parts::{Laid, lay};
use crate::said::Wrong;
use std::alloc::Global;

/// A call of the bench.
#[derive(Clone, Copy)]
pub enum Call<'a> {
    Open,
    /// A change, by its fields: the text tells how its elements are written.
    Change(&'a [u8]),
    /// A parse with so many frames.
    Parse(usize),
    Clear,
}

/// What a line asks for.
#[derive(Drop)]
pub enum Command<'a> {
    /// A part of a bench.
    Part(Laid),
    Call(Call<'a>),
}

/// A call that takes no fields.
fn alone<'a>(call: Call<'a>, fields: &[u8]) -> Result<Command<'a>, Wrong> {
    no_field(fields)?;
    Ok(Command::Call(call))
}

/// What a command asks for, with its fields.
fn asked<'a>(heap: Global, command: &[u8], fields: &'a [u8]) -> Result<Command<'a>, Wrong> {
    match command {
        b"open" => alone(Call::Open, fields),
        b"clear" => alone(Call::Clear, fields),
        b"change" => Ok(Command::Call(Call::Change(fields))),
        b"parse" => Ok(Command::Call(Call::Parse(only_number(fields)?))),
        _ => Ok(Command::Part(lay(heap, command, fields)?)),
    }
}

/// What the line asks for; nothing, if it is blank or a remark.
// inlined, since a session may be mostly such lines
#[inline(always)]
pub fn read_command(heap: Global, line: &[u8]) -> Result<Option<Command<'_>>, Wrong> {
    if line.starts_with(b"#") {
        return Ok(None);
    }
    let Some((command, fields)) = next_field(line) else {
        return Ok(None);
    };
    Ok(Some(asked(heap, command, fields)?))
}
