//! Site files: their grammar, and the line that a display shows of one.
#![tactic(auto)]

ghost use Rattle.std.specs.Prelude.{◌≡◌, ◌≤◌, length, take, IfOk, string_bytes};
ghost use Rattle.text.specs.Buffers.{buffer_room, buffer_text};
ghost use Rattle.peg.specs.Worked.{site_words};
ghost use Rattle.sitefile.specs.Lines.{most_bytes, Shows, SoleReply};

use bench::calls::open;
use bench::whole::parse_whole;
use engine::frame::Frame;
use grammar::accepted::{Grammar, check};
use grammar::site::SITE;
use memo::whole::WholeMemory;
use reading::reply::Reply;
use replytext::Shown;
use std::alloc::{AllocError, Global};
use text::ByteBuffer;

#[cfg(test)]
mod tests;

/// The bytes that a site file may have.
const ROOM: usize = 200;

/// The frames that a parse is lent.
const FRAMES: usize = 64;

/// The grammar of site files, accepted.
fn site_grammar() -> Grammar<'static>
    ensures { result.words.now ≡ site_words }
{
    check(&SITE, &mut [0; 34]).unwrap()
}

/// Parses a site file on a bench of its own.
fn reply_to(text: &ByteBuffer<'_>) -> Reply
    ensures { buffer_room text.now ≡ most_bytes → SoleReply (buffer_text text.now) result }
{
    let grammar = site_grammar();
    let mut words = [0; 16 * (ROOM + 1) * 3];
    let (mut memory, _) = WholeMemory::new(&mut words, ROOM + 1, 3);
    let state = open(&grammar, text, &mut memory);
    parse_whole(
        &state,
        &grammar,
        text,
        &mut memory,
        &mut [Frame::blank(); FRAMES],
    )
}

/// Puts bytes into a buffer, as many as it takes.
fn fill(buffer: &mut [u8], bytes: &[u8])
    ensures length { length buffer.new ≡ length buffer.old }
    ensures filled { length bytes.now ≤ length buffer.old → take (length bytes.now) buffer.new ≡ bytes.now }
{
    let n = bytes.len().min(buffer.len());
    buffer[..n].copy_from_slice(&bytes[..n]);
}

/// The line that is shown of a site file: the reply to its bytes, or that they are too many.
pub fn site_line(heap: Global, input: &[u8]) -> Result<String, AllocError>
    ensures { IfOk result (λ line. Shows input.now (string_bytes line)) }
{
    let mut buffer = [0; ROOM];
    fill(&mut buffer, input);
    let (text, made) = ByteBuffer::new(&mut buffer, input.len());
    match made {
        Ok(()) => {
            let reply = Shown(reply_to(&text));
            format!(in heap; "{reply}\n")
        }
        Err(refusal) => {
            let refusal = Shown(refusal);
            format!(in heap; "{refusal}\n")
        }
    }
}
