//! A session: parts are laid out, a bench is opened over them and worked at, until a part is exchanged.
use crate::command::{Call, Command, read_command};
use crate::item::Item;
use crate::keyed::Keyed;
use crate::parts::{Laid, Part, Parts, Stored, StoredMemory, StoredText, Whole};
use crate::said::{Answer, Said, Wrong};
use crate::script::Script;
use bench::calls::{clear, open, parse};
use bench::state::Settled;
use engine::frame::Frame;
use grammar::accepted::{Grammar, MOST_WORK, check};
use memo::memory::Memory;
use memo::ring::state::Ring;
use memo::whole::WholeMemory;
use std::alloc::Global;
use text::{Buffer, FixedBytes, Symbol, Text};

/// Answers to a line that asks for something.
fn answer(rt: &HostRuntime, line: usize, said: Result<Said, Wrong>) -> anyhow::Result<()> {
    rt.println(Answer { line, said })?;
    Ok(())
}

/// What a line does while no bench is open, if it does something.
fn lay_line(heap: Global, line: &[u8], parts: &mut Parts) -> Result<Option<Said>, Wrong> {
    match read_command(heap, line)? {
        None => Ok(None),
        Some(Command::Part(Laid { said, part })) => {
            parts.accept(part);
            Ok(Some(said))
        }
        Some(Command::Call(Call::Open)) => {
            let _ = parts.whole()?;
            Ok(Some(Said::Open))
        }
        Some(Command::Call(_)) => Err(Wrong::NotOpen),
    }
}

/// 2 × N × (n + 1): no parse of n elements by N expressions uses more frames.
fn most_frames(size: usize, expressions: usize) -> Option<usize> {
    size.checked_add(1)?
        .checked_mul(expressions)?
        .checked_mul(2)
}

/// A parse with so many frames.
// Here and below, grammar, text and memory are lent one by one, as the calls of a bench take them.
fn parsed<T: Text, M: Memory>(
    heap: Global,
    state: &Settled,
    grammar: &Grammar<'_>,
    text: &T,
    memory: &mut M,
    frames: usize,
) -> Result<Said, Wrong> {
    let count = most_frames(text.size(), grammar.expressions()).map_or(
        frames,
        |most| frames.min(most),
    );
    let mut frames = vec![in heap; Frame::blank(); count]?;
    Ok(Said::Parsed(parse(state, grammar, text, memory, &mut frames)))
}

/// Makes a call on a settled bench, and leaves it settled.
fn made<T: Keyed, M: Memory>(
    heap: Global,
    call: Call<'_>,
    state: Settled,
    grammar: &Grammar<'_>,
    text: &mut T,
    memory: &mut M,
) -> (Settled, Result<Said, Wrong>) {
    match call {
        Call::Open => (open(grammar, text, memory), Ok(Said::Open)),
        Call::Change(fields) => text.key(heap, state, grammar, memory, fields),
        Call::Clear => {
            clear(&state, grammar, text, memory);
            (state, Ok(Said::Cleared))
        }
        Call::Parse(frames) => {
            let said = parsed(heap, &state, grammar, text, memory, frames);
            (state, said)
        }
    }
}

/// A session: what it runs on, and the lines to come.
#[derive(Drop)]
struct Session<'a> {
    rt: &'a HostRuntime,
    script: Script<'a>,
}

impl Session<'_> {
    /// Lays out parts until a bench is opened over them; none, if none is.
    fn lay_out<'p>(&mut self, parts: &'p mut Parts) -> anyhow::Result<Option<Whole<'p>>> {
        let rt = self.rt;
        for (number, line) in &mut self.script {
            if let Some(said) = lay_line(rt.alloc(), line, parts).transpose() {
                answer(rt, number, said)?;
                if let Ok(Said::Open) = said {
                    return Ok(Some(parts.whole()?));
                }
            }
        }
        Ok(None)
    }

    /// Works at a bench that was opened, until a part is accepted: that closes it, and the part comes back.
    fn work<T: Keyed, M: Memory>(
        &mut self,
        grammar: &Grammar<'_>,
        text: &mut T,
        memory: &mut M,
    ) -> anyhow::Result<Option<Part>> {
        let rt = self.rt;
        let mut state = open(grammar, text, memory);
        for (number, line) in &mut self.script {
            match read_command(rt.alloc(), line) {
                Ok(None) => {}
                Ok(Some(Command::Part(Laid { said, part }))) => {
                    answer(rt, number, Ok(said))?;
                    return Ok(Some(part));
                }
                Ok(Some(Command::Call(call))) => {
                    let (next, said) = made(rt.alloc(), call, state, grammar, text, memory);
                    state = next;
                    answer(rt, number, said)?;
                }
                Err(wrong) => answer(rt, number, Err(wrong))?,
            }
        }
        Ok(None)
    }

    /// Works over a text that can be changed, and keeps its size for the next bench.
    fn over_buffer<E: Symbol + Item, M: Memory>(
        &mut self,
        grammar: &Grammar<'_>,
        stored: &mut Stored<E>,
        memory: &mut M,
    ) -> anyhow::Result<Option<Part>> {
        let (mut text, _) = Buffer::new(&mut stored.places, stored.size);
        let part = self.work(grammar, &mut text, memory)?;
        stored.size = text.size();
        Ok(part)
    }

    /// Works over the text of the parts.
    fn over_text<M: Memory>(
        &mut self,
        grammar: &Grammar<'_>,
        text: &mut StoredText,
        memory: &mut M,
    ) -> anyhow::Result<Option<Part>> {
        match text {
            StoredText::Bytes(stored) => self.over_buffer(grammar, stored, memory),
            StoredText::Log(stored) => self.over_buffer(grammar, stored, memory),
            StoredText::Fixed(bytes) => {
                let (mut text, _) = FixedBytes::new(bytes.as_slice(), bytes.len());
                self.work(grammar, &mut text, memory)
            }
        }
    }

    /// Works over the memory of the parts.
    fn over_memory(
        &mut self,
        grammar: &Grammar<'_>,
        text: &mut StoredText,
        memory: &mut StoredMemory,
    ) -> anyhow::Result<Option<Part>> {
        match memory {
            StoredMemory::Whole {
                words,
                places,
                rules,
            } => {
                let (mut memory, _) = WholeMemory::new(words, *places, *rules);
                self.over_text(grammar, text, &mut memory)
            }
            StoredMemory::Ring => {
                let mut memory = Ring::new();
                self.over_text(grammar, text, &mut memory)
            }
        }
    }

    /// Works at a bench of the parts. The grammar's words were accepted when they came.
    fn at_bench(&mut self, parts: Whole<'_>) -> anyhow::Result<Option<Part>> {
        let Whole {
            grammar,
            memory,
            text,
        } = parts;
        let mut work = vec![in self.rt.alloc(); 0u32; MOST_WORK]?;
        let grammar = check(grammar, &mut work).map_err(|fault| Wrong::Grammar(fault.place()))?;
        self.over_memory(&grammar, text, memory)
    }
}

/// Runs a session.
pub fn run(rt: &HostRuntime, lines: &[&[u8]]) -> anyhow::Result<()> {
    let mut session = Session {
        rt,
        script: (1..lines.len() + 1).zip(lines),
    };
    let mut parts = Parts::default();
    // as many benches as lines are enough, since each takes at least the line that opens it; so the loop is seen to end
    for _ in lines {
        let Some(whole) = session.lay_out(&mut parts)? else {
            return Ok(());
        };
        if let Some(part) = session.at_bench(whole)? {
            parts.accept(part);
        }
    }
    Ok(())
}
