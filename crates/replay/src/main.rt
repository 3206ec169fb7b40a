//! Runs a keypad session again: one command a line on standard input, one line of answer each.
#![tactic(auto)]

mod command;
mod fields;
mod item;
mod keyed;
mod parts;
mod said;
mod script;
mod session;

use script::lines_of;
use session::run;
use std::io::Read;

fn replay(rt: &HostRuntime) -> anyhow::Result<()> {
    let mut input = Vec::new(rt.alloc());
    rt.stdin().read_to_end(&mut input)?;
    let lines = lines_of(rt.alloc(), input.as_slice())?;
    run(rt, lines.as_slice())
}

fn main(rt: HostRuntime) -> anyhow::Result<()> {
    replay(&rt)
}
