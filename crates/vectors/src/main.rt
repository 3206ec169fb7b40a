//! Reads cases from standard input, a grammar, a text and a number of frames on each line, and prints what each gives.
//!
//! A line that opens with # is a heading, and is printed as it is.
#![tactic(auto)]

mod case;
mod shown;
mod trial;

use std::io::{BufRead, BufReader};
use trial::answer;

fn run(rt: &HostRuntime) -> anyhow::Result<()> {
    for line in BufReader::new(rt.alloc(), rt.stdin())?.lines(rt.alloc()) {
        let line = line?;
        if line.starts_with('#') {
            rt.println(line)?;
        } else {
            rt.println(answer(rt.alloc(), line.as_str())?)?;
        }
    }
    Ok(())
}

fn main(rt: HostRuntime) -> anyhow::Result<()> {
    run(&rt)
}
