//! Reads rows of words from standard input, one row a line, and prints what the check of grammars says of each.
#![tactic(auto)]

use rowtext::account::account;
use std::io;
use std::io::{Read, Write};

fn main(rt: HostRuntime) -> io::Result<()> {
    let mut input = Vec::new(rt.alloc());
    rt.stdin().read_to_end(&mut input)?;
    let text = account(rt.alloc(), input.as_slice())?;
    rt.stdout().write_all(text.as_bytes())
}
