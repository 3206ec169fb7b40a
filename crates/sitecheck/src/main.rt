//! Reads a site file from standard input, and prints the line that a display shows of it.
#![tactic(auto)]

use sitefile::site_line;
use std::io;
use std::io::{Read, Write};

fn main(rt: HostRuntime) -> io::Result<()> {
    let mut input = Vec::new(rt.alloc());
    rt.stdin().read_to_end(&mut input)?;
    let line = site_line(rt.alloc(), input.as_slice())?;
    rt.stdout().write_all(line.as_bytes())
}
