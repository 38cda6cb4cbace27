//! `trees` reads a network sheet from standard input and says what it holds, or why it is refused.

#![tactic(auto)]

use reports::{MOST, answer, line};
use std::io;
use std::io::{Read, Write};

fn main(rt: HostRuntime) -> io::Result<()> {
    let mut sheet = Vec::new(rt.alloc());
    rt.stdin().take(MOST).read_to_end(&mut sheet)?;
    let line = line(&answer(sheet.as_slice()));
    let mut out = rt.stdout();
    out.write_all(line.as_slice())?;
    out.write_all(b"\n")
}
