//! Answers many sheets in one run: each comes on standard input behind two bytes for its length, and each answer is a
//! line. What it must print was written by an independent reader (tests/make-corpus).

#![tactic(auto)]

use reports::{Sheets, answer, line};
use std::io;
use std::io::{Read, Write};

fn main(rt: HostRuntime) -> io::Result<()> {
    let mut input = Vec::new(rt.alloc());
    rt.stdin().read_to_end(&mut input)?;
    let mut out = rt.stdout();
    for sheet in Sheets(input.as_slice()) {
        let line = line(&answer(sheet));
        out.write_all(line.as_slice())?;
        out.write_all(b"\n")?;
    }
    Ok(())
}
