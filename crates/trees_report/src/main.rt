//! `trees_report` reads a network sheet from standard input and prints its cheapest trees, or why it is refused.

#![tactic(auto)]

use reports::{MOST, Printer, report};
use std::io;
use std::io::Read;

fn main(rt: HostRuntime) -> io::Result<()> {
    let mut sheet = Vec::new(rt.alloc());
    rt.stdin().take(MOST).read_to_end(&mut sheet)?;
    let mut out = Printer::new(rt.stdout());
    report(sheet.as_slice(), &mut out);
    out.finish()
}
