//! Reports many sheets in one run: each comes on standard input behind two bytes for its length, and for each all is
//! printed that `trees_report` prints. What it must print was written by an independent reader (tests/report/make-corpus).

#![tactic(auto)]

use reports::{Printer, Sheets, report};
use std::io;
use std::io::Read;

fn main(rt: HostRuntime) -> io::Result<()> {
    let mut input = Vec::new(rt.alloc());
    rt.stdin().read_to_end(&mut input)?;
    let mut out = Printer::new(rt.stdout());
    for sheet in Sheets(input.as_slice()) {
        report(sheet, &mut out);
    }
    out.finish()
}
