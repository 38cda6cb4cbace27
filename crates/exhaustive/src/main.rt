//! Goes over every network of 1 to 4 sites and up to 4 links of 0 to 2 metres, and compares what networks answer about
//! classes and trials with answers that are found another way: by looking at every set of links.

#![tactic(auto)]

mod cases;
mod choosing;
mod comparing;
mod rows;
mod tallies;
mod trees;

use comparing::compare_all;
use std::io;

fn main(rt: HostRuntime) -> io::Result<()> {
    let t = compare_all();
    println!(rt;
        "networks {} classes {} counts {} trials {} different {}",
        t.networks, t.classes, t.counts, t.trials, t.different
    )
}
