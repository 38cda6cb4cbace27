//! Counts the trees of complete networks of 3 to 7 sites at one price. By symmetry each link is in equally many.

#![tactic(auto)]

ghost use Rattle.std.specs.Prelude.{◌≡◌, ℕ, ◌<◌, Decides};
ghost use Rattle.receivers.specs.Tallies.{tallied};
ghost use Rattle.receivers.specs.Tallying.{times_in};

use complete::{complete_network, pour_all};
use receivers::Tally;
use std::io;

/// Whether each of the links was in as many rows as the first.
fn all_equal(tally: &Tally, links: u16) -> bool
    ensures { Decides result ((k : ℕ) → k < links → times_in (tallied tally.now) k ≡ times_in (tallied tally.now) 0) }
{
    let first = tally.times(0);
    (0..links).all(|link| tally.times(link) == first)
}

fn main(rt: HostRuntime) -> io::Result<()> {
    for sites in 3..8 {
        if let Ok(network) = complete_network(rt.alloc(), sites)? {
            let links = network.links().len() as u16;
            let mut tally = Tally::new();
            let (rows, letter) = pour_all(network, &mut tally);
            let first = tally.times(0);
            let equal = if all_equal(&tally, links) {
                "and so is each"
            } else {
                "but not each"
            };
            println!(rt;
                "sites {sites} rows {rows} ended {letter}: link 0 is in {first} rows, {equal}"
            )?;
        }
    }
    Ok(())
}
