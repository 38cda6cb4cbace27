//! Lists all rows of the complete network of each number of sites among the arguments, and prints that number and the
//! number of rows. It is timed by speed/run.

#![tactic(auto)]

use complete::{complete_network, pour_all};
use receivers::Tally;
use std::{env, io};

fn main(rt: HostRuntime) -> io::Result<()> {
    let numbers = env::args(&rt)?.skip(1);
    for sites in numbers.filter_map(|word| word.as_str().parse::<u8>().ok()) {
        if let Ok(network) = complete_network(rt.alloc(), sites)? {
            let mut tally = Tally::new();
            let (rows, _) = pour_all(network, &mut tally);
            println!(rt; "{sites} {rows}")?;
        }
    }
    Ok(())
}
