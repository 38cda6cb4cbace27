//! Pouring a whole list into a tally.

ghost use Rattle.std.specs.Prelude.{ℕ, List, None, Option};
ghost use Rattle.forests.specs.Graphs.{SitesJoined};
ghost use Rattle.weights.specs.Weighings.{by_metres};
ghost use Rattle.networks.specs.Networks.{network_graph};
ghost use Rattle.receivers.specs.Tallies.{tallied};
ghost use Rattle.receivers.specs.Tallying.{tallying};
ghost use Rattle.walks.specs.Doing.{PourDoes};
ghost use Rattle.walks.specs.Walks.{Listed};

use networks::Network;
use receivers::Tally;
use walks::Walk;
use weights::Metres;

/// Pours the network's full list into the tally, from its first row on, and answers how many rows were taken and why
/// the pour ended.
pub fn pour_all(network: Network<Metres>, tally: &mut Tally) -> (u32, char)
    ensures { (L : List (List ℕ)) → Listed by_metres network L → (here : Option (List ℕ)) × PourDoes L (SitesJoined (network_graph network)) tallying None (tallied tally.old) 4294967295 result.0 result.1 here (tallied tally.new) }
{
    let mut walk = Walk::begin(network);
    walk.pour(tally, u32::MAX)
}
