//! The state of a walk.

ghost use Rattle.std.specs.Prelude.{◌≡◌};
ghost use Rattle.cheapest.specs.Plans.{graph_of};
ghost use Rattle.cheapest.specs.Positions.{plan_of};
ghost use Rattle.networks.specs.Networks.{sites_of, network_graph};

use cheapest::Rows;
use networks::Network;

/// A walk through the full list of a network, which it holds until it ends: it is before the list or on one
/// of its rows. It is made by `begin`.
// That it compares links as the network's weights do is `Begun`, and not in the type: the type would then ask for the
// bound `WeightKind`, and so would every type and function of a caller that holds a walk.
#[derive(Drop)]
pub struct Walk<K> {
    pub(crate) network: Network<K>,
    pub(crate) rows: Rows,
    ghost sized: { (plan_of rows).sites ≡ sites_of network },
    ghost graph: { graph_of (plan_of rows) ≡ network_graph network },
}
