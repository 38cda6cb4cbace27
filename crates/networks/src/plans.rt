//! The plain part of a network: its graph, with a mark on every link that stands for its weight.

ghost use Rattle.std.specs.Prelude.{◌≡◌, ℕ, ◌<◌, ◌≤◌, not, length, count_by};
ghost use Rattle.weights.specs.Amounts.{numbers};
ghost use Rattle.cheapest.specs.Places.{link_at};
ghost use Rattle.cheapest.specs.Plans.{graph_of, mark_of};
ghost use Rattle.cheapest.specs.Ranks.{Alike};
ghost use Rattle.networks.specs.Closures.{closed_at};
ghost use Rattle.networks.specs.Links.{from_of, to_of, weight_of, lighter_than, open_below};
ghost use Rattle.networks.specs.Networks.{network_graph, links_of, weights_of};

use crate::closed::Closed;
use crate::links::Link;
use crate::networks::Network;
use crate::ranking::rank_links;
use cheapest::{Plan, PlanLink};
use weights::WeightKind;

/// How many links have lower weight than this one.
fn mark<K: WeightKind>(links: &[Link<K>], link: &Link<K>) -> usize
    ensures inside { result ≤ length links.now }
    ensures counts { result ≡ count_by (λ x. not (K.WeightKind.weighing.scale.le (K.WeightKind.weighing.amount link.now.weight) (K.WeightKind.weighing.amount x.weight))) links.now }
{
    // A sum of zeros and ones, since a filter branches on each link.
    links
        .iter()
        .map(|x| usize::from(!link.weight.at_most(&x.weight)))
        .sum()
}

/// A link with its mark, and whether it may be chosen.
fn marked_link<K: WeightKind>(links: &[Link<K>], link: &Link<K>, usable: bool) -> PlanLink
    requires { length links.now ≤ 512 }
    ensures start { result.from ≡ link.now.from }
    ensures end { result.to ≡ link.now.to }
    ensures mark { result.mark ≡ count_by (λ x. not (K.WeightKind.weighing.scale.le (K.WeightKind.weighing.amount link.now.weight) (K.WeightKind.weighing.amount x.weight))) links.now }
    ensures chosen { result.usable ≡ usable }
{
    PlanLink {
        from: link.from,
        to: link.to,
        mark: mark(links, link) as u16,
        usable,
    }
}

/// The links with their marks, in the first of 512 places. Those that are open may be chosen.
fn marked_links<K: WeightKind>(links: &[Link<K>], closed: &Closed) -> [PlanLink; 512]
    requires { length links.now ≤ 512 }
    ensures len { length result ≡ 512 }
    ensures starts { (e : ℕ) → (link_at result e).from ≡ from_of links.now e }
    ensures ends { (e : ℕ) → (link_at result e).to ≡ to_of links.now e }
    ensures marks { (e : ℕ) → e < length links.now → (link_at result e).mark ≡ lighter_than K.WeightKind.weighing.scale (weight_of K.WeightKind.weighing links.now) (length links.now) e }
    ensures opens { (e : ℕ) → (link_at result e).usable ≡ open_below closed.now (length links.now) e }
{
    let none = PlanLink {
        from: 0,
        to: 0,
        mark: 0,
        usable: false,
    };
    let mut places = [none; 512];
    // By place, since a proof knows nothing of an array that `zip` with its `iter_mut` fills.
    for (number, link) in links.iter().enumerate() {
        places[number] = marked_link(links, link, closed.is_open(number as u16));
    }
    places
}

impl<K: WeightKind> Network<K> {
    /// The network's graph with a mark on each link: how many links have lower weight. So marks compare as the
    /// weights do. The cost grows with the square of the number of links.
    pub fn plan(&self) -> Plan
        ensures graph { graph_of result ≡ network_graph self.now }
        ensures alike { Alike numbers K.WeightKind.weighing.scale (mark_of result) (weights_of K.WeightKind.weighing self.now) (length (links_of self.now)) }
        ensures marks { (e : ℕ) → e < length (links_of self.now) → mark_of result e ≡ lighter_than K.WeightKind.weighing.scale (weights_of K.WeightKind.weighing self.now) (length (links_of self.now)) e }
    {
        self.marked()
    }

    /// The graph with a mark on every link, and its links in rank order.
    fn marked(&self) -> Plan
        ensures graph { graph_of result ≡ network_graph self.now }
        ensures alike { Alike numbers K.WeightKind.weighing.scale (mark_of result) (weights_of K.WeightKind.weighing self.now) (length (links_of self.now)) }
        ensures marks { (e : ℕ) → e < length (links_of self.now) → mark_of result e ≡ lighter_than K.WeightKind.weighing.scale (weights_of K.WeightKind.weighing self.now) (length (links_of self.now)) e }
    {
        let links = self.links();
        Plan {
            sites: self.sites,
            count: links.len(),
            links: marked_links(links, &self.closed),
            order: rank_links(links),
        }
    }
}
