//! Trials: the first row of a network with one of its links closed.

ghost use Rattle.std.specs.Prelude.{◌≡◌, ℕ, ◌+◌, ◌<◌, ◌≤◌, false, length, IfOk, Decides, OnErr, slice_index_or};
ghost use Rattle.forests.specs.Graphs.{SitesJoined};
ghost use Rattle.weights.specs.Amounts.{numbers};
ghost use Rattle.cheapest.specs.Places.{link_at};
ghost use Rattle.cheapest.specs.Plans.{graph_of, mark_of};
ghost use Rattle.networks.specs.Closures.{closed_at};
ghost use Rattle.networks.specs.Links.{open_below};
ghost use Rattle.networks.specs.Networks.{sites_of, links_of, closed_in, network_graph, weights_of};
ghost use Rattle.networks.specs.Refusals.{refusal_of};
ghost use Rattle.networks.specs.Trials.{open_only, without, FirstWritten, TrialRefusal, Written};

use crate::closed::{Closed, Reopen};
use crate::networks::Network;
use crate::refusals::{Layer, Refusal};
use cheapest::{Plan, Rows};
use weights::WeightKind;

/// Writes the plan's first row into the list; whether there is one.
fn write_first(plan: Plan, list: &mut [u16]) -> bool
    requires { plan.sites ≤ length list.old + 1 }
    ensures joined { Decides result (SitesJoined (graph_of plan)) }
    ensures writes { FirstWritten (graph_of plan) numbers (mark_of plan) result list.old list.new }
{
    let mut rows = Rows::new(plan);
    if !rows.advance() {
        return false;
    }
    let row = rows.row();
    list[..row.len()].copy_from_slice(row);
    true
}

/// The plan with those links open that the record leaves open. Places past its links have no open link, and stay so.
fn reopened(plan: &Plan, closed: &Closed) -> Plan
    requires { (e : ℕ) → plan.now.count ≤ e → (link_at plan.now.links e).usable ≡ false }
    ensures graph { graph_of result ≡ open_only closed.now (graph_of plan.now) }
    ensures marks { mark_of result ≡ mark_of plan.now }
{
    let mut links = plan.links;
    for (number, link) in links[..plan.count].iter_mut().enumerate() {
        link.usable = closed.is_open(number as u16);
    }
    Plan {
        sites: plan.sites,
        count: plan.count,
        links,
        order: plan.order,
    }
}

/// Closes the link, writes the first row without it into the list if there is one, and puts the link back
/// as it was; whether there is one.
fn try_closed(plan: &Plan, closed: &mut Closed, link: u16, list: &mut [u16]) -> bool
    requires room { plan.now.sites ≤ length list.old + 1 }
    requires open { (e : ℕ) → (link_at plan.now.links e).usable ≡ open_below closed.old plan.now.count e }
    ensures joined { Decides result (SitesJoined (without (graph_of plan.now) link)) }
    ensures writes { FirstWritten (without (graph_of plan.now) link) numbers (mark_of plan.now) result list.old list.new }
    ensures restores { (e : ℕ) → closed_at closed.new e ≡ closed_at closed.old e }
{
    let was = closed.is_closed(link);
    let guard = Reopen { closed, link, was };
    guard.closed.put(link, true);
    write_first(reopened(plan, guard.closed), list)
}

impl<K: WeightKind> Network<K> {
    /// Whether the open links join all sites.
    fn sites_joined(&self) -> bool
        ensures { Decides result (SitesJoined (network_graph self.now)) }
    {
        Rows::new(self.plan()).joined()
    }

    /// Closes the link, writes the first row without it into the list if there is one, and puts the link
    /// back as it was; whether there is one.
    fn try_link(&mut self, link: u16, list: &mut [u16]) -> bool
        requires { sites_of self.old ≤ length list.old + 1 }
        ensures joined { Decides result (SitesJoined (without (network_graph self.old) link)) }
        ensures writes { FirstWritten (without (network_graph self.old) link) K.WeightKind.weighing.scale (weights_of K.WeightKind.weighing self.old) result list.old list.new }
        ensures sites { sites_of self.new ≡ sites_of self.old }
        ensures links { links_of self.new ≡ links_of self.old }
        ensures closed { (e : ℕ) → closed_in self.new e ≡ closed_in self.old e }
    {
        let plan = self.plan();
        try_closed(&plan, &mut self.closed, link, list)
    }

    /// Tries what closing this link would do: whether the sites are still joined, and then the first row
    /// without it, written into the first places of the list; else the list stays as it is. The link is put
    /// back as it was, however the trial ends. A number that no link has closes nothing.
    pub fn trial(&mut self, link: u16, list: &mut [u16]) -> Result<bool, Refusal>
        ensures refuses { TrialRefusal (network_graph self.old) (length list.old) (refusal_of result) }
        ensures joined { IfOk result (λ joined. Decides joined (SitesJoined (without (network_graph self.old) link))) }
        ensures writes { IfOk result (λ joined. FirstWritten (without (network_graph self.old) link) K.WeightKind.weighing.scale (weights_of K.WeightKind.weighing self.old) joined list.old list.new) }
        ensures leaves { OnErr result (list.new ≡ list.old) }
        ensures sites { sites_of self.new ≡ sites_of self.old }
        ensures links { links_of self.new ≡ links_of self.old }
        ensures closed { (e : ℕ) → closed_in self.new e ≡ closed_in self.old e }
    {
        let places = list.len();
        if places < self.sites as usize - 1 {
            return Err(Refusal::ShortList(Layer::Network, places));
        }
        if !self.sites_joined() {
            return Err(Refusal::TrialNotJoined);
        }
        Ok(self.try_link(link, list))
    }
}
