//! What a walk shows of its place and of its list.

ghost use Rattle.std.specs.Prelude.{◌≡◌, ◌<◌, length, Decides};
ghost use Rattle.forests.specs.Graphs.{SitesJoined};
ghost use Rattle.cheapest.specs.Plans.{graph_of, first_of};
ghost use Rattle.cheapest.specs.Positions.{plan_of, is_on, row_of, HasTree};

use crate::enumeration::Rows;
use crate::plan::Plan;

/// Whether the first row, of so many links, is a spanning tree's.
pub(crate) fn is_tree(plan: &Plan, size: usize) -> bool
    requires { (size < 64) × (size ≡ length (first_of plan.now)) }
    ensures joined { Decides result (SitesJoined (graph_of plan.now)) }
    ensures tree { Decides result (HasTree plan.now) }
{
    size + 1 == plan.sites as usize
}

impl Rows {
    /// Whether the usable links join all sites, so that there is a spanning tree.
    pub fn joined(&self) -> bool
        ensures joined { Decides result (SitesJoined (graph_of (plan_of self.now))) }
        ensures tree { Decides result (HasTree (plan_of self.now)) }
    {
        is_tree(&self.list.plan, self.size)
    }

    /// Whether the walk is on a row.
    pub fn is_on(&self) -> bool
        ensures { result ≡ is_on self.now }
    {
        self.on
    }

    /// The row that the walk is on, in link numbers; before the list it is empty.
    pub fn row(&self) -> &[u16]
        ensures { result.now ≡ row_of self.now }
    {
        let size = if self.on { self.size } else { 0 };
        &self.row[0..size]
    }

    /// The plan that is walked through.
    pub(crate) fn plan(&self) -> &Plan
        ensures { result.now ≡ plan_of self.now }
    {
        &self.list.plan
    }

    /// Ends the walk, and gives the plan back.
    pub(crate) fn into_plan(self) -> Plan
        ensures { result ≡ plan_of self }
    {
        let Rows { list, .. } = self;
        list.plan
    }
}
