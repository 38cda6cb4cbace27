//! Plans with a link closed, and links that every cheapest tree has.

ghost use Rattle.std.specs.Prelude.{◌≡◌, not, Decides, nat_eq};
ghost use Rattle.weights.specs.Amounts.{numbers};
ghost use Rattle.cheapest.specs.Classes.{closing, InEvery};
ghost use Rattle.cheapest.specs.Plans.{graph_of, mark_of};

use crate::listing::list_candidates;
use crate::membership::least_total;
use crate::plan::Plan;

impl Plan {
    /// The same plan with this link closed. A number that no link has closes nothing.
    pub(crate) fn without(&self, link: u16) -> Plan
        ensures graph { graph_of result ≡ closing (graph_of self.now) (λ e. nat_eq e link) }
        ensures marks { mark_of result ≡ mark_of self.now }
    {
        let mut links = self.links;
        // By index: a proof knows nothing more of what `get_mut` lends once it is given back.
        if link < 512 {
            links[link as usize].usable = false;
        }
        Plan {
            sites: self.sites,
            count: self.count,
            links,
            order: self.order,
        }
    }

    /// Whether every cheapest tree has this link; where there is no tree, that is so of any link.
    pub fn in_every(&self, link: u16) -> bool
        ensures { Decides result (InEvery (graph_of self.now) numbers (mark_of self.now) link) }
    {
        !self.avoids(link)
    }

    /// Whether some cheapest tree does without this link: whether the first row without it is a tree's and has
    /// the total of the first row.
    fn avoids(&self, link: u16) -> bool
        ensures { Decides (not result) (InEvery (graph_of self.now) numbers (mark_of self.now) link) }
    {
        let list = list_candidates(*self);
        let Some(least) = least_total(&list) else {
            return false;
        };
        let others = list_candidates(self.without(link));
        let Some(total) = least_total(&others) else {
            return false;
        };
        total == least
    }
}
