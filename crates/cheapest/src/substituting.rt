//! Links that stand in for a link of the row.

ghost use Rattle.std.specs.Prelude.{◌≡◌, ℕ, ◌<◌, true, length, take, Decides, MatchOption, ◌≢◌, slice_index};
ghost use Rattle.forests.specs.Lists.{In};
ghost use Rattle.cheapest.specs.Positions.{plan_of, is_on, row_of};
ghost use Rattle.cheapest.specs.Runs.{FrontsIn, CrossesIn};
ghost use Rattle.cheapest.specs.StandIns.{StandsIn, FirstStandIn};

use crate::candidates::{Candidate, Candidates};
use crate::enumeration::Rows;
use crate::walk::Walk;

/// The place of the link in the row, if it is there.
fn place_of(row: &[u16], link: u16) -> Option<usize>
    ensures { MatchOption result ((j : ℕ) → j < length row.now → slice_index row.now j ≢ link) (λ j. (j < length row.now) × (slice_index row.now j ≡ link)) }
{
    row.iter().position(|x| *x == link)
}

impl Candidate {
    /// Whether it is another link than the given one, of the class.
    fn is_other(self, link: u16, class: u16) -> bool
        ensures { Decides result ((self.number ≢ link) × (self.class ≡ class)) }
    {
        self.number != link && self.class == class
    }
}

impl Walk {
    /// The first candidate of the class, other than the link, that closes no ring with the first `p`
    /// candidates of the row, if there is one.
    fn first_across(&self, list: &Candidates, p: usize, link: u16, class: u16) -> Option<usize>
        requires few { p < 64 }
        requires fronts { FrontsIn list.now self.now p }
        ensures { MatchOption result ((c : ℕ) → c < list.now.count → CrossesIn list.now (take p self.now.at) link class c → ⊥) (λ c. (c < list.now.count) × CrossesIn list.now (take p self.now.at) link class c × ((d : ℕ) → d < c → CrossesIn list.now (take p self.now.at) link class d → ⊥)) }
    {
        (0..list.count).find(|c| {
            let candidate = list.items[*c];
            candidate.is_other(link, class) && self.apart(list, p, *c)
        })
    }
}

impl Rows {
    /// The link of lowest rank that stands in for this link of the row that the walk is on, if there is one.
    pub fn substitute(&self, link: u16) -> Option<u16>
        ensures { MatchOption result ((f : ℕ) → In link (row_of self.now) → StandsIn (plan_of self.now) (row_of self.now) link f → ⊥) (λ f. FirstStandIn (plan_of self.now) (row_of self.now) link f) }
    {
        if !self.on {
            return None;
        }
        self.stand_in(link)
    }

    /// The same for a walk that is on a row: the first candidate of the link's class that closes no ring
    /// with the rest of the row.
    fn stand_in(&self, link: u16) -> Option<u16>
        requires { is_on self.now ≡ true }
        ensures { MatchOption result ((f : ℕ) → In link (row_of self.now) → StandsIn (plan_of self.now) (row_of self.now) link f → ⊥) (λ f. FirstStandIn (plan_of self.now) (row_of self.now) link f) }
    {
        let row = self.row();
        let q = place_of(row, link)?;
        let mut rest = self.row;
        rest.copy_within(q + 1.., q);
        // The walk is written over; to copy it costs less than to make an empty one.
        let mut walk = self.walk;
        walk.place(&self.list, &rest[0..self.size - 1]);
        let c = walk.first_across(&self.list, self.size - 1, link, self.wanted[q])?;
        Some(self.list.items[c].number)
    }
}
