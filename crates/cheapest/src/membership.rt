//! Links that some cheapest tree has.

ghost use Rattle.std.specs.Prelude.{◌≡◌, ℕ, ◌<◌, ◌≤◌, false, [], ◌∷◌, map, length, Decides, MatchOption, ◌≢◌, nat_le, slice_index};
ghost use Rattle.weights.specs.Amounts.{numbers};
ghost use Rattle.weights.specs.Scales.{sum_of};
ghost use Rattle.cheapest.specs.Classes.{InSome};
ghost use Rattle.cheapest.specs.Plans.{graph_of, mark_of, first_of};
ghost use Rattle.cheapest.specs.Positions.{HasTree};
ghost use Rattle.cheapest.specs.Runs.{ring_in, grown_in};
ghost use Rattle.cheapest.specs.Candidates.{class_of, number_of};

use crate::candidates::Candidates;
use crate::listing::list_candidates;
use crate::plan::Plan;
use crate::showing::is_tree;
use crate::walk::Walk;

/// The total of the marks of candidates.
fn total(list: &Candidates, row: &[u16]) -> u32
    requires few { length row.now ≤ 64 }
    requires inside { (j : ℕ) → j < length row.now → slice_index row.now j < 512 }
    ensures { result ≡ sum_of numbers (map (class_of list.now) row.now) }
{
    let items = &list.items;
    row.iter().map(|c| items[*c as usize].class as u32).sum()
}

/// The place of the link among the candidates, if it is one of them.
fn candidate_of(list: &Candidates, link: u16) -> Option<usize>
    ensures { MatchOption result ((c : ℕ) → c < list.now.count → number_of list.now c ≢ link) (λ c. (c < list.now.count) × (number_of list.now c ≡ link)) }
{
    list.items[..list.count]
        .iter()
        .position(|c| c.number == link)
}

/// The total of the marks of a cheapest tree, if there is a tree.
pub(crate) fn least_total(list: &Candidates) -> Option<u32>
    ensures { MatchOption result (HasTree list.now.plan → ⊥) (λ total. HasTree list.now.plan × (total ≡ sum_of numbers (map (mark_of list.now.plan) (first_of list.now.plan)))) }
{
    let mut walk = Walk::empty();
    let size = walk.first_row(list, 0);
    if !is_tree(&list.plan, size) {
        return None;
    }
    Some(total(list, &walk.at[0..size]))
}

/// The total of the marks of candidate `c` and its greedy completion.
fn total_with(list: &Candidates, c: usize) -> u32
    requires within { c < list.now.count }
    requires apart { ring_in list.now [] c ≡ false }
    ensures { result ≡ sum_of numbers (map (class_of list.now) (grown_in list.now (c ∷ []) 0)) }
{
    let mut walk = Walk::empty();
    walk.choose(list, 0, c);
    let size = walk.first_row(list, 1);
    total(list, &walk.at[0..size])
}

/// Whether the greedy completion of candidate `c` has at most this total.
fn stays_within(list: &Candidates, c: usize, least: u32) -> bool
    requires within { c < list.now.count }
    requires apart { ring_in list.now [] c ≡ false }
    ensures { result ≡ nat_le (sum_of numbers (map (class_of list.now) (grown_in list.now (c ∷ []) 0))) least }
{
    total_with(list, c) <= least
}

/// Whether some cheapest tree has this link: whether its greedy completion has the first row's total.
fn some_has(list: &Candidates, link: u16) -> bool
    ensures { Decides result (InSome (graph_of list.now.plan) numbers (mark_of list.now.plan) (link ∷ [])) }
{
    let Some(c) = candidate_of(list, link) else {
        return false;
    };
    if list.items[c].start == list.items[c].end {
        return false;
    }
    let Some(least) = least_total(list) else {
        return false;
    };
    stays_within(list, c, least)
}

impl Plan {
    /// Whether some cheapest tree has this link. The cost is two runs over the candidates.
    pub fn in_some(&self, link: u16) -> bool
        ensures { Decides result (InSome (graph_of self.now) numbers (mark_of self.now) (link ∷ [])) }
    {
        let list = list_candidates(*self);
        some_has(&list, link)
    }
}
