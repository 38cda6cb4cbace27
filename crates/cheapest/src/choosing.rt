//! Candidates put into a row in the making.

ghost use Rattle.std.specs.Prelude.{◌≡◌, ◌+◌, ◌<◌, not, take, slice_set};
ghost use Rattle.cheapest.specs.Runs.{ring_in, FrontsIn};

use crate::candidates::Candidates;
use crate::walk::Walk;
use forests::merged;

impl Walk {
    /// Whether candidate `c` closes no ring with the first `p` candidates of the row.
    pub(crate) fn apart(&self, list: &Candidates, p: usize, c: usize) -> bool
        requires within { (p < 64) × (c < list.now.count) }
        requires fronts { FrontsIn list.now self.now p }
        ensures { result ≡ not (ring_in list.now (take p self.now.at) c) }
    {
        let start = list.items[c].start as usize;
        let end = list.items[c].end as usize;
        self.labels[p][start] != self.labels[p][end]
    }

    /// Puts candidate `c` at place `p` of the row.
    pub(crate) fn choose(&mut self, list: &Candidates, p: usize, c: usize)
        requires within { (p + 1 < 64) × (c < list.now.count) }
        requires fronts { FrontsIn list.now self.old p }
        ensures row { self.new.at ≡ slice_set self.old.at p c }
        ensures fronts { FrontsIn list.now self.new (p + 1) }
    {
        let start = list.items[c].start as usize;
        let end = list.items[c].end as usize;
        let labels = self.labels[p];
        self.labels[p + 1] = merged(labels, labels[start], labels[end]);
        self.at[p] = c as u16;
    }
}
