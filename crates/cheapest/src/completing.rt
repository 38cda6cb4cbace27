//! Completions of a row in the making.

ghost use Rattle.std.specs.Prelude.{◌≡◌, ◌<◌, ◌≤◌, length, nat_lt};
ghost use Rattle.cheapest.specs.Runs.{PlacedIn, CompletedIn};

use crate::candidates::{Candidate, Candidates};
use crate::walk::Walk;

impl Candidate {
    /// Whether its class is above the wanted one.
    fn is_dearer(self, wanted: u16) -> bool
        ensures { result ≡ nat_lt wanted self.class }
    {
        self.class > wanted
    }
}

impl Walk {
    /// Completes the first `i` candidates of the row by candidates from `first` on, to a row of the wanted
    /// classes; whether there is one. It stops at the first candidate of a higher class than is wanted.
    pub(crate) fn complete(
        &mut self,
        list: &Candidates,
        wanted: &[u16],
        i: usize,
        first: usize,
    ) -> bool
        requires within { (i ≤ length wanted.now) × (length wanted.now < 64) }
        requires placed { PlacedIn list.now wanted.now self.old i }
        ensures { CompletedIn list.now wanted.now self.old self.new i first result }
    {
        let mut p = i;
        // Candidates are counted, since the row holds their numbers; an iterator over the records would number them anew.
        for c in first..list.count {
            if p == wanted.len() {
                return true;
            }
            if list.items[c].is_dearer(wanted[p]) {
                return false;
            }
            if self.apart(list, p, c) {
                if list.items[c].class != wanted[p] {
                    return false;
                }
                self.choose(list, p, c);
                p += 1;
            }
        }
        p == wanted.len()
    }
}
