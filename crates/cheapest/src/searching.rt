//! Searches for a row: the first one, the one that follows, and the one of given links.

ghost use Rattle.std.specs.Prelude.{◌<◌, length, take};
ghost use Rattle.cheapest.specs.Runs.{grown_in, FrontsIn, BegunIn, PlacedIn, MovedIn, MatchedIn, FilledIn};

use crate::candidates::Candidates;
use crate::walk::Walk;

impl Walk {
    /// Completes the first `i` candidates of the row greedily, by all candidates; how many the row then has.
    pub(crate) fn first_row(&mut self, list: &Candidates, i: usize) -> usize
        requires few { i < 64 }
        requires placed { BegunIn list.now self.old i }
        requires short { length (grown_in list.now (take i self.old.at) 0) < 64 }
        ensures { FilledIn list.now (take i self.old.at) self.new result }
    {
        let mut p = i;
        // Candidates are counted, since the row holds their numbers.
        for c in 0..list.count {
            if self.apart(list, p, c) {
                self.choose(list, p, c);
                p += 1;
            }
        }
        p
    }

    /// Moves to the row that follows. The answer is the first place that changed; if no row follows there is
    /// none, and the row is spoilt.
    pub(crate) fn next_row(&mut self, list: &Candidates, wanted: &[u16]) -> Option<usize>
        requires few { length wanted.now < 64 }
        requires placed { PlacedIn list.now wanted.now self.old (length wanted.now) }
        ensures { MovedIn list.now wanted.now self.old self.new result }
    {
        // By place, since the place is what is answered and where the row is completed from.
        for i in (0..wanted.len()).rev() {
            let next = self.at[i] as usize + 1;
            if self.complete(list, wanted, i, next) {
                return Some(i);
            }
        }
        None
    }

    /// Looks for the candidates of the given links, which must come in rank order and close no ring; whether
    /// they do. If not, the row is spoilt.
    pub(crate) fn place(&mut self, list: &Candidates, numbers: &[u16]) -> bool
        requires few { length numbers.now < 64 }
        requires fronts { FrontsIn list.now self.old 0 }
        ensures { MatchedIn list.now numbers.now self.new result }
    {
        let mut p = 0;
        // Candidates are counted here too, since the row holds their numbers.
        for c in 0..list.count {
            if p == numbers.len() {
                return true;
            }
            if list.items[c].number == numbers[p] {
                if !self.apart(list, p, c) {
                    return false;
                }
                self.choose(list, p, c);
                p += 1;
            }
        }
        p == numbers.len()
    }
}
