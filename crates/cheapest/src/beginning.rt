//! Where a walk begins: before the full list, with the first row ready.

ghost use Rattle.std.specs.Prelude.{◌≡◌, ℕ, ◌<◌, [], length, false, slice_index};
ghost use Rattle.cheapest.specs.Positions.{plan_of, is_on};
ghost use Rattle.cheapest.specs.Runs.{FrontsIn, FilledIn};
ghost use Rattle.cheapest.specs.Candidates.{number_of};

use crate::candidates::Candidates;
use crate::enumeration::Rows;
use crate::reading::read_row;
use crate::walk::Walk;

impl Walk {
    /// Goes to the first row, and writes down its links; how many it has.
    fn to_first(&mut self, list: &Candidates, row: &mut [u16; 64]) -> usize
        requires fronts { FrontsIn list.now self.old 0 }
        ensures filled { FilledIn list.now [] self.new result }
        ensures wide { length row.new ≡ 64 }
        ensures links { (j : ℕ) → j < result → slice_index row.new j ≡ number_of list.now (slice_index self.new.at j) }
    {
        let size = self.first_row(list, 0);
        read_row(list, &self.at, 0, size, row, |c| c.number);
        size
    }
}

impl Rows {
    /// A walk that stands before the full list of the candidates.
    pub(crate) fn before(list: Candidates) -> Rows
        ensures list { result.list ≡ list }
        ensures before { is_on result ≡ false }
    {
        let mut walk = Walk::empty();
        let mut row = [0; 64];
        let size = walk.to_first(&list, &mut row);
        let mut wanted = [0; 64];
        read_row(&list, &walk.at, 0, size, &mut wanted, |c| c.class);
        Rows {
            list,
            walk,
            size,
            wanted,
            row,
            on: false,
        }
    }

    /// Puts the first row in place of the row, and goes before the list. The size and the marks stay, since
    /// they are those of the first row.
    pub(crate) fn rewind(&mut self)
        ensures plan { plan_of self.new ≡ plan_of self.old }
        ensures before { is_on self.new ≡ false }
    {
        let list = &self.list;
        self.walk.to_first(list, &mut self.row);
        self.on = false;
    }
}
