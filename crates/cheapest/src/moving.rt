//! Walking through the rows of all cheapest trees.

ghost use Rattle.std.specs.Prelude.{◌≡◌, true, false, Decides};
ghost use Rattle.cheapest.specs.Positions.{plan_of, is_on, row_of, CheapestIn, Steps, Stops, SamePlace};

use crate::enumeration::Rows;
use crate::listing::list_candidates;
use crate::plan::Plan;
use crate::reading::read_row;

impl Rows {
    /// A walk that stands before the full list of the plan. The cost is two runs over the candidates.
    pub fn new(plan: Plan) -> Rows
        ensures plan { plan_of result ≡ plan }
        ensures before { is_on result ≡ false }
    {
        Rows::before(list_candidates(plan))
    }

    /// Moves to the first row, or to the row that follows; whether there is one. If not, the walk stays
    /// where it is. The cost is one run over the candidates for each place that is tried, from the last on.
    pub fn advance(&mut self) -> bool
        ensures plan { plan_of self.new ≡ plan_of self.old }
        ensures moves { result ≡ true → Steps self.old self.new }
        ensures ends { result ≡ false → Stops self.old }
        ensures stays { result ≡ false → SamePlace self.old self.new }
    {
        if !self.on {
            self.on = self.joined();
            return self.on;
        }
        let wanted = &self.wanted;
        let next = self.walk.next_row(&self.list, &wanted[0..self.size]);
        let Some(i) = next else {
            let row = &self.row;
            self.walk.place(&self.list, &row[0..self.size]);
            return false;
        };
        let (list, walk) = (&self.list, &self.walk);
        read_row(list, &walk.at, i, self.size, &mut self.row, |c| c.number);
        true
    }

    /// Moves to the given row if it is in the full list; whether it is. If not, the walk stays where it is.
    pub fn seek(&mut self, row: &[u16]) -> bool
        ensures plan { plan_of self.new ≡ plan_of self.old }
        ensures listed { Decides result (CheapestIn (plan_of self.old) row.now) }
        ensures moves { result ≡ true → (is_on self.new ≡ true) × (row_of self.new ≡ row.now) }
        ensures stays { result ≡ false → SamePlace self.old self.new }
    {
        if !self.is_level(row) {
            return false;
        }
        if !self.walk.place(&self.list, row) {
            let here = &self.row;
            self.walk.place(&self.list, &here[0..self.size]);
            return false;
        }
        self.row[0..self.size].copy_from_slice(row);
        self.on = true;
        true
    }

    /// Goes back to before the list, where the walk began.
    pub fn restart(&mut self)
        ensures plan { plan_of self.new ≡ plan_of self.old }
        ensures before { is_on self.new ≡ false }
    {
        if self.on {
            self.rewind();
        }
    }
}
