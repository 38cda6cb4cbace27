//! Whether a row could be in the full list.

ghost use Rattle.std.specs.Prelude.{◌≡◌, true, false, Decides};
ghost use Rattle.cheapest.specs.Positions.{plan_of, CheapestIn, Level};

use crate::enumeration::Rows;
use crate::reading::has_marks;

impl Rows {
    /// Whether the row has as many links as a spanning tree, and the marks of the first row. Any row of the
    /// full list has.
    pub(crate) fn is_level(&self, row: &[u16]) -> bool
        ensures passes { result ≡ true → Level self.now row.now }
        ensures refuses { result ≡ false → Decides false (CheapestIn (plan_of self.now) row.now) }
    {
        if !self.joined() || row.len() != self.size {
            return false;
        }
        has_marks(&self.list.plan, row, &self.wanted)
    }
}
