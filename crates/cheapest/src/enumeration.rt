//! The state of a walk through the rows of all cheapest trees.

ghost use Rattle.std.specs.Prelude.{◌≡◌, ℕ, ◌+◌, ◌<◌, true, false, length, take, slice_index};
ghost use Rattle.cheapest.specs.Plans.{mark_of, first_of};
ghost use Rattle.cheapest.specs.Runs.{row_in, FrontsIn};
ghost use Rattle.cheapest.specs.Candidates.{class_of, number_of};

use crate::candidates::Candidates;
use crate::walk::Walk;

/// A place in the full list of a plan: before it, or on one of its rows. The list is not stored; each row
/// is found from the one before. A step takes no memory, and copies 64 bytes for each link that changes.
#[derive(Drop)]
pub struct Rows {
    pub(crate) list: Candidates,
    pub(crate) walk: Walk,
    /// How many links the first row has, and so each row; no call allocates, so the places below are 64.
    pub(crate) size: usize,
    /// The marks of the first row, which are those of every row of the list.
    pub(crate) wanted: [u16; 64],
    /// The row in link numbers. Before the list it is the first row already, so no Option holds it: it is there either way.
    pub(crate) row: [u16; 64],
    pub(crate) on: bool,
    ghost small: { size < 64 },
    ghost widewanted: { length wanted ≡ 64 },
    ghost widerow: { length row ≡ 64 },
    ghost whole: { size ≡ length (first_of list.plan) },
    ghost wants: { (j : ℕ) → j < size → slice_index wanted j ≡ mark_of list.plan (slice_index (first_of list.plan) j) },
    ghost inside: { (j : ℕ) → j < size → slice_index walk.at j < list.count },
    ghost levels: { (j : ℕ) → j < size → class_of list (slice_index walk.at j) ≡ slice_index wanted j },
    ghost shows: { (j : ℕ) → j < size → number_of list (slice_index walk.at j) ≡ slice_index row j },
    ghost fronts: { FrontsIn list walk size },
    ghost passes: { row_in list (take size row) ≡ true },
    ghost begins: { (j : ℕ) → (on ≡ false) × (j < size) → slice_index row j ≡ slice_index (first_of list.plan) j },
    ghost joins: { on ≡ true → size + 1 ≡ list.plan.sites },
}
