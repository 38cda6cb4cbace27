//! The inside of a walk through rows: the row in candidates, with the labels of all its prefixes.

ghost use Rattle.std.specs.Prelude.{◌≡◌, ℕ, ◌<◌, [], length, slice_index, slice_index_or};

use std::array;

/// A row of candidates, and the labels of the sites after each number of its candidates. Only the front
/// that a function speaks of has meaning.
#[derive(Clone, Copy)]
pub(crate) struct Walk {
    pub(crate) at: [u16; 64],
    pub(crate) labels: [[u8; 64]; 64],
    ghost wide: { length at ≡ 64 },
    ghost high: { length labels ≡ 64 },
}

impl Walk {
    /// An empty row: every site has a label of its own.
    pub(crate) fn empty() -> Walk
        ensures { (u : ℕ) → u < 64 → slice_index (slice_index_or result.labels 0 []) u ≡ u }
    {
        let sites: [u8; 64] = array::from_fn(|u| u as u8);
        let mut labels = [[0; 64]; 64];
        labels[0] = sites;
        Walk {
            at: [0; 64],
            labels,
        }
    }
}
