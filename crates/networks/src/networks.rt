//! Networks: sites, links between them in a fixed numbering, and which of the links are closed.

ghost use Rattle.std.specs.Prelude.{◌≡◌, ℕ, ◌≤◌, true, take};
ghost use Rattle.networks.specs.Links.{sound};

use crate::closed::Closed;
use crate::links::Link;

/// A network of 1 to 64 sites and at most 512 links. It is made by `open`, and moves: whoever holds it has it alone.
#[derive(Drop)]
pub struct Network<K> {
    pub(crate) sites: u8,
    /// How many of the places below hold a link; the others hold nothing of meaning. No call allocates, so the places are
    /// fixed in number.
    pub(crate) count: usize,
    pub(crate) links: [Link<K>; 512],
    pub(crate) closed: Closed,
    ghost some: { 1 ≤ sites },
    ghost few: { sites ≤ 64 },
    ghost room: { count ≤ 512 },
    ghost ends: { sound sites (take count links) ≡ true },
}
