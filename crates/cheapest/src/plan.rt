//! Plans: a graph with a mark on every link, and its links in rank order.

ghost use Rattle.std.specs.Prelude.{◌≡◌, ℕ, ◌<◌, ◌≤◌, length, slice_index};
ghost use Rattle.weights.specs.Amounts.{numbers};
ghost use Rattle.cheapest.specs.Places.{link_at};
ghost use Rattle.cheapest.specs.Ranks.{rank_of};

/// A link of a plan.
#[derive(Clone, Copy, PartialEq, Eq, Debug)]
pub struct PlanLink {
    /// The two ends.
    pub from: u8,
    pub to: u8,
    /// Compares with other links' marks as the weights do.
    pub mark: u16,
    /// Whether the link may be chosen.
    pub usable: bool,
}

/// A graph of at most 64 sites and 512 links, with a mark on every link. Marks are numbers that compare
/// as the links' weights do; whoever makes a plan has to show that its links run between its sites, and
/// that `order` ranks them by their marks. Places past `count` hold nothing of meaning.
#[derive(Clone, Copy)]
pub struct Plan {
    pub sites: u8,
    /// How many links there are.
    // No call allocates, so the places are fixed in number; the count is that of both arrays, so neither holds it alone.
    pub count: usize,
    /// The links, by number.
    pub links: [PlanLink; 512],
    /// The numbers of the links in rank order.
    pub order: [u16; 512],
    ghost few: { sites ≤ 64 },
    ghost room: { count ≤ 512 },
    ghost wide: { length order ≡ 512 },
    ghost widelinks: { length links ≡ 512 },
    ghost starts: { (e : ℕ) → e < count → (link_at links e).from < sites },
    ghost ends: { (e : ℕ) → e < count → (link_at links e).to < sites },
    ghost inside: { (k : ℕ) → k < count → slice_index order k < count },
    ghost ranks: { (k : ℕ) → k < count → rank_of numbers (λ e. (link_at links e).mark) count (slice_index order k) ≡ k },
}
