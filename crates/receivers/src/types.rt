//! The tally with its count records, and how long the rows are that a receiver takes.

ghost use Rattle.std.specs.Prelude.{◌≡◌, ℕ, ◌≤◌, map, length, slice_index};

/// A row of more entries is not taken.
pub(crate) const MOST_ENTRIES: usize = 63;

/// How many link numbers there are.
pub(crate) const LINKS: usize = 512;

/// The count record of one link number.
#[derive(Clone, Copy)]
pub struct Count {
    /// How many rows had the link.
    pub(crate) times: u32,
    /// The number of the latest row that had the link, counted from 1; 0 where no row had it.
    // The product's form: 0 lies before every row, so one comparison says whether a row is yet to be counted here.
    pub(crate) last: u32,
}

/// A count of rows, and for each link number below 512 a count of the rows that had the link. It is made by `new`.
#[derive(Drop)]
pub struct Tally {
    pub(crate) rows: u32,
    pub(crate) links: [Count; LINKS],
    ghost all: { length links ≡ 512 },
    ghost counted: { (k : ℕ) → slice_index (map (λ c. c.times) links) k ≤ rows },
    ghost past: { (k : ℕ) → slice_index (map (λ c. c.last) links) k ≤ rows },
}
