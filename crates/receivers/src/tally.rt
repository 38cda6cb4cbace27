//! The tally: how many rows were taken, and how many of them had each link.

ghost use Rattle.std.specs.Prelude.{◌≡◌, ℕ, ◌+◌, ◌<◌, ◌≤◌, true, [], ◌∷◌, map, length, replicate, slice_index, slice_set};
ghost use Rattle.std.specs.List.{range_with_len};
ghost use Rattle.receivers.specs.Tallying.{all_links, countable, count_after, rows_in, times_in, tallying};
ghost use Rattle.receivers.specs.Tallies.{counts_of, lasts_of, once_more, tallied};

use crate::receiver::Receiver;
use crate::types::{Count, LINKS, MOST_ENTRIES, Tally};

/// Whether every entry is a link number.
fn links_only(row: &[u16]) -> bool
    ensures { result ≡ all_links row.now }
{
    row.iter().all(|link| (*link as usize) < LINKS)
}

/// The count record once the row of this number counts there, which it does once.
fn noted(count: Count, row: u32) -> Count
    requires { count.last < row → count.times < row }
    ensures times { result.times ≡ once_more row count.last count.times }
    ensures last { result.last ≡ row }
{
    let times = if count.last < row {
        count.times + 1
    } else {
        count.times
    };
    Count { times, last: row }
}

impl Tally {
    /// The tally of no rows.
    pub fn new() -> Tally
        ensures { tallied result ≡ 0 ∷ replicate 512 0 }
    {
        Tally {
            rows: 0,
            links: [Count { times: 0, last: 0 }; LINKS],
        }
    }

    /// How many rows were taken.
    pub fn rows(&self) -> u32
        ensures { result ≡ rows_in (tallied self.now) }
    {
        self.rows
    }

    /// How many of them had this link; none had a number of 512 or more.
    // The product's form: such a number is answered by 0, and not refused, since no row that was taken has it.
    pub fn times(&self, link: u16) -> u32
        ensures value { result ≡ times_in (tallied self.now) link }
        ensures few { result ≤ rows_in (tallied self.now) }
    {
        self.count_at(link as usize)
    }

    /// The count at this place, 0 past the last.
    fn count_at(&self, place: usize) -> u32
        ensures { result ≡ slice_index (counts_of self.now) place }
    {
        match self.links.get(place) {
            Some(count) => count.times,
            None => 0,
        }
    }

    /// Counts the link for the latest row, unless it was counted for it before.
    fn note(&mut self, link: usize)
        requires inside { link < LINKS }
        requires room { slice_index (lasts_of self.old) link < self.old.rows → slice_index (counts_of self.old) link < self.old.rows }
        ensures rows { self.new.rows ≡ self.old.rows }
        ensures lasts { lasts_of self.new ≡ slice_set (lasts_of self.old) link self.old.rows }
        ensures counts { counts_of self.new ≡ slice_set (counts_of self.old) link (once_more self.old.rows (slice_index (lasts_of self.old) link) (slice_index (counts_of self.old) link)) }
    {
        let count = noted(self.links[link], self.rows);
        self.links[link] = count;
    }

    /// Counts each link of the latest row.
    fn note_all(&mut self, row: &[u16])
        requires links { all_links row.now ≡ true }
        requires room { (k : ℕ) → (slice_index (lasts_of self.old) k < self.old.rows) × (slice_index (counts_of self.old) k < self.old.rows) }
        ensures rows { self.new.rows ≡ self.old.rows }
        ensures counts { counts_of self.new ≡ map (count_after (counts_of self.old) row.now) (range_with_len 0 (length (counts_of self.old))) }
    {
        for link in row {
            self.note(*link as usize);
        }
    }
}

impl Receiver for Tally {
    ghost held = { tallied };

    ghost rule = { λ _. tallying };

    ghost spare = { λ _. [] };

    ghost lender = { λ _. [] };

    fn asks(&self, row: &[u16]) -> bool {
        row.len() <= MOST_ENTRIES && self.rows < u32::MAX && links_only(row)
    }

    fn take(&mut self, row: &[u16]) -> bool {
        if !self.asks(row) {
            return false;
        }
        self.rows += 1;
        self.note_all(row);
        true
    }
}
