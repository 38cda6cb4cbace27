//! The text writer: it writes a line for each row into passed bytes.

ghost use Rattle.std.specs.Prelude.{◌≡◌, ℕ, ◌≤◌, List, [], ◌∷◌, length};
ghost use Rattle.receivers.specs.Writing.{line_of, writing, ShortRow};
ghost use Rattle.receivers.specs.Places.{room_in, held_in, spare_in};

use crate::places::Places;
use crate::receiver::Receiver;
use crate::row_line::{LONGEST_LINE, row_line};
use crate::types::MOST_ENTRIES;

/// Lines written into passed bytes.
pub type TextWriter<'a> = Places<'a, u8>;

/// How many places suffice for the line of any row of at most 63 entries, so that a text writer that holds nothing
/// takes it.
#[tactic(auto, using(crate::proofs::Lines::line_short))]
pub fn longest_line() -> usize
    ensures value { result ≡ 378 }
    ensures fits { (row : List ℕ) → ShortRow row → length (line_of row) ≤ result }
{
    LONGEST_LINE
}

impl Receiver for TextWriter<'_> {
    ghost held = { held_in };

    ghost rule = { λ w. writing (room_in w) };

    ghost spare = { spare_in };

    ghost lender = { λ w. w.cells.ghost_name ∷ [] };

    fn asks(&self, row: &[u16]) -> bool {
        if row.len() > MOST_ENTRIES {
            return false;
        }
        let line = row_line(row);
        self.fits(line.as_slice().len())
    }

    fn take(&mut self, row: &[u16]) -> bool {
        if row.len() > MOST_ENTRIES {
            return false;
        }
        let line = row_line(row);
        let line = line.as_slice();
        if !self.fits(line.len()) {
            return false;
        }
        self.append(line);
        true
    }
}
