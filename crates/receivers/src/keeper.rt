//! The keeper: it writes rows into a passed list, each as its length and then its entries.

ghost use Rattle.std.specs.Prelude.{◌≡◌, true, [], ◌∷◌, ◌++◌, length};
ghost use Rattle.receivers.specs.Rules.{EndOf};
ghost use Rattle.receivers.specs.Keeping.{kept_row, keepable, keeping};
ghost use Rattle.receivers.specs.Places.{room_in, held_in, spare_in};

use crate::places::Places;
use crate::receiver::Receiver;
use crate::types::MOST_ENTRIES;

/// Rows kept in a passed list of 16-bit numbers.
pub type Keeper<'a> = Places<'a, u16>;

impl Receiver for Keeper<'_> {
    ghost held = { held_in };

    ghost rule = { λ k. keeping (room_in k) };

    ghost spare = { spare_in };

    ghost lender = { λ k. k.cells.ghost_name ∷ [] };

    fn asks(&self, row: &[u16]) -> bool {
        row.len() <= MOST_ENTRIES && self.fits(row.len() + 1)
    }

    fn take(&mut self, row: &[u16]) -> bool {
        if !self.asks(row) {
            return false;
        }
        self.append(&[row.len() as u16]);
        self.append(row);
        true
    }
}
