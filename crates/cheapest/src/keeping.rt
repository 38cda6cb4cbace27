//! Keeping the place of a walk.

ghost use Rattle.std.specs.Prelude.{◌≡◌};
ghost use Rattle.cheapest.specs.Kept.{kept_on, kept_row};
ghost use Rattle.cheapest.specs.Positions.{is_on, row_of};

use crate::enumeration::Rows;
use crate::kept::{Kept, Links};

impl Kept {
    /// Whether the walk was on a row.
    pub fn is_on(&self) -> bool
        ensures { result ≡ kept_on self.now }
    {
        self.row.is_some()
    }

    /// The row that the walk was on, in link numbers; before the list it is empty.
    pub fn row(&self) -> &[u16]
        ensures { result.now ≡ kept_row self.now }
    {
        match &self.row {
            Some(links) => &links.numbers[0..links.size],
            None => &[],
        }
    }
}

impl Rows {
    /// The place of the walk, copied.
    pub fn kept(&self) -> Kept
        ensures on { kept_on result ≡ is_on self.now }
        ensures row { kept_row result ≡ row_of self.now }
    {
        if !self.on {
            return Kept { row: None };
        }
        let links = Links {
            numbers: self.row,
            size: self.size,
        };
        Kept { row: Some(links) }
    }
}
