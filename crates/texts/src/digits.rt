//! Numbers written in decimal.

ghost use Rattle.std.specs.Prelude.{◌≡◌, decimal};
ghost use Rattle.texts.specs.Digits.{digits_of};

use crate::types::{Digits, MOST_DIGITS};
use itoa::write_digits;

impl Digits {
    /// The digits of a number, with no zero before them; the digit 0 for the number 0.
    #[tactic(auto, using(crate::proofs::Lengths::digits_fit))]
    pub fn of(n: u64) -> Digits
        ensures { digits_of result ≡ decimal n }
    {
        let mut places = [0; MOST_DIGITS];
        let start = write_digits(n, &mut places, MOST_DIGITS);
        Digits { places, start }
    }

    /// The digits, the first one first.
    pub fn as_slice(&self) -> &[u8]
        ensures { result.now ≡ digits_of self.now }
    {
        &self.places[self.start..]
    }
}
