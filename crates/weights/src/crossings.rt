//! Street crossings: 16-bit numbers, whose total is given out in 32 bits.

ghost use Rattle.std.specs.Prelude.{◌≡◌};
ghost use Rattle.weights.specs.Weighings.{by_crossings};
ghost use Rattle.std.proofs.Common.{rules};

use crate::kinds::WeightKind;
use crate::measures::{Measure, Total};

/// A number of crossings.
#[derive(Clone, Copy, PartialEq, Eq, Debug)]
pub struct Crossings(pub u16);

/// The sum of up to 63 such numbers.
pub type CrossingsTotal = Total<Crossings>;

impl Total<Crossings> {
    /// The sum in crossings.
    pub fn crossings(&self) -> u32
        ensures { result ≡ self.now.sum }
    {
        self.sum() as u32
    }
}

impl Measure for Crossings {
    ghost value = { λ w. w.0 };

    ghost most = { 65535 };

    ghost apart = { Prim.search rules };

    ghost narrow = { Prim.search rules };

    fn number(&self) -> u32 {
        u32::from(self.0)
    }

    fn least() -> Crossings {
        Crossings(0)
    }
}

// Not one implementation for every measure: that would fit a pair too, as far as the check can tell, and then no type
// of a caller whose ghost fields speak of its kind could be proved for pairs. What is more than a line is written once,
// for totals.
impl WeightKind for Crossings {
    ghost weighing = { by_crossings };

    type Total = Total<Crossings>;

    ghost held = { λ t. t.count };

    ghost level = { λ _. Unit {0} };

    ghost sum = { λ t. t.sum };

    ghost lawful = { Prim.search rules };

    ghost single = { Prim.search rules };

    ghost few = { Prim.search rules };

    fn at_most(&self, other: &Crossings) -> bool {
        self.0 <= other.0
    }

    fn zero() -> Crossings {
        Crossings::least()
    }

    fn nothing() -> Total<Crossings> {
        Total::nothing()
    }

    fn count(total: &Total<Crossings>) -> u8 {
        total.count()
    }

    fn add(total: &mut Total<Crossings>, weight: Crossings) {
        total.add(weight);
    }

    fn total_at_most(first: &Total<Crossings>, second: &Total<Crossings>) -> bool {
        first.sum() <= second.sum()
    }
}
