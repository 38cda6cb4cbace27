//! Metres of trench: 32-bit numbers with a 64-bit total.

ghost use Rattle.std.specs.Prelude.{◌≡◌};
ghost use Rattle.weights.specs.Weighings.{by_metres};
ghost use Rattle.std.proofs.Common.{rules};

use crate::kinds::WeightKind;
use crate::measures::{Measure, Total};

/// A length in metres.
#[derive(Clone, Copy, PartialEq, Eq, Debug)]
pub struct Metres(pub u32);

/// The sum of up to 63 lengths.
pub type MetresTotal = Total<Metres>;

impl Total<Metres> {
    /// The sum in metres.
    pub fn metres(&self) -> u64
        ensures { result ≡ self.now.sum }
    {
        self.sum()
    }
}

impl Measure for Metres {
    ghost value = { λ w. w.0 };

    ghost most = { 4294967295 };

    ghost apart = { Prim.search rules };

    ghost narrow = { Prim.search rules };

    fn number(&self) -> u32 {
        self.0
    }

    fn least() -> Metres {
        Metres(0)
    }
}

// Not one implementation for every measure: that would fit a pair too, as far as the check can tell, and then no type
// of a caller whose ghost fields speak of its kind could be proved for pairs. What is more than a line is written once,
// for totals.
impl WeightKind for Metres {
    ghost weighing = { by_metres };

    type Total = Total<Metres>;

    ghost held = { λ t. t.count };

    ghost level = { λ _. Unit {0} };

    ghost sum = { λ t. t.sum };

    ghost lawful = { Prim.search rules };

    ghost single = { Prim.search rules };

    ghost few = { Prim.search rules };

    fn at_most(&self, other: &Metres) -> bool {
        self.0 <= other.0
    }

    fn zero() -> Metres {
        Metres::least()
    }

    fn nothing() -> Total<Metres> {
        Total::nothing()
    }

    fn count(total: &Total<Metres>) -> u8 {
        total.count()
    }

    fn add(total: &mut Total<Metres>, weight: Metres) {
        total.add(weight);
    }

    fn total_at_most(first: &Total<Metres>, second: &Total<Metres>) -> bool {
        first.sum() <= second.sum()
    }
}
