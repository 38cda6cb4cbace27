//! The pair of any two weight kinds: the first side decides, and the second where the first sides are equal.

ghost use Rattle.std.specs.Prelude.{◌≡◌, max};
ghost use Rattle.weights.specs.PairLaws.{pairs_lawful};
ghost use Rattle.weights.specs.Weighings.{paired};
ghost use Rattle.std.proofs.Common.{rules};

use crate::kinds::WeightKind;

/// Two weights, the deciding one first.
#[derive(Clone, Copy, PartialEq, Eq, Debug)]
pub struct Pair<P, Q> {
    pub first: P,
    pub second: Q,
}

/// The totals of both sides. It has as many weights as its fuller side.
#[derive(Clone, Copy, PartialEq, Eq, Debug)]
pub struct PairTotal<A, B> {
    firsts: A,
    seconds: B,
}

impl<A: Copy, B: Copy> PairTotal<A, B> {
    /// The total of the first sides.
    pub fn first(&self) -> A
        ensures { result ≡ self.now.firsts }
    {
        self.firsts
    }

    /// The total of the second sides.
    pub fn second(&self) -> B
        ensures { result ≡ self.now.seconds }
    {
        self.seconds
    }
}

impl<P: WeightKind, Q: WeightKind> WeightKind for Pair<P, Q> {
    ghost weighing = { paired P.WeightKind.weighing Q.WeightKind.weighing };

    type Total = PairTotal<P::Total, Q::Total>;

    ghost held = { λ t. max (P.WeightKind.held t.firsts) (Q.WeightKind.held t.seconds) };

    ghost level = { λ t. (P.WeightKind.level t.firsts) × (Q.WeightKind.level t.seconds) × (P.WeightKind.held t.firsts ≡ Q.WeightKind.held t.seconds) };

    ghost sum = { λ t. (P.WeightKind.sum t.firsts, Q.WeightKind.sum t.seconds) };

    ghost lawful = { pairs_lawful _ _ P.WeightKind.lawful Q.WeightKind.lawful };

    ghost single = { Prim.search rules };

    ghost few = { Prim.search rules };

    fn at_most(&self, other: &Pair<P, Q>) -> bool {
        // By hand, since weights of a kind are ordered by their amounts on its scale alone, and no derived order says that.
        // Each further comparison is made only where it decides, or pairs of pairs would cost a power of their depth.
        if self.first.at_most(&other.first) && other.first.at_most(&self.first) {
            self.second.at_most(&other.second)
        } else {
            self.first.at_most(&other.first)
        }
    }

    fn zero() -> Pair<P, Q> {
        Pair {
            first: P::zero(),
            second: Q::zero(),
        }
    }

    fn nothing() -> PairTotal<P::Total, Q::Total> {
        PairTotal {
            firsts: P::nothing(),
            seconds: Q::nothing(),
        }
    }

    fn count(total: &PairTotal<P::Total, Q::Total>) -> u8 {
        P::count(&total.firsts).max(Q::count(&total.seconds))
    }

    fn add(total: &mut PairTotal<P::Total, Q::Total>, weight: Pair<P, Q>) {
        if P::count(&total.firsts) < 63 && Q::count(&total.seconds) < 63 {
            P::add(&mut total.firsts, weight.first);
            Q::add(&mut total.seconds, weight.second);
        }
    }

    fn total_at_most(
        first: &PairTotal<P::Total, Q::Total>,
        second: &PairTotal<P::Total, Q::Total>,
    ) -> bool {
        if P::total_at_most(&first.firsts, &second.firsts)
            && P::total_at_most(&second.firsts, &first.firsts)
        {
            Q::total_at_most(&first.seconds, &second.seconds)
        } else {
            P::total_at_most(&first.firsts, &second.firsts)
        }
    }
}
