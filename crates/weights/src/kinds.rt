//! The trait of weight kinds.

ghost use Rattle.std.specs.Prelude.{◌≡◌, ℕ, ◌+◌, ◌<◌, ◌≤◌};
ghost use Rattle.weights.specs.Scales.{Weighing, Lawful};

/// A weight kind: each weight has an amount on the kind's scale, and the kind brings a total that holds the sum of
/// up to 63 weights exactly.
pub trait WeightKind: Copy {
    /// What a weight means.
    ghost weighing: { Weighing Self };

    /// The sum of up to 63 weights, and how many they are.
    type Total: Copy;

    /// How many weights a total has.
    ghost held: { Self.Total → ℕ };

    /// The sum of their amounts.
    ghost sum: { Self.Total → weighing.scale.Amount };

    /// A total that is made of weights added one by one: those of a pair then have as many on either side.
    ghost level: { Self.Total → Type 0 };

    /// Whether this weight's amount is at most the other's.
    fn at_most(&self, other: &Self) -> bool
        ensures { result ≡ weighing.scale.le (weighing.amount self.now) (weighing.amount other.now) };

    /// The weight that adds nothing.
    fn zero() -> Self
        ensures { weighing.amount result ≡ weighing.scale.zero };

    /// The total of no weights.
    fn nothing() -> Self::Total
        ensures held { held result ≡ 0 }
        ensures sum { sum result ≡ weighing.scale.zero }
        ensures level { level result };

    /// How many weights were added.
    fn count(total: &Self::Total) -> u8
        ensures { result ≡ held total.now };

    /// Adds a weight; a 64th leaves the total unaltered.
    fn add(total: &mut Self::Total, weight: Self)
        ensures counts { held total.old < 63 → held total.new ≡ held total.old + 1 }
        ensures adds { held total.old < 63 → sum total.new ≡ weighing.scale.add (sum total.old) (weighing.amount weight) }
        ensures level { level total.old → level total.new }
        ensures full { 63 ≤ held total.old → total.new ≡ total.old };

    /// Whether the first total is at most the second, by their sums alone.
    fn total_at_most(first: &Self::Total, second: &Self::Total) -> bool
        ensures { result ≡ weighing.scale.le (sum first.now) (sum second.now) };

    ghost lawful: { Lawful weighing.scale };

    /// Two weights of one amount are the same weight.
    ghost single: { (x y : Self) → weighing.amount x ≡ weighing.amount y → x ≡ y };

    ghost few: { (t : Self.Total) → held t ≤ 63 };
}
