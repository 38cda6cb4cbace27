//! The trait of receivers.

ghost use Rattle.std.specs.Prelude.{◌≡◌, ℕ, List};
ghost use Rattle.std.specs.Borrow.{GName};
ghost use Rattle.receivers.specs.Rules.{Rule, takes, held_after, Serves};

/// What rows are offered to. What a receiver does with a row follows from what it holds and the row alone, by a taking
/// rule that no call alters.
pub trait Receiver {
    /// What it holds.
    ghost held: { Self → List ℕ };

    /// Its taking rule: what is held afterwards if the row is taken.
    ghost rule: { Self → Rule };

    /// The places that it was lent and has not used, as they stand.
    ghost spare: { Self → List ℕ };

    /// Which places it was lent.
    ghost lender: { Self → List GName };

    /// Whether the rule takes this row.
    fn asks(&self, row: &[u16]) -> bool
        ensures { result ≡ takes (rule self.now) (held self.now) row.now };

    /// Takes the row if the rule does, and answers whether it does. A row that is not taken alters nothing.
    fn take(&mut self, row: &[u16]) -> bool
        ensures answers { result ≡ takes (rule self.old) (held self.old) row.now }
        ensures held { held self.new ≡ held_after (rule self.old) (held self.old) row.now }
        ensures serves { Serves rule spare lender self.old self.new };
}
