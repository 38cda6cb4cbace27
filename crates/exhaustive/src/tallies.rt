//! How much was compared, and how much of it differed.

ghost use Rattle.std.specs.Prelude.{◌≡◌, ℕ, ◌+◌, ◌-◌, ◌*◌, ◌^◌, ◌≤◌, min};

use std::ops::AddAssign;

/// Counts of what was compared. A network has three counts, and at most four classes and five trials.
#[derive(Clone, Copy)]
pub struct Tally {
    pub networks: u32,
    pub classes: u32,
    pub counts: u32,
    pub trials: u32,
    pub different: u32,
    ghost within: { different ≤ networks * 12 },
}

impl AddAssign for Tally {
    ghost add_assign_gives = { λ a b r. r.networks ≡ min (a.networks + b.networks) (2 ^ 32 - 1) };

    fn add_assign(&mut self, other: Tally) {
        *self = Tally {
            networks: self.networks.saturating_add(other.networks),
            classes: self.classes.saturating_add(other.classes),
            counts: self.counts.saturating_add(other.counts),
            trials: self.trials.saturating_add(other.trials),
            different: self.different.saturating_add(other.different),
        };
    }
}
