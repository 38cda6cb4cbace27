//! The networks that are gone over.

ghost use Rattle.std.specs.Prelude.{◌≡◌, ℕ, ◌^◌, ◌<◌, ◌≤◌, bit_or};
ghost use Rattle.arrayvec.specs.ArrayVec.{array_vec_len};
ghost use Rattle.exhaustive.specs.Sets.{has};

use arrayvec::ArrayVec;
use networks::Link;
use weights::Metres;

/// A link of a network. Links are ordered by rank: by their metres, and by their numbers where these are equal.
#[derive(Clone, Copy, PartialEq, Eq, PartialOrd, Ord)]
pub struct Drawn {
    pub metres: u8,
    pub number: u8,
    pub from: u8,
    pub to: u8,
    ghost few: { number < 4 },
    ghost near: { from < 4 },
    ghost far: { to < 4 },
}

impl Drawn {
    /// This link with another number.
    pub(crate) fn numbered(self, number: u8) -> Drawn
        requires { number < 4 }
        ensures numbers { result.number ≡ number }
        ensures weighs { result.metres ≡ self.metres }
        ensures ends { (result.from ≡ self.from) × (result.to ≡ self.to) }
    {
        Drawn {
            metres: self.metres,
            number,
            from: self.from,
            to: self.to,
        }
    }

    /// The record of the link.
    pub(crate) fn record(&self) -> Link<Metres>
        ensures ends { (result.from ≡ self.now.from) × (result.to ≡ self.now.to) }
        ensures weighs { result.weight.0 ≡ self.now.metres }
    {
        Link {
            from: self.from,
            to: self.to,
            weight: Metres(u32::from(self.metres)),
        }
    }

    /// Whether the link is in the set.
    pub(crate) fn is_in(&self, set: u8) -> bool
        ensures { result ≡ has set self.now.number }
    {
        set >> self.number & 1 == 1
    }

    /// The two sites of the link, as a set.
    pub(crate) fn ends(&self) -> u8
        ensures { result ≡ bit_or (2 ^ self.now.from) (2 ^ self.now.to) }
    {
        1 << self.from | 1 << self.to
    }
}

/// What stands in the places of a list that hold no link.
impl Default for Drawn {
    fn default() -> Self {
        Drawn {
            metres: 0,
            number: 0,
            from: 0,
            to: 0,
        }
    }
}

/// A network of 1 to 4 sites and at most 4 links.
#[derive(Drop)]
pub struct Case {
    pub sites: u8,
    pub links: ArrayVec<Drawn, 4>,
    ghost some: { 1 ≤ sites },
    ghost few: { sites ≤ 4 },
    ghost room: { array_vec_len links ≤ 4 },
}
