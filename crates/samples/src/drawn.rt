//! What the samples are made of: links, pairs and the sample network.

ghost use Rattle.std.specs.Prelude.{◌≡◌, ℕ, List, [], ◌∷◌, map};

use networks::Link;
use weights::{Crossings, Metres, Pair};

/// A link of so many metres between two sites.
pub(crate) fn link(from: u8, to: u8, metres: u32) -> Link<Metres>
    ensures ends { (result.from ≡ from) × (result.to ≡ to) }
    ensures weighs { result.weight.0 ≡ metres }
{
    Link {
        from,
        to,
        weight: Metres(metres),
    }
}

/// The sample network of four sites and five links.
pub(crate) fn sample() -> [Link<Metres>; 5]
    ensures from { map (λ (link : Link Metres). link.from) result ≡ 0 ∷ 1 ∷ 0 ∷ 2 ∷ 1 ∷ [] }
    ensures to { map (λ (link : Link Metres). link.to) result ≡ 1 ∷ 2 ∷ 2 ∷ 3 ∷ 3 ∷ [] }
    ensures weighs { map (λ (link : Link Metres). link.weight.0) result ≡ 2 ∷ 2 ∷ 2 ∷ 1 ∷ 2 ∷ [] }
{
    [
        link(0, 1, 2),
        link(1, 2, 2),
        link(0, 2, 2),
        link(2, 3, 1),
        link(1, 3, 2),
    ]
}

/// So many crossings and metres.
pub(crate) fn pair(crossings: u16, metres: u32) -> Pair<Crossings, Metres>
    ensures first { result.first.0 ≡ crossings }
    ensures second { result.second.0 ≡ metres }
{
    Pair {
        first: Crossings(crossings),
        second: Metres(metres),
    }
}
