//! The candidates of a plan: its usable links in rank order.

ghost use Rattle.std.specs.Prelude.{◌≡◌, ℕ, ◌<◌, ◌≤◌, length, slice_index};
ghost use Rattle.cheapest.specs.Places.{link_at, candidate_at};
ghost use Rattle.cheapest.specs.Plans.{mark_of, ranked_of};

use crate::plan::Plan;

/// A usable link, read out of a plan.
#[derive(Clone, Copy)]
pub(crate) struct Candidate {
    pub(crate) number: u16,
    /// The two ends.
    pub(crate) start: u8,
    pub(crate) end: u8,
    /// The mark.
    pub(crate) class: u16,
}

/// A plan with its usable links in rank order, read out so that a run over them touches few places.
#[derive(Clone, Copy)]
pub(crate) struct Candidates {
    pub(crate) plan: Plan,
    /// How many candidates there are; the places past them hold nothing of meaning.
    // No call allocates, so the places are fixed in number; a type of its own for places with their count could not derive
    // its copying.
    pub(crate) count: usize,
    pub(crate) items: [Candidate; 512],
    ghost room: { count ≤ 512 },
    ghost all: { count ≡ length (ranked_of plan) },
    ghost numbers: { (c : ℕ) → c < count → (candidate_at items c).number ≡ slice_index (ranked_of plan) c },
    ghost starts: { (c : ℕ) → c < count → (candidate_at items c).start ≡ (link_at plan.links (candidate_at items c).number).from },
    ghost ends: { (c : ℕ) → c < count → (candidate_at items c).end ≡ (link_at plan.links (candidate_at items c).number).to },
    ghost classes: { (c : ℕ) → c < count → (candidate_at items c).class ≡ mark_of plan (candidate_at items c).number },
    ghost startfits: { (c : ℕ) → c < count → (candidate_at items c).start < 64 },
    ghost endfits: { (c : ℕ) → c < count → (candidate_at items c).end < 64 },
}
