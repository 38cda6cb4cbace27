//! Copies of what the candidates of a row say, and comparisons with it.

ghost use Rattle.std.specs.Prelude.{◌≡◌, ℕ, ◌<◌, ◌≤◌, length, Decides, slice_index};
ghost use Rattle.cheapest.specs.Places.{candidate_at};
ghost use Rattle.cheapest.specs.Plans.{mark_of};

use crate::candidates::{Candidate, Candidates};
use crate::plan::Plan;

/// Writes what is asked of the row's candidates from place `i` up to place `n`.
pub(crate) fn read_row<F: Fn(Candidate) -> u16>(
    list: &Candidates,
    at: &[u16; 64],
    i: usize,
    n: usize,
    out: &mut [u16; 64],
    ask: F,
)
    requires few { n ≤ 64 }
    requires inside { (j : ℕ) → j < n → slice_index at.now j < 512 }
    requires callable { F.IsAlwaysCallable ask }
    ensures len { length out.new ≡ 64 }
    ensures keeps { (j : ℕ) → j < i → slice_index out.new j ≡ slice_index out.old j }
    ensures writes { (j : ℕ) → (i ≤ j) × (j < n) → F.post ask (candidate_at list.now.items (slice_index at.now j)) (slice_index out.new j) }
{
    // By index: after a zip with iter_mut the proof would know nothing of what was written.
    for j in i..n {
        out[j] = ask(list.items[at[j] as usize]);
    }
}

/// Whether the marks of the links are the wanted ones, place by place.
pub(crate) fn has_marks<'a>(plan: &'a Plan, numbers: &'a [u16], wanted: &'a [u16; 64]) -> bool
    requires { length numbers.now ≤ 64 }
    ensures { Decides result ((j : ℕ) → j < length numbers.now → (slice_index numbers.now j < 512) × (mark_of plan.now (slice_index numbers.now j) ≡ slice_index wanted.now j)) }
{
    numbers.iter().zip(wanted).all(|(link, want)| {
        let link = plan.links.get(*link as usize);
        link.is_some_and(|link| link.mark == *want)
    })
}
