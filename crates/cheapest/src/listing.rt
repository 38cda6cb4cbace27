//! Reading the candidates out of a plan.

ghost use Rattle.std.specs.Prelude.{◌≡◌};

use crate::candidates::{Candidate, Candidates};
use crate::plan::Plan;

/// The plan with its candidates read out.
pub(crate) fn list_candidates(plan: Plan) -> Candidates
    ensures { result.plan ≡ plan }
{
    let none = Candidate {
        number: 0,
        start: 0,
        end: 0,
        class: 0,
    };
    let mut items = [none; 512];
    let mut count = 0;
    // Counted by hand, since the places are an array, which no filter fills.
    for number in &plan.order[..plan.count] {
        let link = plan.links[*number as usize];
        if link.usable {
            items[count] = Candidate {
                number: *number,
                start: link.from,
                end: link.to,
                class: link.mark,
            };
            count += 1;
        }
    }
    Candidates { plan, count, items }
}
