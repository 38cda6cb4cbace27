//! Worked examples that follow from the definitions: each stands on a contract.

ghost use Rattle.std.specs.Prelude.{◌≡◌, true, false, Some};

use crate::drawn::{pair, sample};
use networks::price;
use weights::WeightKind;

/// Whether no crossings and 900 metres are at most one crossing and 10 metres, and whether these are at most those.
pub fn crossings_decide() -> (bool, bool)
    ensures { result ≡ (true, false) }
{
    let far = pair(0, 900);
    let near = pair(1, 10);
    (far.at_most(&near), near.at_most(&far))
}

/// The price of the row 0 1 4 in the sample network of four sites.
pub fn price_of_a_row() -> Option<u64>
    ensures { result ≡ Some 6 }
{
    price(&sample(), &[0, 1, 4])
        .ok()
        .map(|total| total.metres())
}
