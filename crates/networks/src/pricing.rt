//! The price of a row: the total of its links' weights.

ghost use Rattle.std.specs.Prelude.{◌≡◌, ℕ, ◌<◌, map, length, IfOk, OnOk};
ghost use Rattle.weights.specs.Scales.{sum_of};
ghost use Rattle.networks.specs.Links.{weight_of};
ghost use Rattle.networks.specs.Pricing.{price_rules, Priced, PricingLaws};
ghost use Rattle.networks.specs.Refusals.{refusal_of, first_of};

use crate::links::Link;
use crate::refusals::Refusal;
use weights::WeightKind;

/// The total of the weights of a row's links, from the records. The row may be any list of up to 63 of their numbers,
/// in any order, repeats too.
pub fn price<K: WeightKind>(links: &[Link<K>], row: &[u16]) -> Result<K::Total, Refusal>
    ensures refuses { refusal_of result ≡ first_of (price_rules (length links.now) 0 row.now) }
    ensures sums { IfOk result (λ t. K.WeightKind.sum t ≡ sum_of K.WeightKind.weighing.scale (map (weight_of K.WeightKind.weighing links.now) row.now)) }
    ensures counts { IfOk result (λ t. K.WeightKind.held t ≡ length row.now) }
    ensures level { IfOk result (λ t. K.WeightKind.level t) }
{
    check_row(links.len(), row)?;
    Ok(sum_row(links, row))
}

/// Refuses the first entry that is none of so many records' numbers, or a 64th.
fn check_row(records: usize, row: &[u16]) -> Result<(), Refusal>
    ensures refuses { refusal_of result ≡ first_of (price_rules records 0 row.now) }
    ensures good { OnOk result ((k : ℕ) → k < length row.now → Priced records row.now k) }
{
    for (index, entry) in row.iter().enumerate() {
        let link = *entry as usize;
        if index >= 63 || link >= records {
            return Err(Refusal::BadEntry(index));
        }
    }
    Ok(())
}

/// The total of the weights of a row that has a price.
fn sum_row<K: WeightKind>(links: &[Link<K>], row: &[u16]) -> K::Total
    requires { (k : ℕ) → k < length row.now → Priced (length links.now) row.now k }
    ensures sums { K.WeightKind.sum result ≡ sum_of K.WeightKind.weighing.scale (map (weight_of K.WeightKind.weighing links.now) row.now) }
    ensures counts { K.WeightKind.held result ≡ length row.now }
    ensures level { K.WeightKind.level result }
{
    let mut total = K::nothing();
    for entry in row {
        K::add(&mut total, links[*entry as usize].weight);
    }
    total
}

/// The rules of a price refuse nothing but what is wrong, and of faulty entries the first.
fn pricing_rules_stand()
    ensures { PricingLaws }
{}
