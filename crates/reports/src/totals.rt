//! The total of each row.

ghost use Rattle.reports.specs.Sinks.{PutOut};
ghost use Rattle.reports.specs.Totals.{total_text, TotalOf, EachOf};

use crate::shown::Shown;
use crate::sinks::Sink;
use networks::{Link, price};
use walks::Walk;
use weights::WeightKind;

/// The total of a row, if it has one.
fn total_of<K: WeightKind>(links: &[Link<K>], row: &[u16]) -> Option<K::Total>
    ensures { TotalOf K.WeightKind.weighing K.WeightKind.sum links.now row.now result }
{
    price(links, row).ok()
}

/// The total of each of so many rows, where the walk is on a row if there is one.
pub(crate) fn total_each<K: WeightKind>(walk: &Walk<K>, count: u32) -> Option<K::Total>
    ensures { EachOf K.WeightKind.weighing K.WeightKind.sum walk.now count result }
{
    if count == 0 {
        return None;
    }
    total_of(walk.network().links(), walk.row())
}

/// Puts the total of each row out, and a dash where there is none.
pub(crate) fn put_each<K: Shown, S: Sink>(total: Option<K::Total>, out: &mut S)
    ensures { PutOut S.Sink.took out.old (total_text K.Shown.text total) out.new }
{
    match total {
        Some(total) => K::put_total(total, out),
        None => out.put(b"-"),
    }
}
