//! Pouring rows into a receiver.

ghost use Rattle.std.specs.Prelude.{◌≡◌, ℕ, true, false, List};
ghost use Rattle.forests.specs.Graphs.{SitesJoined};
ghost use Rattle.cheapest.specs.Kept.{kept_on, kept_row};
ghost use Rattle.cheapest.specs.Plans.{graph_of};
ghost use Rattle.cheapest.specs.Positions.{plan_of, is_on, row_of, CheapestIn};
ghost use Rattle.receivers.specs.Rules.{Serves};
ghost use Rattle.walks.specs.Doing.{OfferDoes, PourDoes};
ghost use Rattle.walks.specs.Letters.{letter_of};
ghost use Rattle.walks.specs.Walks.{place_in, ListedBy};

use crate::endings::Ending;
use cheapest::{Kept, Rows};
use receivers::Receiver;

/// Goes back to the place that was kept.
fn go_back(rows: &mut Rows, kept: &Kept)
    requires { kept_on kept.now ≡ true → CheapestIn (plan_of rows.old) (kept_row kept.now) }
    ensures plan { plan_of rows.new ≡ plan_of rows.old }
    ensures on { is_on rows.new ≡ kept_on kept.now }
    ensures row { kept_on kept.now ≡ true → row_of rows.new ≡ kept_row kept.now }
{
    if kept.is_on() {
        rows.seek(kept.row());
    } else {
        rows.restart();
    }
}

/// Offers the row that follows to the receiver, and moves on if it is taken. Answers why no row could be
/// given; then the walk and the receiver are as before.
fn offer<R: Receiver>(rows: &mut Rows, receiver: &mut R) -> Result<(), Ending>
    ensures plan { plan_of rows.new ≡ plan_of rows.old }
    ensures does { (L : List (List ℕ)) → ListedBy (plan_of rows.old) L → OfferDoes L (SitesJoined (graph_of (plan_of rows.old))) (R.Receiver.rule receiver.old) (place_in rows.old) (R.Receiver.held receiver.old) result (place_in rows.new) (R.Receiver.held receiver.new) }
    ensures serves { Serves R.Receiver.rule R.Receiver.spare R.Receiver.lender receiver.old receiver.new }
{
    if !rows.joined() {
        return Err(Ending::NotJoined);
    }
    let kept = rows.kept();
    if !rows.advance() {
        return Err(Ending::NoneFollows);
    }
    if receiver.take(rows.row()) {
        return Ok(());
    }
    go_back(rows, &kept);
    Err(Ending::NotTaken)
}

/// Offers the row that follows again and again, until so many are taken or a reason ends it. Answers how many
/// were taken, and why it ended.
pub(crate) fn pour_rows<R: Receiver>(rows: &mut Rows, receiver: &mut R, limit: u32) -> (u32, Ending)
    ensures plan { plan_of rows.new ≡ plan_of rows.old }
    ensures does { (L : List (List ℕ)) → ListedBy (plan_of rows.old) L → PourDoes L (SitesJoined (graph_of (plan_of rows.old))) (R.Receiver.rule receiver.old) (place_in rows.old) (R.Receiver.held receiver.old) limit result.0 (letter_of result.1) (place_in rows.new) (R.Receiver.held receiver.new) }
    ensures serves { Serves R.Receiver.rule R.Receiver.spare R.Receiver.lender receiver.old receiver.new }
{
    for count in 0..limit {
        if let Err(ending) = offer(rows, receiver) {
            return (count, ending);
        }
    }
    (limit, Ending::LimitReached)
}
