//! Single steps through rows, told by the full list.

ghost use Rattle.std.specs.Prelude.{◌≡◌, ℕ, ◌+◌, ◌-◌, ◌≤◌, List, ◌++◌, length, drop};
ghost use Rattle.forests.specs.Graphs.{SitesJoined};
ghost use Rattle.cheapest.specs.Plans.{graph_of};
ghost use Rattle.cheapest.specs.Positions.{plan_of};
ghost use Rattle.networks.specs.Refusals.{refusal_of};
ghost use Rattle.walks.specs.Doing.{NextDoes, SeekDoes};
ghost use Rattle.walks.specs.Walks.{place_in, ListedBy};

use cheapest::Rows;
use networks::Refusal;

/// Writes the row into the first places of the list.
fn write_row(row: &[u16], list: &mut [u16])
    requires { length row.now ≤ length list.old }
    ensures { list.new ≡ row.now ++ drop (length row.now) list.old }
{
    list[..row.len()].copy_from_slice(row);
}

/// Moves to the row that follows and writes it into the list, which has room for it.
pub(crate) fn next_row(rows: &mut Rows, list: &mut [u16]) -> Result<(), Refusal>
    requires { (plan_of rows.old).sites ≤ length list.old + 1 }
    ensures plan { plan_of rows.new ≡ plan_of rows.old }
    ensures does { (L : List (List ℕ)) → ListedBy (plan_of rows.old) L → NextDoes L ((plan_of rows.old).sites - 1) (SitesJoined (graph_of (plan_of rows.old))) (place_in rows.old) list.old list.new (refusal_of result) (place_in rows.new) }
{
    if !rows.joined() {
        return Err(Refusal::NotJoined);
    }
    if !rows.advance() {
        return Err(Refusal::NoRowFollows);
    }
    write_row(rows.row(), list);
    Ok(())
}

/// Moves to the row, if it is in the full list.
pub(crate) fn seek_row(rows: &mut Rows, row: &[u16]) -> Result<(), Refusal>
    ensures plan { plan_of rows.new ≡ plan_of rows.old }
    ensures does { (L : List (List ℕ)) → ListedBy (plan_of rows.old) L → SeekDoes L (place_in rows.old) row.now (refusal_of result) (place_in rows.new) }
{
    if rows.seek(row) {
        Ok(())
    } else {
        Err(Refusal::NotListed)
    }
}
