//! Substitutes for a link of the walk's row.

ghost use Rattle.std.specs.Prelude.{◌≡◌, true, IfOk, OnOk};
ghost use Rattle.forests.specs.Lists.{In};
ghost use Rattle.networks.specs.Networks.{network_graph, weights_of};
ghost use Rattle.networks.specs.Refusals.{refusal_of};
ghost use Rattle.cheapest.specs.Positions.{is_on};
ghost use Rattle.walks.specs.Substitutes.{Answers, AskedFor};
ghost use Rattle.walks.specs.Walks.{network_of, place_in, place_of, row_at, Begun};

use crate::walks::Walk;
use cheapest::Rows;
use networks::Refusal;
use weights::WeightKind;

/// Refuses a question before the walk is on a row, and for a link that is not in the row.
fn check_link(rows: &Rows, link: u16) -> Result<(), Refusal>
    ensures refuses { AskedFor (place_in rows.now) link (refusal_of result) }
    ensures on { OnOk result (is_on rows.now ≡ true) }
    ensures inside { OnOk result (In link (row_at (place_in rows.now))) }
{
    if !rows.is_on() {
        return Err(Refusal::NotOnRow);
    }
    if !rows.row().contains(&link) {
        return Err(Refusal::NotInRow(link));
    }
    Ok(())
}

impl<K: WeightKind> Walk<K> {
    /// The substitute of a link of the row.
    fn stand_in(&self, link: u16) -> Option<u16>
        requires on { is_on self.now.rows ≡ true }
        requires inside { In link (row_at (place_of self.now)) }
        ensures { Begun K.WeightKind.weighing self.now → Answers (network_graph (network_of self.now)) K.WeightKind.weighing.scale (weights_of K.WeightKind.weighing (network_of self.now)) (row_at (place_of self.now)) link result }
    {
        self.rows.substitute(link)
    }

    /// Another link that can take the place of this one in the walk's row, such that it is again the row of a
    /// cheapest tree; or none if there is no such link. The cost is one run over the links.
    pub fn substitute(&self, link: u16) -> Result<Option<u16>, Refusal>
        ensures refuses { AskedFor (place_of self.now) link (refusal_of result) }
        ensures answers { IfOk result (λ answer. Begun K.WeightKind.weighing self.now → Answers (network_graph (network_of self.now)) K.WeightKind.weighing.scale (weights_of K.WeightKind.weighing (network_of self.now)) (row_at (place_of self.now)) link answer) }
    {
        check_link(&self.rows, link)?;
        Ok(self.stand_in(link))
    }
}
