//! The calls on a walk.

ghost use Rattle.std.specs.Prelude.{◌≡◌, None};
ghost use Rattle.networks.specs.Refusals.{refusal_of};
ghost use Rattle.receivers.specs.Rules.{Serves};
ghost use Rattle.walks.specs.Acts.{Stays, NextActs, SeekActs, PourActs};
ghost use Rattle.walks.specs.Walks.{network_of, place_of, row_at, Begun, OneList};

use crate::pouring::pour_rows;
use crate::stepping::{next_row, seek_row};
use crate::walks::Walk;
use cheapest::Rows;
use networks::{Layer, Network, Refusal};
use receivers::Receiver;
use weights::WeightKind;

impl<K: WeightKind> Walk<K> {
    /// Begins a walk through the full list of the network, and holds the network until the walk ends. The cost
    /// grows with the square of the number of links.
    pub fn begin(network: Network<K>) -> Walk<K>
        ensures network { network_of result ≡ network }
        ensures before { place_of result ≡ None }
        ensures begun { Begun K.WeightKind.weighing result }
        ensures listed { OneList K.WeightKind.weighing network }
    {
        let rows = Rows::new(network.plan());
        Walk { network, rows }
    }

    /// Ends the walk and gives the network back.
    pub fn end(self) -> Network<K>
        ensures { result ≡ network_of self }
    {
        let Walk { network, rows: _ } = self;
        network
    }

    /// The row that the walk is on; before the list it is empty.
    pub fn row(&self) -> &[u16]
        ensures { result.now ≡ row_at (place_of self.now) }
    {
        self.rows.row()
    }

    /// The network that is walked through.
    pub fn network(&self) -> &Network<K>
        ensures { result.now ≡ network_of self.now }
    {
        &self.network
    }

    /// Moves to the row that follows and writes it into the first places of the list; the rest of the list
    /// stays as it is. A refusal alters neither walk nor list. The cost is one run over the links for each
    /// place that is tried, and does not grow with the rows given before.
    pub fn next(&mut self, list: &mut [u16]) -> Result<(), Refusal>
        ensures acts { NextActs K.WeightKind.weighing self.old self.new list.old list.new (refusal_of result) }
        ensures stays { Stays K.WeightKind.weighing self.old self.new }
    {
        let places = list.len();
        if places < self.network.sites() as usize - 1 {
            return Err(Refusal::ShortList(Layer::Walk, places));
        }
        next_row(&mut self.rows, list)
    }

    /// Moves to the row, if it is in the full list; a refusal leaves the walk where it is.
    pub fn seek(&mut self, row: &[u16]) -> Result<(), Refusal>
        ensures acts { SeekActs K.WeightKind.weighing self.old self.new row.now (refusal_of result) }
        ensures stays { Stays K.WeightKind.weighing self.old self.new }
    {
        self.move_to(row)
    }

    /// Moves as `seek` does.
    // Apart from `seek`, so that a wrong call there is refused for what `seek` promises.
    fn move_to(&mut self, row: &[u16]) -> Result<(), Refusal>
        ensures acts { SeekActs K.WeightKind.weighing self.old self.new row.now (refusal_of result) }
        ensures stays { Stays K.WeightKind.weighing self.old self.new }
    {
        seek_row(&mut self.rows, row)
    }

    /// Offers the row that follows to the receiver, again and again, and moves on when it is taken. Answers how
    /// many rows were taken, and the letter of the reason for which it ended. Before each row the reasons are
    /// tried in this order: `L`, so many rows were taken; `Z`, the sites are not joined; `X`, no row follows; `F`,
    /// the receiver does not take the row.
    pub fn pour<R: Receiver>(&mut self, receiver: &mut R, limit: u32) -> (u32, char)
        ensures acts { PourActs K.WeightKind.weighing self.old self.new (R.Receiver.rule receiver.old) (R.Receiver.held receiver.old) limit result.0 result.1 (R.Receiver.held receiver.new) }
        ensures stays { Stays K.WeightKind.weighing self.old self.new }
        ensures serves { Serves R.Receiver.rule R.Receiver.spare R.Receiver.lender receiver.old receiver.new }
    {
        self.pour_into(receiver, limit)
    }

    /// Pours, and says how it ended as `pour` does.
    // Apart from `pour`, so that a wrong call there is refused for what `pour` promises.
    fn pour_into<R: Receiver>(&mut self, receiver: &mut R, limit: u32) -> (u32, char)
        ensures acts { PourActs K.WeightKind.weighing self.old self.new (R.Receiver.rule receiver.old) (R.Receiver.held receiver.old) limit result.0 result.1 (R.Receiver.held receiver.new) }
        ensures stays { Stays K.WeightKind.weighing self.old self.new }
        ensures serves { Serves R.Receiver.rule R.Receiver.spare R.Receiver.lender receiver.old receiver.new }
    {
        // A pair of a count and a letter, and no struct: a form that the product is to have.
        let (count, ending) = pour_rows(&mut self.rows, receiver, limit);
        (count, ending.letter())
    }
}
