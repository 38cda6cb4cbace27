//! Performing a list of calls.

ghost use Rattle.std.specs.Prelude.{◌≡◌, None, Some};
ghost use Rattle.receivers.specs.Rules.{Serves};
ghost use Rattle.walks.specs.Acts.{Stays};
ghost use Rattle.walks.specs.Promises.{Performs, Performed, SameLinks, WeighAlike, SameRun};
ghost use Rattle.walks.specs.Turns.{asked_by, asked, heard_from};
ghost use Rattle.walks.specs.Walks.{network_of, place_of, Begun};

use crate::turns::{Answer, Call, Reply, Turn};
use crate::walks::Walk;
use networks::Network;
use receivers::Receiver;
use weights::WeightKind;

/// Performs one call.
fn act<K: WeightKind, R: Receiver>(walk: &mut Walk<K>, receiver: &mut R, call: &mut Call) -> Answer
    ensures performs { Performs K.WeightKind.weighing walk.old walk.new (R.Receiver.rule receiver.old) (R.Receiver.held receiver.old) (R.Receiver.held receiver.new) (asked_by call.old) (asked_by call.new) (heard_from (Some result)) }
    ensures stays { Stays K.WeightKind.weighing walk.old walk.new }
    ensures serves { Serves R.Receiver.rule R.Receiver.spare R.Receiver.lender receiver.old receiver.new }
{
    match call {
        Call::Next(list) => walk.next(list).map(|()| Reply::Done),
        Call::Pour(limit) => {
            let (count, letter) = walk.pour(receiver, *limit);
            Ok(Reply::Poured(count, letter))
        }
        Call::Seek(row) => walk.seek(row).map(|()| Reply::Done),
    }
}

/// Performs the calls of all turns, in their order, on a walk just begun.
fn act_all<K: WeightKind, R: Receiver>(walk: &mut Walk<K>, receiver: &mut R, turns: &mut [Turn])
    requires begun { Begun K.WeightKind.weighing walk.old }
    requires before { place_of walk.old ≡ None }
    ensures promise { Performed K.WeightKind.weighing (network_of walk.old) walk.new (R.Receiver.rule receiver.old) (R.Receiver.held receiver.old) (R.Receiver.held receiver.new) turns.old turns.new }
    ensures serves { Serves R.Receiver.rule R.Receiver.spare R.Receiver.lender receiver.old receiver.new }
{
    for turn in turns.iter_mut() {
        turn.answer = Some(act(walk, receiver, &mut turn.call));
    }
}

/// Begins a walk on the network, performs the calls of all turns on it and the receiver, in their order, and
/// hands the walk over as they leave it. Each turn holds its answer afterwards.
pub fn perform<K: WeightKind, R: Receiver>(
    network: Network<K>,
    receiver: &mut R,
    turns: &mut [Turn],
) -> Walk<K>
    ensures promise { Performed K.WeightKind.weighing network result (R.Receiver.rule receiver.old) (R.Receiver.held receiver.old) (R.Receiver.held receiver.new) turns.old turns.new }
    ensures serves { Serves R.Receiver.rule R.Receiver.spare R.Receiver.lender receiver.old receiver.new }
{
    let mut walk = Walk::begin(network);
    act_all(&mut walk, receiver, turns);
    walk
}

/// Performs turns on two networks, each with a receiver of its own. Where the networks have the same links, their
/// weights compare alike, and the receivers have one rule and hold the same, the same calls bring the same answers,
/// lists and contents, whatever the kinds.
pub fn perform_both<K: WeightKind, M: WeightKind, R: Receiver, S: Receiver>(
    first: Network<K>,
    second: Network<M>,
    receiver: &mut R,
    other: &mut S,
    turns: &mut [Turn],
    others: &mut [Turn],
) -> (Walk<K>, Walk<M>)
    ensures alike { SameLinks first second → WeighAlike K.WeightKind.weighing M.WeightKind.weighing first second → R.Receiver.rule receiver.old ≡ S.Receiver.rule other.old → R.Receiver.held receiver.old ≡ S.Receiver.held other.old → asked turns.old ≡ asked others.old → SameRun turns.new others.new (R.Receiver.held receiver.new) (S.Receiver.held other.new) }
    ensures promise { Performed K.WeightKind.weighing first result.0 (R.Receiver.rule receiver.old) (R.Receiver.held receiver.old) (R.Receiver.held receiver.new) turns.old turns.new }
    ensures others { Performed M.WeightKind.weighing second result.1 (S.Receiver.rule other.old) (S.Receiver.held other.old) (S.Receiver.held other.new) others.old others.new }
    ensures serves { Serves R.Receiver.rule R.Receiver.spare R.Receiver.lender receiver.old receiver.new }
    ensures serves2 { Serves S.Receiver.rule S.Receiver.spare S.Receiver.lender other.old other.new }
{
    let one = perform(first, receiver, turns);
    let two = perform(second, other, others);
    (one, two)
}
