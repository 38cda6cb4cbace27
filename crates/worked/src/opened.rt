//! The networks of the worked examples, opened, and turns performed on them. So there are such networks, and what
//! the examples say of calls is what the calls do.

ghost use Rattle.std.specs.Prelude.{◌≡◌, IfOk, None};
ghost use Rattle.networks.specs.Refusals.{refusal_of};
ghost use Rattle.worked.specs.Brought.{BringsShown};
ghost use Rattle.worked.specs.Drawn.{Draws, drawn_as};
ghost use Rattle.worked.specs.Samples.{sites_in, links_in, sample, rivals};

use networks::{Link, Network, Refusal};
use receivers::Receiver;
use walks::{Turn, Walk, perform};
use weights::Metres;

/// A link of so many metres between two sites.
// Of its own, since what it promises is in the words of the drawings.
fn link(from: u8, to: u8, metres: u32) -> Link<Metres>
    ensures { drawn_as result ≡ (from, to, metres) }
{
    Link {
        from,
        to,
        weight: Metres(metres),
    }
}

/// The networks of the worked examples.
#[derive(Clone, Copy)]
enum Example {
    /// One site.
    OneSite,
    /// Two sites without a link.
    TwoSites,
    /// The sample network of four sites.
    Sample,
    /// A triangle with one short side.
    Triangle,
    /// Two parallel links of one length.
    Twins,
    /// Two parallel links of two lengths.
    Rivals,
}

/// Opens a network of the examples: it is not refused.
fn open(example: Example) -> Result<Network<Metres>, Refusal>
    ensures opens { refusal_of result ≡ None }
    ensures draws { IfOk result (λ n. Draws (sites_in example) (links_in example) n) }
{
    match example {
        Example::OneSite => Network::open(1, &[]),
        Example::TwoSites => Network::open(2, &[]),
        Example::Sample => {
            let links = [
                link(0, 1, 2),
                link(1, 2, 2),
                link(0, 2, 2),
                link(2, 3, 1),
                link(1, 3, 2),
            ];
            Network::open(4, &links)
        }
        Example::Triangle => Network::open(3, &[link(0, 1, 1), link(1, 2, 2), link(0, 2, 2)]),
        Example::Twins => Network::open(2, &[link(0, 1, 7), link(0, 1, 7)]),
        Example::Rivals => Network::open(2, &[link(0, 1, 7), link(0, 1, 8)]),
    }
}

/// Opens the sample network: it is not refused.
pub fn open_sample() -> Result<Network<Metres>, Refusal>
    ensures opens { refusal_of result ≡ None }
    ensures draws { IfOk result (λ n. Draws 4 sample n) }
{
    open(Example::Sample)
}

/// Opens two parallel links of two lengths.
pub fn open_rivals() -> Result<Network<Metres>, Refusal>
    ensures opens { refusal_of result ≡ None }
    ensures draws { IfOk result (λ n. Draws 2 rivals n) }
{
    open(Example::Rivals)
}

/// Performs turns on a walk through a network: where it is drawn as in a worked example, and the same is asked,
/// they bring what the example says. Only the contract is more than that of `perform`.
fn perform_drawn<R: Receiver>(
    network: Network<Metres>,
    receiver: &mut R,
    turns: &mut [Turn],
) -> Walk<Metres>
    ensures { BringsShown network (R.Receiver.rule receiver.old) (R.Receiver.held receiver.old) (R.Receiver.held receiver.new) turns.old turns.new }
{
    perform(network, receiver, turns)
}
