//! The report of a sheet, put out part by part.

ghost use Rattle.std.specs.Prelude.{◌≡◌, ℕ, ◌<◌, List, [], ◌∷◌, ◌++◌, None, Ok};
ghost use Rattle.weights.specs.Weighings.{by_metres, by_crossings, paired};
ghost use Rattle.walks.specs.Walks.{network_of, place_of, Begun};
ghost use Rattle.reports.specs.Answers.{kind_of, counts_of, line_of_answer};
ghost use Rattle.reports.specs.Kinds.{metres_text, crossings_text};
ghost use Rattle.reports.specs.Listing.{last_line};
ghost use Rattle.reports.specs.Reports.{PutsReport, PutsNetwork, PutsWalked};
ghost use Rattle.reports.specs.Sinks.{PutOut};
ghost use Rattle.reports.specs.Totals.{total_text};
ghost use Rattle.reports.specs.declared.answers.Kind.TheVariants.{Metres as metres, CrossingsMetres as crossings};

use crate::answers::{Answer, Kind};
use crate::lines::{kind_of, line};
use crate::listing::list;
use crate::loading::{counts, load_as};
use crate::shown::Shown;
use crate::sinks::{Sink, put_number};
use crate::totals::{put_each, total_each};
use networks::Network;
use walks::Walk;
use weights::{Crossings, Metres, Pair, WeightKind};

/// Puts the report of a sheet out, read as the kind that it names: its sites and links, a line for each of up to 1,000
/// cheapest trees, and how many they are, the total of each and how the list ended; or a line that says why it is refused.
pub fn report<S: Sink>(sheet: &[u8], out: &mut S)
    ensures { PutsReport S.Sink.took (kind_of sheet.now) sheet.now out.old out.new }
{
    match kind_of(sheet) {
        Kind::Metres => report_metres(sheet, out),
        Kind::CrossingsMetres => report_crossings(sheet, out),
    }
}

// By kind, since code over every kind would have to show that any kind's network and walk fit in memory. A walk is begun
// in a function of its own: handed on whole in what loading gives it is cleared and copied, for refused sheets too, and
// runs take a third longer.

fn report_metres<S: Sink>(sheet: &[u8], out: &mut S)
    ensures { PutsReport S.Sink.took metres sheet.now out.old out.new }
{
    match load_as::<Metres>(sheet) {
        Ok(network) => list_metres(network, out),
        Err(refusal) => put_answer(out, Err(refusal)),
    }
}

fn report_crossings<S: Sink>(sheet: &[u8], out: &mut S)
    ensures { PutsReport S.Sink.took crossings sheet.now out.old out.new }
{
    match load_as::<Pair<Crossings, Metres>>(sheet) {
        Ok(network) => list_crossings(network, out),
        Err(refusal) => put_answer(out, Err(refusal)),
    }
}

/// Puts the report of a network with metres out.
fn list_metres<S: Sink>(network: Network<Metres>, out: &mut S)
    ensures { PutsNetwork by_metres metres_text S.Sink.took network out.old out.new }
{
    report_walk(&mut Walk::begin(network), out);
}

/// Puts the report of a network with crossings and metres out.
fn list_crossings<S: Sink>(network: Network<Pair<Crossings, Metres>>, out: &mut S)
    ensures { PutsNetwork (paired by_crossings by_metres) crossings_text S.Sink.took network out.old out.new }
{
    report_walk(&mut Walk::begin(network), out);
}

/// Puts the report of the network that is walked through out.
fn report_walk<K: Shown, S: Sink>(walk: &mut Walk<K>, out: &mut S)
    requires begun { Begun K.WeightKind.weighing walk.old }
    requires before { place_of walk.old ≡ None }
    ensures { PutsWalked K.WeightKind.weighing K.Shown.text K.WeightKind.sum S.Sink.took (network_of walk.old) out.old out.new }
{
    put_answer(out, sound(walk.network()));
    let (count, letter) = list(walk, out);
    let total = total_each(walk, count);
    put_last::<K, S>(out, count, total, letter);
}

/// The sites and links of a network.
fn sound<K: WeightKind>(network: &Network<K>) -> Answer
    ensures { result ≡ Ok (counts_of network.now) }
{
    Ok(counts(network))
}

/// Puts the first line out.
fn put_answer<S: Sink>(out: &mut S, answer: Answer)
    ensures { PutOut S.Sink.took out.old (line_of_answer answer ++ (10 ∷ [])) out.new }
{
    let line = line(&answer);
    out.put(line.as_slice());
    out.put(b"\n");
}

/// Puts the last line out, by parts, for the reason for which `line` goes by parts.
fn put_last<K: Shown, S: Sink>(out: &mut S, count: u32, total: Option<K::Total>, letter: char)
    requires { letter < 128 }
    ensures { PutOut S.Sink.took out.old (last_line count (total_text K.Shown.text total) letter) out.new }
{
    out.put(b"trees ");
    put_number(out, count as u64);
    out.put(b" each ");
    put_each::<K, S>(total, out);
    out.put(b" ended ");
    out.put(&[letter as u8, b'\n']);
}
