//! What networks answer, held to what is found by looking at every set of links.

ghost use Rattle.std.specs.Prelude.{◌≡◌, ℕ, ◌+◌, ◌<◌, ◌≤◌, length, slice_index, slice_index_or};
ghost use Rattle.arrayvec.specs.ArrayVec.{array_vec_len};
ghost use Rattle.networks.specs.Networks.{links_of};
ghost use Rattle.exhaustive.specs.Choices.{choices_of, lists_of};
ghost use Rattle.exhaustive.specs.Records.{IsRecord};
ghost use Rattle.exhaustive.specs.Trials.{IfJoined};
ghost use Rattle.exhaustive.specs.declared.cases.Drawn.{Drawn};

use crate::cases::{Case, Drawn};
use crate::choosing::choices;
use crate::rows::Row;
use crate::tallies::Tally;
use crate::trees::class_of;
use arrayvec::ArrayVec;
use networks::{Class, Link, Network, Refusal};
use std::array;
use weights::Metres;

/// What every place of a list holds before a trial.
const UNTOUCHED: u16 = 7777;

/// The classes with their letters.
const CLASSES: [(char, Class); 3] = [
    ('A', Class::Always),
    ('S', Class::Sometimes),
    ('N', Class::Never),
];

/// A record that stands for none.
const BLANK: Link<Metres> = Link {
    from: 0,
    to: 0,
    weight: Metres(0),
};

/// What a trial must say.
#[derive(Drop)]
enum Trial {
    /// It is refused: the sites are not joined.
    Refused,
    /// The sites are no longer joined.
    Apart,
    /// The sites are still joined, and this is the first row.
    Joined(Row),
}

/// How many links have another class than by the trees.
fn classes_differing(case: &Case, network: &Network<Metres>, trees: &[u8]) -> usize
    ensures { result ≤ array_vec_len case.now.links }
{
    case.links
        .iter()
        .filter(|link| {
            let class = network.class(u16::from(link.number)).ok();
            class != Some(class_of(trees, link))
                || !class.is_some_and(|class| CLASSES.contains(&(class.letter(), class)))
        })
        .count()
}

/// How many of the three classes have another count than by the trees.
fn counts_differing(case: &Case, network: &Network<Metres>, trees: &[u8]) -> usize
    ensures { result ≤ 3 }
{
    CLASSES
        .iter()
        .filter(|(letter, class)| network.count_class(*letter).ok()
            != Some(case.count_class(trees, *class)))
        .count()
}

/// A list of untouched places with the row written into the first of them.
fn written(row: &[Drawn]) -> [u16; 5]
    ensures { (k : ℕ) → length row.now ≤ k → k < 5 → slice_index result k ≡ 7777 }
{
    array::from_fn(|place| row
        .get(place)
        .map_or(UNTOUCHED, |link| u16::from(link.number)))
}

/// What a trial of this link must say.
fn trial_expected(case: &Case, link: u8) -> Trial
    requires { link ≤ 4 }
    ensures { IfJoined result (λ row. length row ≤ array_vec_len case.now.links) }
{
    let links = case.all_links();
    if !case.joined(links) {
        return Trial::Refused;
    }
    let trees = case.cheapest(links & !(1 << link));
    match case.first_row(&trees) {
        Some(row) => Trial::Joined(row),
        None => Trial::Apart,
    }
}

/// Whether a trial differs in what it says or writes.
fn trial_differs(case: &Case, network: &mut Network<Metres>, link: u8) -> bool
    requires { link ≤ 4 }
    ensures { links_of network.new ≡ links_of network.old }
{
    let mut list = [UNTOUCHED; 5];
    let said = network.trial(u16::from(link), &mut list);
    let agrees = match (said, trial_expected(case, link)) {
        (Err(Refusal::TrialNotJoined), Trial::Refused) => list == written(&[]),
        (Ok(false), Trial::Apart) => list == written(&[]),
        (Ok(true), Trial::Joined(row)) => list == written(&row),
        _ => false,
    };
    !agrees
}

/// How many trials differ, those of every link and of the number past the last.
fn trials_differing(case: &Case, network: &mut Network<Metres>) -> u32
    ensures few { result ≤ 5 }
    ensures leaves { links_of network.new ≡ links_of network.old }
{
    let mut different = 0;
    for link in 0..case.links.len() as u8 + 1 {
        different += u32::from(trial_differs(case, network, link));
    }
    different
}

/// The record of the link at this place, and a blank one behind the last.
fn record_at(case: &Case, place: usize) -> Link<Metres>
    ensures { (link : Drawn) → place < array_vec_len case.now.links → IsRecord (slice_index_or case.now.links.items place link) result }
{
    case.links.get(place).map_or(BLANK, |link| link.record())
}

/// How many answers of the network differ. One that cannot be opened is a single difference.
fn differing(case: &Case) -> u32
    ensures { result ≤ 12 }
{
    let records: [Link<Metres>; 4] = array::from_fn(|place| record_at(case, place));
    let Ok(mut network) = Network::open(case.sites, &records[..case.links.len()]) else {
        return 1;
    };
    let trees = case.cheapest(case.all_links());
    let classes = classes_differing(case, &network, &trees) as u32;
    let counts = counts_differing(case, &network, &trees) as u32;
    classes + counts + trials_differing(case, &mut network)
}

/// Compares all answers about one network.
fn compare(case: &Case) -> Tally
    ensures { result.networks ≡ 1 }
{
    let links = case.links.len() as u32;
    Tally {
        networks: 1,
        classes: links,
        counts: 3,
        trials: links + 1,
        different: differing(case),
    }
}

/// Compares all answers about the network, and about each that has up to so many more links after its own.
fn compare_extended(case: &mut Case, choices: &[Drawn], more: u8) -> Tally
    requires links { array_vec_len case.old.links + more ≤ 4 }
    requires choices { length choices.now ≤ 18 }
    ensures compares { result.networks ≡ lists_of (length choices.now) more }
    ensures restores { (case.new.sites ≡ case.old.sites) × (case.new.links.items ≡ case.old.links.items) }
{
    let mut tally = compare(case);
    if more > 0 {
        let number = case.links.len() as u8;
        for choice in choices {
            case.links.push(choice.numbered(number));
            tally += compare_extended(case, choices, more - 1);
            case.links.pop();
        }
    }
    tally
}

/// Compares all answers about the networks of so many sites.
fn compare_sites(sites: u8) -> Tally
    requires { (1 ≤ sites) × (sites ≤ 4) }
    ensures { result.networks ≡ lists_of (length (choices_of sites)) 4 }
{
    let mut case = Case {
        sites,
        links: ArrayVec::new(),
    };
    compare_extended(&mut case, &choices(sites), 4)
}

/// Compares all answers about all networks.
#[tactic(auto, using(crate::proofs::Counting::one_site_more, crate::proofs::Counting::all_networks))]
pub(crate) fn compare_all() -> Tally
    ensures { result.networks ≡ 118654 }
{
    let mut tally = compare_sites(1);
    for sites in 2..5 {
        tally += compare_sites(sites);
    }
    tally
}
