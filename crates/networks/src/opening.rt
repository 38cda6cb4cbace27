//! Opening records as a network, and what a network gives back.

ghost use Rattle.std.specs.Prelude.{◌≡◌, ℕ, ◌≤◌, true, false, length, take, IfOk, OnOk};
ghost use Rattle.networks.specs.Closures.{closed_at};
ghost use Rattle.networks.specs.Links.{sound};
ghost use Rattle.networks.specs.Networks.{sites_of, links_of, closed_in};
ghost use Rattle.networks.specs.Opening.{open_rules, link_rules, OpeningLaws};
ghost use Rattle.networks.specs.Refusals.{refusal_of, first_of};

use crate::closed::Closed;
use crate::links::Link;
use crate::networks::Network;
use crate::refusals::Refusal;
use weights::WeightKind;

impl<K: WeightKind> Network<K> {
    /// A network of these links between so many sites, with every link open.
    pub fn open(sites: u8, links: &[Link<K>]) -> Result<Network<K>, Refusal>
        ensures refuses { refusal_of result ≡ first_of (open_rules sites links.now) }
        ensures sites { IfOk result (λ n. sites_of n ≡ sites) }
        ensures links { IfOk result (λ n. links_of n ≡ links.now) }
        ensures opens { IfOk result (λ n. (e : ℕ) → closed_in n e ≡ false) }
    {
        if !(1..=64).contains(&sites) {
            return Err(Refusal::SiteCount);
        }
        if links.len() > 512 {
            return Err(Refusal::LinkCount);
        }
        check_links(sites, links)?;
        Ok(Network {
            sites,
            count: links.len(),
            links: stored(links),
            closed: Closed::none(),
        })
    }

    /// How many sites there are.
    pub fn sites(&self) -> u8
        ensures { result ≡ sites_of self.now }
    {
        self.sites
    }

    /// The link records, by number.
    pub fn links(&self) -> &[Link<K>]
        ensures value { result.now ≡ links_of self.now }
        ensures few { length result.now ≤ 512 }
        ensures len { length result.now ≡ self.now.count }
    {
        &self.links[..self.count]
    }
}

/// Refuses the first link with an end that is no site, or with one site at both ends.
fn check_links<K: WeightKind>(sites: u8, links: &[Link<K>]) -> Result<(), Refusal>
    ensures refuses { refusal_of result ≡ first_of (link_rules sites 0 links.now) }
    ensures sound { OnOk result (sound sites links.now ≡ true) }
{
    for (number, link) in links.iter().enumerate() {
        let (from, to) = (link.from, link.to);
        if from >= sites || to >= sites {
            return Err(Refusal::NoSuchSite(number));
        }
        if from == to {
            return Err(Refusal::SelfLink(number));
        }
    }
    Ok(())
}

/// The links in the first of 512 places.
fn stored<K: WeightKind>(links: &[Link<K>]) -> [Link<K>; 512]
    requires { length links.now ≤ 512 }
    ensures { take (length links.now) result ≡ links.now }
{
    let filler = Link {
        from: 0,
        to: 0,
        weight: K::zero(),
    };
    let mut places = [filler; 512];
    places[..links.len()].copy_from_slice(links);
    places
}

/// The rules of opening refuse nothing but what is wrong, and of faulty links the first.
fn opening_rules_stand<K: WeightKind>()
    ensures { OpeningLaws K }
{}
