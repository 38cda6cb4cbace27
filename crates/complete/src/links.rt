//! The links of a complete network, and the network of them.

ghost use Rattle.std.specs.Prelude.{◌≡◌, ℕ, ◌++◌, false, IfOk, OnOk};
ghost use Rattle.networks.specs.Networks.{sites_of, links_of, closed_in};
ghost use Rattle.networks.specs.Opening.{open_rules};
ghost use Rattle.networks.specs.Refusals.{refusal_of, first_of};
ghost use Rattle.complete.specs.Links.{links_back, links_below};

use networks::{Link, Network, Refusal};
use std::alloc::{AllocError, Global};
use weights::Metres;

/// Links the site to each that has a lower number.
fn link_back(links: &mut Vec<Link<Metres>>, site: u8) -> Result<(), AllocError>
    ensures { OnOk result (links.new.items ≡ links.old.items ++ links_back site) }
{
    links.extend((0..site).map(|other| Link {
        from: other,
        to: site,
        weight: Metres(1),
    }))
}

/// One link between every two of so many sites, each one metre long.
pub fn complete(heap: Global, sites: u8) -> Result<Vec<Link<Metres>>, AllocError>
    ensures { IfOk result (λ links. links.items ≡ links_below sites) }
{
    let mut links = Vec::new(heap);
    for site in 0..sites {
        link_back(&mut links, site)?;
    }
    Ok(links)
}

/// The complete network of so many sites, each link one metre long, or why it is refused.
pub fn complete_network(
    heap: Global,
    sites: u8,
) -> Result<Result<Network<Metres>, Refusal>, AllocError>
    ensures refuses { IfOk result (λ opened. refusal_of opened ≡ first_of (open_rules sites (links_below sites))) }
    ensures sites { IfOk result (λ opened. IfOk opened (λ n. sites_of n ≡ sites)) }
    ensures links { IfOk result (λ opened. IfOk opened (λ n. links_of n ≡ links_below sites)) }
    ensures opens { IfOk result (λ opened. IfOk opened (λ n. (e : ℕ) → closed_in n e ≡ false)) }
{
    let links = complete(heap, sites)?;
    Ok(Network::open(sites, &links))
}
