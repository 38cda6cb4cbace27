//! Loading: a sheet read and opened as a network.

ghost use Rattle.std.specs.Prelude.{◌≡◌, ℕ, ◌≤◌, false, length, take, IfOk, Some, MatchOption};
ghost use Rattle.networks.specs.Networks.{sites_of, links_of, closed_in};
ghost use Rattle.networks.specs.Opening.{open_rules};
ghost use Rattle.networks.specs.Refusals.{refusal_of, first_of};
ghost use Rattle.sheets.specs.Loading.{Opened};
ghost use Rattle.sheets.specs.Reading.{read_rules};

use crate::kinds::SheetKind;
use crate::reading::{Counts, read};
use networks::{Link, Network, Refusal};

/// Reads a sheet into the first of the links and opens them as a network. Where the sheet is refused, the links are
/// unaltered; where its links are refused, they stay in the list.
pub fn load<K: SheetKind>(sheet: &[u8], links: &mut [Link<K>]) -> Result<Network<K>, Refusal>
    ensures { MatchOption (first_of (read_rules K.SheetKind.letter K.SheetKind.width sheet.now (length links.old))) (Opened K.SheetKind.letter K.SheetKind.width K.SheetKind.bytes sheet.now links.old links.new result) (λ report. (refusal_of result ≡ Some report) × (links.new ≡ links.old)) }
{
    let counts = read(sheet, links)?;
    open_first(counts, links)
}

/// Opens the first of the links.
fn open_first<K: SheetKind>(counts: Counts, links: &[Link<K>]) -> Result<Network<K>, Refusal>
    requires { counts.links ≤ length links.now }
    ensures refuses { refusal_of result ≡ first_of (open_rules counts.sites (take counts.links links.now)) }
    ensures opens { IfOk result (λ n. (sites_of n ≡ counts.sites) × (links_of n ≡ take counts.links links.now) × ((e : ℕ) → closed_in n e ≡ false)) }
{
    Network::open(counts.sites, &links[..counts.links as usize])
}
