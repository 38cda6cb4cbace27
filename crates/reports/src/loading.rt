//! Loading a sheet with room for all links that it may have.

ghost use Rattle.std.specs.Prelude.{◌≡◌};
ghost use Rattle.reports.specs.Answers.{counts_of};
ghost use Rattle.reports.specs.Judging.{Loads};

use crate::answers::Contents;
use networks::{Link, Network, Refusal};
use sheets::{SheetKind, load};
use weights::WeightKind;

/// Loads the sheet as a network of one kind. Callers name the kind where it is known: code over every kind would have to
/// show that any kind's network fits in memory.
pub(crate) fn load_as<K: SheetKind>(sheet: &[u8]) -> Result<Network<K>, Refusal>
    ensures { Loads K.SheetKind.letter K.SheetKind.width K.SheetKind.bytes sheet.now result }
{
    let blank = Link {
        from: 0,
        to: 0,
        weight: K::zero(),
    };
    let mut links = [blank; 512];
    load(sheet, &mut links)
}

/// How many sites and links a network has.
pub(crate) fn counts<K: WeightKind>(network: &Network<K>) -> Contents
    ensures { result ≡ counts_of network.now }
{
    Contents {
        sites: network.sites(),
        links: network.links().len(),
    }
}
