//! Reading a sheet into link records.

ghost use Rattle.std.specs.Prelude.{◌≡◌, ℕ, ◌≤◌, length, take, drop, IfOk, None, OnErr};
ghost use Rattle.networks.specs.Refusals.{refusal_of, first_of};
ghost use Rattle.sheets.specs.Layout.{sheet_of};
ghost use Rattle.sheets.specs.Reading.{read_rules, field_rules};
ghost use Rattle.sheets.specs.Writing.{write_rules};

use crate::kinds::SheetKind;
use crate::reader::{Header, take_header};
use networks::{Layer, Link, Refusal};

/// How many sites and links a sheet has.
#[derive(Clone, Copy, PartialEq, Eq, Debug)]
pub struct Counts {
    pub sites: u8,
    pub links: u16,
}

/// Reads a sheet of this kind into the first of the links, as many as it has, and leaves the others. The cost grows with
/// the length of the sheet.
pub fn read<K: SheetKind>(sheet: &[u8], links: &mut [Link<K>]) -> Result<Counts, Refusal>
    ensures refuses { refusal_of result ≡ first_of (read_rules K.SheetKind.letter K.SheetKind.width sheet.now (length links.old)) }
    ensures reads { IfOk result (λ n. sheet_of K.SheetKind.letter K.SheetKind.width K.SheetKind.bytes n.sites (take n.links links.new) ≡ sheet.now) }
    ensures fills { IfOk result (λ n. n.links ≤ length links.new) }
    ensures leaves { IfOk result (λ n. drop n.links links.new ≡ drop n.links links.old) }
    ensures keeps { OnErr result (links.new ≡ links.old) }
    // `write` takes what was read, given as many bytes as the sheet has.
    ensures accepted { IfOk result (λ n. first_of (write_rules K.SheetKind.width n.sites (length (take n.links links.new)) (length sheet.now)) ≡ None) }
{
    let Some((header, mut records)) = take_header(sheet) else {
        return Err(Refusal::ShortSheet(sheet.len()));
    };
    check_fields::<K>(&header, sheet.len(), links.len())?;
    records.fill(&mut links[..header.counts.links as usize]);
    Ok(header.counts)
}

/// Refuses a header that does not fit the kind or the size of the sheet, and more links than there is room for.
fn check_fields<K: SheetKind>(header: &Header, size: usize, room: usize) -> Result<(), Refusal>
    ensures { refusal_of result ≡ first_of (field_rules K.SheetKind.letter K.SheetKind.width size room header.now.length header.now.version header.now.kind header.now.counts.sites header.now.counts.links) }
{
    let length = header.length as usize;
    let sites = header.counts.sites;
    let links = header.counts.links as usize;
    if length != size.saturating_sub(4) {
        return Err(Refusal::WrongLength);
    }
    if header.version != 1 {
        return Err(Refusal::UnknownVersion);
    }
    if header.kind != K::kind_byte() {
        return Err(Refusal::OtherKind);
    }
    if !(1..=64).contains(&sites) {
        return Err(Refusal::SheetSiteCount);
    }
    if links > 512 {
        return Err(Refusal::SheetLinkCount);
    }
    if length != 5 + links * (2 + K::weight_width() as usize) {
        return Err(Refusal::WrongRecords);
    }
    if room < links {
        return Err(Refusal::ShortList(Layer::Sheet, room));
    }
    Ok(())
}
