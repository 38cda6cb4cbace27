//! Writing link records as a sheet.

ghost use Rattle.std.specs.Prelude.{◌≡◌, ℕ, ◌+◌, ◌*◌, ◌≤◌, List, [], ◌∷◌, ◌++◌, length, drop, IfOk, None, OnErr, OnOk};
ghost use Rattle.std.specs.List.{flat_map};
ghost use Rattle.networks.specs.Refusals.{refusal_of, first_of};
ghost use Rattle.sheets.specs.Layout.{record_of, sheet_of};
ghost use Rattle.sheets.specs.Numbers.{be16, be32};
ghost use Rattle.sheets.specs.Reading.{read_rules};
ghost use Rattle.sheets.specs.Writing.{write_rules};

use crate::kinds::SheetKind;
use networks::{Layer, Link, Refusal};

/// Writes the sheet of these links between so many sites into the first bytes, leaves the others, and answers the
/// sheet's length. It does not look at the ends. The cost grows with the length of the sheet.
pub fn write<K: SheetKind>(sites: u8, links: &[Link<K>], sheet: &mut [u8]) -> Result<usize, Refusal>
    ensures refuses { refusal_of result ≡ first_of (write_rules K.SheetKind.width sites (length links.now) (length sheet.old)) }
    ensures len { IfOk result (λ n. n ≡ length (sheet_of K.SheetKind.letter K.SheetKind.width K.SheetKind.bytes sites links.now)) }
    ensures writes { IfOk result (λ n. sheet.new ≡ sheet_of K.SheetKind.letter K.SheetKind.width K.SheetKind.bytes sites links.now ++ drop n sheet.old) }
    ensures keeps { OnErr result (sheet.new ≡ sheet.old) }
    // `read` takes what was written, given room for the links; and no other links have the same sheet.
    ensures accepted { OnOk result ((room : ℕ) → length links.now ≤ room → first_of (read_rules K.SheetKind.letter K.SheetKind.width (sheet_of K.SheetKind.letter K.SheetKind.width K.SheetKind.bytes sites links.now) room) ≡ None) }
    ensures alone { OnOk result ((n : ℕ) (others : List (Link K)) → sheet_of K.SheetKind.letter K.SheetKind.width K.SheetKind.bytes n others ≡ sheet_of K.SheetKind.letter K.SheetKind.width K.SheetKind.bytes sites links.now → (n ≡ sites) × (others ≡ links.now)) }
{
    if !(1..=64).contains(&sites) {
        return Err(Refusal::SiteCount);
    }
    let count = links.len();
    if count > 512 {
        return Err(Refusal::LinkCount);
    }
    let size = 9 + count * (2 + K::weight_width() as usize);
    if sheet.len() < size {
        return Err(Refusal::ShortList(Layer::Sheet, sheet.len()));
    }
    put_header::<K>(sites, count as u16, &mut sheet[..9]);
    put_records(links, &mut sheet[9..size]);
    Ok(size)
}

/// Writes the nine bytes of a header.
fn put_header<K: SheetKind>(sites: u8, count: u16, places: &mut [u8])
    requires { (length places.old ≡ 9) × (count ≤ 512) }
    ensures { places.new ≡ be32 (5 + count * (2 + K.SheetKind.width)) ++ (1 ∷ K.SheetKind.letter ∷ sites ∷ be16 count) }
{
    let length = 5 + count as u32 * (2 + K::weight_width() as u32);
    let [a, b, c, d] = length.to_be_bytes();
    let [high, low] = count.to_be_bytes();
    places.copy_from_slice(&[a, b, c, d, 1, K::kind_byte(), sites, high, low]);
}

/// Writes one record.
fn put_record<K: SheetKind>(link: Link<K>, places: &mut [u8])
    requires { length places.old ≡ 2 + K.SheetKind.width }
    ensures { places.new ≡ record_of K.SheetKind.bytes link }
{
    places[0] = link.from;
    places[1] = link.to;
    link.weight.encode(&mut places[2..]);
}

/// Writes one record after the other.
fn put_records<K: SheetKind>(links: &[Link<K>], places: &mut [u8])
    requires { (length places.old ≡ length links.now * (2 + K.SheetKind.width)) × (length links.now ≤ 512) }
    ensures { places.new ≡ flat_map (record_of K.SheetKind.bytes) links.now }
{
    let width = 2 + K::weight_width() as usize;
    // No contract says what a slice ends as whose `chunks_exact_mut` were written, so each place is found by its number.
    for (number, link) in links.iter().enumerate() {
        let start = number * width;
        put_record(*link, &mut places[start..start + width]);
    }
}
