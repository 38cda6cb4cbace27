//! The reader of a sheet: it takes the header off, and then one record after the other.

ghost use Rattle.std.specs.Prelude.{◌≡◌, ℕ, ◌+◌, ◌*◌, ◌<◌, ◌≤◌, length, take, drop, MatchOption, slice_index};
ghost use Rattle.std.specs.List.{flat_map};
ghost use Rattle.sheets.specs.Layout.{record_of};
ghost use Rattle.sheets.specs.Headers.{Taken};

use crate::kinds::SheetKind;
use crate::reading::Counts;
use networks::Link;

/// What a sheet says of itself before its records.
#[derive(Clone, Copy)]
pub(crate) struct Header {
    /// How many bytes follow this field.
    pub(crate) length: u32,
    pub(crate) version: u8,
    pub(crate) kind: u8,
    pub(crate) counts: Counts,
}

/// The records of a sheet, read up to an offset.
// Bytes with an offset beside them: a form that the product is to have.
#[derive(Drop)]
pub(crate) struct Reader<'a> {
    bytes: &'a [u8],
    offset: usize,
}

/// The header of a sheet, and a reader of what follows it; none where the sheet is shorter than a header.
pub(crate) fn take_header(sheet: &[u8]) -> Option<(Header, Reader<'_>)>
    ensures { MatchOption result (length sheet.now < 9) (λ h. Taken sheet.now h.0 h.1.bytes.now h.1.offset) }
{
    let [a, b, c, d, version, kind, sites, high, low, rest @ ..] = sheet else {
        return None;
    };
    let header = Header {
        length: u32::from_be_bytes([*a, *b, *c, *d]),
        version: *version,
        kind: *kind,
        counts: Counts {
            sites: *sites,
            links: u16::from_be_bytes([*high, *low]),
        },
    };
    let reader = Reader {
        bytes: rest,
        offset: 0,
    };
    Some((header, reader))
}

impl Reader<'_> {
    /// The next byte.
    fn byte(&mut self) -> u8
        requires { self.old.offset < length self.old.bytes.now }
        ensures value { result ≡ slice_index self.old.bytes.now self.old.offset }
        ensures offset { self.new.offset ≡ self.old.offset + 1 }
        ensures same { self.new.bytes.now ≡ self.old.bytes.now }
    {
        let byte = self.bytes[self.offset];
        self.offset += 1;
        byte
    }

    /// The next weight.
    fn weight<K: SheetKind>(&mut self) -> K
        requires { self.old.offset + K.SheetKind.width ≤ length self.old.bytes.now }
        ensures value { K.SheetKind.bytes result ≡ take K.SheetKind.width (drop self.old.offset self.old.bytes.now) }
        ensures offset { self.new.offset ≡ self.old.offset + K.SheetKind.width }
        ensures same { self.new.bytes.now ≡ self.old.bytes.now }
    {
        let start = self.offset;
        let end = start + K::weight_width() as usize;
        self.offset = end;
        K::decode(&self.bytes[start..end]).unwrap()
    }

    /// The next record.
    fn record<K: SheetKind>(&mut self) -> Link<K>
        requires { self.old.offset + (2 + K.SheetKind.width) ≤ length self.old.bytes.now }
        ensures value { record_of K.SheetKind.bytes result ≡ take (2 + K.SheetKind.width) (drop self.old.offset self.old.bytes.now) }
        ensures offset { self.new.offset ≡ self.old.offset + (2 + K.SheetKind.width) }
        ensures same { self.new.bytes.now ≡ self.old.bytes.now }
    {
        let from = self.byte();
        let to = self.byte();
        let weight = self.weight();
        Link { from, to, weight }
    }

    /// Fills the links with the records of a sheet, of which there are as many.
    pub(crate) fn fill<K: SheetKind>(&mut self, links: &mut [Link<K>])
        requires { (self.old.offset ≡ 0) × (length self.old.bytes.now ≡ length links.old * (2 + K.SheetKind.width)) }
        ensures fills { flat_map (record_of K.SheetKind.bytes) links.new ≡ self.old.bytes.now }
        ensures offset { self.new.offset ≡ length self.new.bytes.now }
        ensures same { self.new.bytes.now ≡ self.old.bytes.now }
    {
        for link in links.iter_mut() {
            *link = self.record();
        }
    }
}
