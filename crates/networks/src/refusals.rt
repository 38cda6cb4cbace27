//! Refusals: what was wrong with what was handed in, or why the moment does not allow a call.

ghost use Rattle.std.specs.Prelude.{◌≡◌, Some};
ghost use Rattle.networks.specs.Refusals.{report_of, name_of, line_of};

use std::error::Error;
use std::fmt;

/// The part of the product that refuses.
#[derive(Clone, Copy, PartialEq, Eq, Debug)]
pub enum Layer {
    Sheet,
    Network,
    Walk,
}

impl Layer {
    /// The layer's name as it is printed.
    pub fn name(&self) -> &'static str
        ensures { result.now ≡ name_of self.now }
    {
        match self {
            Layer::Sheet => "sheet",
            Layer::Network => "network",
            Layer::Walk => "walk",
        }
    }
}

/// Everything that is refused; each case carries the values that its place is made of.
#[derive(Clone, Copy, PartialEq, Eq, Debug)]
pub enum Refusal {
    /// The sheet has only so many bytes, fewer than its header.
    ShortSheet(usize),
    /// The length field is not the number of bytes after it.
    WrongLength,
    /// The version byte is not one that is read.
    UnknownVersion,
    /// The kind byte is not the letter of the kind that is read.
    OtherKind,
    /// The sheet says another number of sites than 1 to 64.
    SheetSiteCount,
    /// Records are opened or written for another number of sites than 1 to 64.
    SiteCount,
    /// The sheet says more than 512 links.
    SheetLinkCount,
    /// More than 512 records are opened or written.
    LinkCount,
    /// The length field does not fit the number of links.
    WrongRecords,
    /// An end of this link is no site.
    NoSuchSite(usize),
    /// Both ends of this link are one site.
    SelfLink(usize),
    /// A passed list has only so many places, fewer than are needed.
    ShortList(Layer, usize),
    /// There is no link of this number.
    NoSuchLink(u16),
    /// The letter is no class.
    UnknownClass,
    /// The row sought is not in the full list.
    NotListed,
    /// The row's entry at this index is no record's number, or a 64th.
    BadEntry(usize),
    /// The sites of the network that is tried are not joined.
    TrialNotJoined,
    /// The sites of the walk's network are not joined.
    NotJoined,
    /// No row follows.
    NoRowFollows,
    /// The walk is not on a row yet.
    NotOnRow,
    /// This link is not in the walk's row.
    NotInRow(u16),
}

/// A refusal as the outside sees it.
#[derive(Clone, Copy, PartialEq, Eq, Debug)]
pub struct Report {
    pub layer: Layer,
    pub number: u8,
    pub place: usize,
}

impl From<Refusal> for Report {
    ghost from_gives = { λ refusal report. report ≡ report_of refusal };

    fn from(refusal: Refusal) -> Report {
        let (layer, number, place) = match refusal {
            Refusal::ShortSheet(bytes) => (Layer::Sheet, 1, bytes),
            Refusal::WrongLength => (Layer::Sheet, 2, 0),
            Refusal::UnknownVersion => (Layer::Sheet, 3, 4),
            Refusal::OtherKind => (Layer::Sheet, 4, 5),
            Refusal::SheetSiteCount => (Layer::Sheet, 5, 6),
            Refusal::SiteCount => (Layer::Network, 5, 0),
            Refusal::SheetLinkCount => (Layer::Sheet, 6, 7),
            Refusal::LinkCount => (Layer::Network, 6, 0),
            Refusal::WrongRecords => (Layer::Sheet, 7, 7),
            Refusal::NoSuchSite(link) => (Layer::Network, 8, link),
            Refusal::SelfLink(link) => (Layer::Network, 9, link),
            Refusal::ShortList(layer, places) => (layer, 10, places),
            Refusal::NoSuchLink(link) => (Layer::Network, 11, link as usize),
            Refusal::UnknownClass => (Layer::Network, 12, 0),
            Refusal::NotListed => (Layer::Walk, 13, 0),
            Refusal::BadEntry(index) => (Layer::Network, 14, index),
            Refusal::TrialNotJoined => (Layer::Network, 15, 0),
            Refusal::NotJoined => (Layer::Walk, 15, 0),
            Refusal::NoRowFollows => (Layer::Walk, 16, 0),
            Refusal::NotOnRow => (Layer::Walk, 17, 0),
            Refusal::NotInRow(link) => (Layer::Walk, 18, link as usize),
        };
        Report {
            layer,
            number,
            place,
        }
    }
}

impl Refusal {
    /// The layer, number and place of this refusal.
    pub fn to_report(&self) -> Report
        ensures { result ≡ report_of self.now }
    {
        Report::from(*self)
    }
}

impl fmt::Display for Layer {
    ghost output = { λ layer. Some (name_of layer) };

    fn fmt<W: fmt::Write>(&self, f: &mut fmt::Formatter<W>) -> fmt::Result {
        f.write_str(self.name())
    }
}

impl fmt::Display for Report {
    ghost output = { λ report. Some (line_of report) };

    fn fmt<W: fmt::Write>(&self, f: &mut fmt::Formatter<W>) -> fmt::Result {
        write!(
            f,
            "refused {} at {} in {}",
            self.number, self.place, self.layer
        )
    }
}

impl fmt::Display for Refusal {
    ghost output = { λ refusal. Some (line_of (report_of refusal)) };

    fn fmt<W: fmt::Write>(&self, f: &mut fmt::Formatter<W>) -> fmt::Result {
        write!(f, "{}", self.to_report())
    }
}

impl Error for Refusal {}
