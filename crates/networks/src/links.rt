//! Link records, as they are handed in and come back.

/// A link between two sites, which has one weight. Which end comes first means nothing, but is kept.
#[derive(Clone, Copy, PartialEq, Eq, Debug)]
pub struct Link<W> {
    pub from: u8,
    pub to: u8,
    pub weight: W,
}
