//! Classes of links.

/// What the cheapest trees of a network have to do with one of its links.
#[derive(Clone, Copy, PartialEq, Eq, Debug)]
pub enum Class {
    /// No cheapest tree has the link.
    Never,
    /// Every cheapest tree has the link, and there is one.
    Always,
    /// Some cheapest tree has the link, and some has not.
    Sometimes,
}
