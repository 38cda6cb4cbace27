//! The kinds of sheet that are told apart, and the answer to a sheet.

use networks::Refusal;

/// How a sheet is read.
#[derive(Clone, Copy, PartialEq, Eq, Debug)]
pub enum Kind {
    /// Kind W: metres.
    Metres,
    /// Kind P: crossings, and then metres.
    CrossingsMetres,
}

/// How many sites and links a sheet has.
#[derive(Clone, Copy, PartialEq, Eq, Debug)]
pub struct Contents {
    pub sites: u8,
    pub links: usize,
}

/// The answer to a sheet: how many sites and links it has, or why it is refused.
pub type Answer = Result<Contents, Refusal>;
