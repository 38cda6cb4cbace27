//! Receivers: what rows are offered to.
//!
//! A receiver holds a list of numbers. Its taking rule says, from what it holds and a row alone, whether the row is
//! taken and what is held afterwards; no call alters the rule. Whatever is written over the trait `Receiver` is proved
//! from that alone and serves all of them: the keeper and the text writer, which write into a passed list, and the
//! tally, which counts.

#![tactic(auto)]

pub mod callers;
pub mod keeper;
pub mod places;
pub mod receiver;
mod row_line;
pub mod tally;
pub mod types;
pub mod writer;

pub use keeper::Keeper;
pub use places::Places;
pub use receiver::Receiver;
pub use types::{Count, Tally};
pub use writer::{TextWriter, longest_line};
