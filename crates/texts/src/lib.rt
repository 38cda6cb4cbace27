//! Short texts in places of a fixed number: the decimal digits of a number, and lines.

#![tactic(auto)]

pub mod digits;
pub mod lines;
pub mod types;

pub use types::{Digits, Line, LineOf};
