//! Weight kinds: what a weight means, how weights compare, and how up to 63 of them add up.
//!
//! A kind gives each weight an amount on a linear scale (`specs/Scales.antt`) and brings a total of its own.
//! Whatever is written over the trait `WeightKind` is proved once, from the laws alone, and serves every kind:
//! plain numbers such as metres and crossings, and the pair of any two kinds, in which the first side decides.

#![tactic(auto)]

pub mod crossings;
pub mod kinds;
pub mod measures;
pub mod metres;
pub mod pairs;

pub use crossings::{Crossings, CrossingsTotal};
pub use kinds::WeightKind;
pub use measures::{Measure, Total};
pub use metres::{Metres, MetresTotal};
pub use pairs::{Pair, PairTotal};
