//! Complete networks at one price, in which every spanning tree is a cheapest one: a network of n sites has n to the
//! power of n - 2 of them (Cayley's formula), so the number of rows is known beforehand.

#![tactic(auto)]

pub mod links;
pub mod pouring;

pub use links::{complete, complete_network};
pub use pouring::pour_all;
