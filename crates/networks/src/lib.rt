//! Link records and the networks made of them: what a record is, when records are refused, how links rank, what a row
//! of links costs, and which links are closed.

#![tactic(auto)]

pub mod classes;
pub mod classifying;
pub mod closed;
pub mod closures;
pub mod links;
pub mod networks;
pub mod opening;
pub mod orders;
mod plans;
pub mod pricing;
pub mod ranking;
pub mod refusals;
pub mod trials;

pub use classes::Class;
pub use closed::Closed;
pub use links::Link;
pub use networks::Network;
pub use orders::RankOrder;
pub use pricing::price;
pub use refusals::{Layer, Refusal, Report};
