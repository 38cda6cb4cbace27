//! Worked examples: what the layers answer on the sample networks, and each refusal at its lowest and highest edge.

#![tactic(auto)]

mod drawn;
mod edges;
mod networks_of_records;
mod outcomes;
mod questions;
pub mod statements;
mod totals;
