//! Walks through the full list of a network's cheapest trees, with receivers that take its rows.
//!
//! What any list of calls of next, pour and seek promises stands in `specs/Runs.antt`, as laws over the whole
//! run. They are kept call by call: a single call has a law of its own (`specs/Steps.antt`), and a run grows by
//! it. The laws leave one answer to every call, so two runs over one full list in which the same is asked are
//! equal. Each function below stands for a theorem, which its contract states.

#![tactic(auto)]

mod endings;
pub mod performing;
mod pouring;
mod stepping;
pub mod substituting;
mod theorems;
pub mod turns;
pub mod walking;
mod walks;

pub use endings::Ending;
pub use performing::{perform, perform_both};
pub use turns::{Answer, Call, Reply, Turn};
pub use walks::Walk;
