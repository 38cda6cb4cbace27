//! Cheapest spanning trees of a graph, on any scale of amounts.
//!
//! Links are ranked by amount, and by number among equal amounts. The row of a spanning tree is its
//! links in rising order of rank; the rows of all cheapest trees, in their order, are the full list.
//! One equivalence carries the theory: a row is a cheapest tree's if and only if it has, position by
//! position, the amounts of the first row, which the greedy run over the ranked links gives. So the
//! first row and the row after a given one are found by comparisons alone, and amounts that compare
//! alike, on whatever scales, give the same full list.
//!
//! A `Plan` is a graph with numbers for amounts, here called marks. `Rows` walks through the full list of
//! a plan: it keeps the row that it is on and the labels of all its prefixes, so the next row is found by
//! trying the places from the last on, each by one run over the candidates that come after. The list is
//! never stored, and `Kept` is a copy of the place that a walk has reached. What a plan's cheapest trees
//! have in common is asked of the plan itself. The runs over candidates are private methods (`completing.rt` and
//! `searching.rt`), which the public functions call.
//!
//! The definitions and the statements stand in `specs/`, the proofs in `proofs/`: first the theory, over
//! any scale, then what ties the code to it (`Growth` and `Searches` for the runs over candidates,
//! `Translation` from candidates to links, `Standings` and `Stances` for a walk and its steps).

#![tactic(auto)]

mod beginning;
mod candidates;
mod choosing;
mod closing;
mod completing;
mod enumeration;
mod keeping;
mod kept;
mod listing;
mod membership;
mod moving;
pub mod plan;
mod reading;
mod searching;
mod seeking;
mod showing;
mod statements;
mod substituting;
mod walk;

pub use enumeration::Rows;
pub use kept::Kept;
pub use plan::{Plan, PlanLink};
