//! Forests and spanning trees of a graph, with no weights.
//!
//! A graph has sites and links, both numbered from 0. A list of links joins two sites if a chain of
//! its links leads from the one to the other; it spans a link if it joins the link's ends. Spanning
//! obeys a law of exchange, and from that law alone follow the size of forests, the greedy completion
//! and its lowest place among all forests. The definitions stand in `specs/`, the proofs in `proofs/`.
//! Each function below stands for a theorem, which its contract states.

#![tactic(auto)]

pub mod merging;

ghost use Rattle.forests.specs.Theorems.{Exchange, ForestSize, ForestJoins, TreesAreForests, JoinedTree, Labelled, CompletionLowest};

pub use merging::merged;

/// Exchange: where a new link joins the ends of another, the other could have been added in its place.
fn exchange_stands()
    ensures { Exchange }
{}

/// A forest that joins all of `n` sites has `n - 1` links.
fn forest_size_stands()
    ensures { ForestSize }
{}

/// A forest of `n - 1` links joins all of `n` sites.
fn forest_joins_stands()
    ensures { ForestJoins }
{}

/// Spanning trees are the forests of `n - 1` usable links.
fn trees_are_forests_stands()
    ensures { TreesAreForests }
{}

/// The sites of a graph are joined exactly if it has a spanning tree.
fn joined_tree_stands()
    ensures { JoinedTree }
{}

/// Labels agree exactly where sites are joined.
fn labelled_stands()
    ensures { Labelled }
{}

/// The greedy completion of a forest is no shorter than any other, and lowest at every position.
fn completion_lowest_stands()
    ensures { CompletionLowest }
{}
