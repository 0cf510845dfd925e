//! Reduced ordered decision diagrams (ROBDDs in the sense of Bryant) over at most 64 propositions, with numbers as
//! leaves.
//!
//! In contracts, a `Store` is a `Table`, and a `Node` is a number. So is a letter, whose bit p is the truth value of
//! proposition p. `leaf_of table node letter` is the leaf of a node at a letter, or none.
//!
//! | Call | The leaf of the new node at a letter |
//! |---|---|
//! | `leaf(value)`, `none()` | `value`; none |
//! | `of_label(labels, label)` | 1 where the label is true, else none |
//! | `of_aliases(labels)` | for each alias of the labels, a node as by `of_label` |
//! | `of_label_by(aliases, label)` | as `of_label`, by these nodes of the aliases |
//! | `of_label_as(aliases, label, value)` | as `of_label_by`, with `value` for 1 |
//! | `of_proposition(proposition)` | 1 where the proposition is true, else none |
//! | `of_letter(letter)` | 1 at the given letter, else none |
//! | `of_leaves(leaves)` | the list's entry at the index `letter`, or none past its end |
//! | `of_cases(cases, other)` | that of the cases whose products are true, or `other` where none is; may make no node |
//! | `overlay(first, second)` | the first node's, or else the second's; `Clash` exactly if two leaves differ |
//! | `choose(truth, one, other)` | that of `one` where `truth` has a leaf, else that of `other` |
//! | `both(first, second, pairs)` | the index in `pairs` of the pair of both leaves; none where either is none |
//! | `negated(node)` | 1 where the node has no leaf, else none |
//! | `guard(node, value)` | `value` where the node has a leaf, else none |
//! | `fill(node, value)` | the node's, or else `value` |
//! | `relabel(node, values)` | `values[k]` where the node has the leaf k, else none |
//! | `relabel_or(node, values, other)` | as `relabel`, but `other` where the node has none |
//! | `relabel_from(other, node, values)` | as `relabel`, for a node of another store |
//! | `composed_from(other, node, truths)` | that of a node of another store at the letter that the truths form |
//! | `selected(node, value)` | 1 where the node has the leaf `value`, else none |
//! | `projected(node, hidden)` | 1 if the node has a leaf for some values of the hidden propositions, else none |
//! | `behind(node, fixed, letter)` | the node's at the letter, but with the fixed propositions as in `letter` |
//!
//! These calls keep every node of the store with its leaves, even if they fail (`Keeps`). So do
//! `least_bits(node, hidden)`, which gives a diagram for each bit of the least letter over the hidden propositions that
//! gives the node a leaf, `letter_bits(letter, mask)`, which gives those of one letter, and
//! `classes(node, split)`, which divides the letters over the propositions of `split` into classes: two are in one
//! exactly if the node has the same leaf for both, whatever the other propositions' values (`AreClasses`).
//! `classes_in_copy(other, node, split)` does this for a node of a store `other` of which this one began as a copy
//! (`copy`). `eval`, `same` and `view` read a node without memory, and `product_of` a label, if it is a conjunction of
//! literals. `len` counts the nodes, which are numbered from 0 (`Node::number`); `leaves` lists a node's leaves with
//! their least letters, and `path_to` finds this for one leaf.
//!
//! A store never drops a node. Equal diagrams are one node, found by a hash table or, for small leaves, by a table
//! indexed by the leaf. But for the first few results, which are not kept, `negated`, `guard`, `fill` and the three
//! that relabel visit each node once; `overlay` and `both`, each reachable pair; `choose`, each triple. `composed_from`
//! may visit a node again if the function that replaces its proposition is constant, since it then needs one side
//! alone. `leaves` may revisit nodes that test one of the last three propositions.
//!
//! Besides the nodes of the leaf and of none, `of_letter` makes one for each proposition, and `of_label_by`, for a
//! product, at most one for each literal; other disjunctions are joined half by half, and other conjunctions as negated
//! disjunctions. `of_cases` splits the list at one proposition after another; it returns no node if cases that differ
//! are true at one letter, or if it needs more than 256 steps for each case on average. `classes` first copies the
//! store.
#![tactic(auto)]

mod both;
pub mod cases;
mod choose;
mod classes;
mod cofactors;
mod composed;
mod disjunction;
mod fault;
mod hidden;
mod interning;
mod labels;
mod leaf_table;
mod least_bits;
mod letter;
mod maps;
mod memo;
mod overlay;
mod packed;
mod paths;
pub mod products;
mod rows;
mod split;
pub mod store;
pub mod view;

pub use cases::Case;
pub use classes::{Class, Classes};
pub use fault::OverlayError;
pub use products::Product;
pub use store::Store;
pub use view::{Node, View};
