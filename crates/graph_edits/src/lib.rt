//! The graph of a run as commands leave it: what they name in it, what speaks against a link, and what they do to it.
#![tactic(auto)]

mod changes;
mod graph;
mod live;
mod marks;
pub mod model;
mod naming;
mod properties;
mod questions;

pub use changes::Adding;
pub use graph::EditedGraph;
pub use graph_order::Linking;
pub use model::{
    acts_are_edits, ends_are_told, falling_rows, feeder_rows, growth_joins, lawful_rows,
    links_stay_exact, loop_rows, nothing_done, one_more_entry, relink_rows, relink_splits,
    stays_kept, stays_lawful, stays_open,
};
