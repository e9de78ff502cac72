//! The graph of a launch line: its elements by name, and the links between their pads.
#![tactic(auto)]

mod allowed;
mod building;
mod chains;
mod counting;
mod element;
mod elements;
mod ends;
mod fault;
mod graph;
mod judging;
mod laws;
mod links;
mod live;
mod making;
mod naming;

pub use building::build;
pub use element::NewElement;
pub use elements::Elements;
pub use ends::pad_name;
pub use fault::{BuildFault, What};
pub use graph::Graph;
pub use graph_pads::{PadLink, PadPlace};
pub use judging::have_common;
pub use laws::{one_answer, pads_are_linked_once};
pub use live::spread_marks;
pub use making::new_element;
