//! A task as a bag of elements: a head, and elements with their source pads, in any grouping. A step moves one item.
#![tactic(auto)]

mod answers;
pub mod task;

pub use task::Task;
