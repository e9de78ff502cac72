//! The tasks of a graph: each bag of elements as a task, with a lane for each link between them, and the law that they stand where
//! the run of the graph begins. What an ended run of them means are laws too, functions that do nothing: what the histories of its
//! pads, the files of its sinks and its faults are by the evaluation of the graph.
#![tactic(auto)]

pub mod blamed;
pub mod ended;
pub mod laws;
pub mod making;
pub mod over;
mod rows;
mod source_pads;
mod taking;
pub mod wired_task;
pub mod wiring;
pub mod written;

pub use making::Plan;
pub use wired_task::{WiredHead, WiredPart, WiredTask, WiredTasks};
pub use wiring::{wire, wire_all};
