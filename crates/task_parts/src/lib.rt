//! The parts of a task: its elements with their source pads, its head, and how one item goes from one of them to the next.
#![tactic(auto)]

pub mod fault;
pub mod find;
pub mod gather;
pub mod head;
pub mod moving;
pub mod part;
pub mod passing;
pub mod step;

pub use fault::{Failure, TaskFault};
pub use find::{first_busy, sent};
pub use head::{Head, InletHead, SourceHead};
pub use part::Part;
pub use passing::{cross_part, cross_source, give, settle, take};
pub use step::{Step, Tried};
