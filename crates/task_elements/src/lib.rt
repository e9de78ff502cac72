//! The elements of a stream as those that a task moves items between.
#![tactic(auto)]

pub mod element;
pub mod filter;
pub mod join;
pub mod laws;
mod making;
pub mod source;

pub use element::StreamElement;
pub use filter::StreamFilter;
pub use join::StreamJoin;
pub use making::element_of;
pub use source::StreamSource;
