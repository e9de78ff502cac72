//! The elements by what they are set to: how each is made, and for what it stands.
#![tactic(auto)]

pub mod element;
pub mod filter;
pub mod join;
pub mod laws;
mod making;
pub mod sink;
pub mod source;

pub use element::Element;
pub use filter::FilterElement;
pub use join::JoinElement;
pub use making::{filter_of, join_of, sink_of, source_of, tee_of};
pub use sink::SinkElement;
pub use source::SourceElement;
