//! Items: what crosses a pad, what stays in force there, and what elements answer.
#![tactic(auto)]

pub mod body;
pub mod flow;
pub mod item;
pub mod out;
pub mod sticky;

pub use body::Body;
pub use flow::Flow;
pub use item::{Buffer, Event, Item};
pub use out::{Out, Outs};
pub use sticky::Sticky;

#[cfg(test)]
mod tests;
