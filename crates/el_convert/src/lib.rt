//! The element that converts raw audio to the caps that are allowed behind it.
#![tactic(auto)]

mod bodies;
pub mod convert;
pub mod laws;
mod put_out;
mod raw;
pub(crate) mod stream;

pub use convert::Convert;
