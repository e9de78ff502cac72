//! The files of a run: they are opened in the order of its elements, and given back.
#![tactic(auto)]

pub mod closing;
pub mod end;
pub mod opening;

pub use closing::close_all;
pub use end::{End, Opening, Unopened};
pub use opening::open_all;
