//! Orders in which tasks take turns.
#![tactic(auto)]

mod draws;
pub mod order;
pub mod turns;

pub use order::Order;
pub use turns::Turns;
