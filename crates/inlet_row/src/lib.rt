//! What a sink pad takes its items from.
#![tactic(auto)]

pub mod feeding;
pub mod row;

pub use feeding::{Answer, Feeding, UNLINKED};
pub use row::InletRow;
