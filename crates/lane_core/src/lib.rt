//! Lanes between streaming tasks: the end that items are put into, and the end that they are taken from.
#![tactic(auto)]

pub mod ends;
pub mod laws;
pub mod memory;
pub mod table;

pub use ends::{Inlet, Outlet, Put, Take};
pub use memory::{MemInlet, MemOutlet, memory_lane};
pub use table::MemLanes;
