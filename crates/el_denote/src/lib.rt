//! What an element owes for whole lists.
#![tactic(auto)]

mod denoting;
mod joined;
mod sections;

pub use denoting::denote;
