//! Elements that pass what they are fed.
#![tactic(auto)]

pub mod caps_filter;
mod events;
pub mod identity;
pub mod tee;
pub mod valve;

pub use caps_filter::CapsFilter;
pub use identity::Identity;
pub use tee::Tee;
pub use valve::Valve;
