//! Elements that code and decode audio by the two laws of G.711.
#![tactic(auto)]

pub mod kind;
pub mod law;
mod recode;

pub use kind::LawKind;
pub use law::Law;
