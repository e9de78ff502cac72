//! Runs by turns: which of many takes its turn is told by an order, and control acts on them between their turns.
#![tactic(auto)]

pub mod running;
pub mod taking;

pub use running::run;
pub use taking::TakesTurns;

#[cfg(test)]
mod tests;
