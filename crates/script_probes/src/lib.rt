//! Which command of a script stops the next buffer at a source pad.
#![tactic(auto)]

mod laws;
mod pads;
mod probes;
mod stops;

pub use laws::one_stop;
pub use probes::ScriptProbes;

#[cfg(test)]
mod tests;
