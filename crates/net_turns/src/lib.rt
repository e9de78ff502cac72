//! Runs of tasks that lanes join, by turns on one thread.
//!
//! A net of tasks stands at a moment where each task is tied to it, each element stands there, and what the inlets hold is
//! what the table of the lanes tells. Each step of a task keeps that. A run ends where no task can move, and tells why for
//! each, or where one meets a fault.
#![tactic(auto)]

pub mod laws;
pub mod net;

pub use net::{Stopped, has_moved, run_tasks, step_at, try_each};
