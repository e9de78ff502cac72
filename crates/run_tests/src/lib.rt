//! Tests of whole runs.
#![tactic(auto)]

#[cfg(test)]
mod launch_run_tests;
#[cfg(test)]
mod world_core_tests;
