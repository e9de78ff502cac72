//! Tests of what commands make of a graph, and of control's acts on tasks.
#![tactic(auto)]

#[cfg(test)]
mod graph_edits_tests;
#[cfg(test)]
mod task_edits_tests;
