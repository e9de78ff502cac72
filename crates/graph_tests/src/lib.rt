//! Tests of graphs, their bags and tasks, and reports.
#![tactic(auto)]

#[cfg(test)]
mod bags_tests;
#[cfg(test)]
mod graph_core_tests;
#[cfg(test)]
mod graph_tasks_tests;
#[cfg(test)]
mod lines;
#[cfg(test)]
mod run_report_tests;
