//! Tests of what elements are set to, and of the elements by it.
#![tactic(auto)]

#[cfg(test)]
mod denoting_tests;
#[cfg(test)]
mod el_set_tests;
#[cfg(test)]
mod el_settings_tests;
#[cfg(test)]
mod joining_tests;
#[cfg(test)]
mod task_elements_tests;
