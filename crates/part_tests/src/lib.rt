//! Tests of launch lines and scripts as texts, orders, words, files, lanes and pads.
#![tactic(auto)]

#[cfg(test)]
mod graph_order_tests;
#[cfg(test)]
mod inlet_row_tests;
#[cfg(test)]
mod lane_core_tests;
#[cfg(test)]
mod launch_text_tests;
#[cfg(test)]
mod pad_core_tests;
#[cfg(test)]
mod read_ahead_tests;
#[cfg(test)]
mod rows;
#[cfg(test)]
mod run_files_tests;
#[cfg(test)]
mod run_words_tests;
#[cfg(test)]
mod script_file_tests;
#[cfg(test)]
mod script_text_tests;
#[cfg(test)]
mod task_pads_tests;
#[cfg(test)]
mod turn_order_tests;
