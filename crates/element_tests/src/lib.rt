//! Tests of the elements.
#![tactic(auto)]

#[cfg(test)]
mod el_basic_tests;
#[cfg(test)]
mod el_convert_tests;
#[cfg(test)]
mod el_join_tests;
#[cfg(test)]
mod el_law_tests;
#[cfg(test)]
mod el_mix_tests;
#[cfg(test)]
mod el_parse_tests;
#[cfg(test)]
mod el_sink_tests;
#[cfg(test)]
mod el_src_tests;
#[cfg(test)]
mod el_wavenc_tests;
#[cfg(test)]
mod parse_rows_tests;
#[cfg(test)]
mod ramp_tests;
#[cfg(test)]
mod rows;
#[cfg(test)]
mod tee_tests;
#[cfg(test)]
mod valve_tests;
#[cfg(test)]
mod wav_parse_tests;
