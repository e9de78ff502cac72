//! Tests of times, values, items, caps, texts of caps, samples and heads of WAV files.
#![tactic(auto)]

#[cfg(test)]
mod audio_info_tests;
#[cfg(test)]
mod caps_text_tests;
#[cfg(test)]
mod flow_model_tests;
#[cfg(test)]
mod gst_caps_tests;
#[cfg(test)]
mod gst_item_tests;
#[cfg(test)]
mod gst_outside_tests;
#[cfg(test)]
mod gst_time_tests;
#[cfg(test)]
mod gst_value_tests;
#[cfg(test)]
mod item_letters_tests;
#[cfg(test)]
mod rows;
#[cfg(test)]
mod wav_format_tests;
