//! The gate that does nothing.
use crate::gate::TaskGate;
use gst_value::OutOfMemory;
use std::alloc::Global;

/// A gate that holds nothing up.
#[derive(Clone, Copy, Debug, Default)]
pub struct OpenGate;

impl TaskGate for OpenGate {
    fn before_step(&self, _task: u32, _turn: u64) {}

    fn before_edit(&self, _command: u32) {}

    fn twin(&self, _alloc: Global) -> Result<OpenGate, OutOfMemory> {
        Ok(OpenGate)
    }
}
