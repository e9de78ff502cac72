//! Gates of tasks.
use gst_value::OutOfMemory;
use std::alloc::Global;

/// What a task and a run pass through at each step, where a test or a host may look on or hold them.
pub trait TaskGate: Send + Drop + 'static {
    /// Before a task tries a step: the number of its head's element, and the number of the step in this
    /// run of the task, from 0.
    fn before_step(&self, task: u32, turn: u64);

    /// Before an edit: the number of its command, from 1.
    fn before_edit(&self, command: u32);

    /// Another gate that does the same.
    fn twin(&self, alloc: Global) -> Result<Self, OutOfMemory>
    where
        Self: Sized;
}
