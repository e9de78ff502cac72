//! What the tasks of a graph are made of, before their elements and sources are there.
use inlet_row::InletRow;
use lane_core::MemLanes;
use std::collections::VecDeque;
use task_pads::Pad;

/// The number of an element of a task, and its source pads.
#[derive(Drop)]
pub struct WiredPart<O> {
    pub number: u32,
    pub pads: Vec<Pad<O>>,
}

/// What a task begins with.
#[derive(Drop)]
pub enum WiredHead<I, O> {
    /// The source of a number, with its pad.
    Source {
        number: u32,
        pad: Pad<O>,
    },
    /// The element of a number, which is looked for first at the place `hint`, with what each of its sink pads is fed
    /// from.
    Inlets {
        number: u32,
        hint: usize,
        rows: Vec<InletRow<I>>,
    },
}

/// A task without its elements, in the order in which their source pads are tried.
#[derive(Drop)]
pub struct WiredTask<I, O> {
    pub head: WiredHead<I, O>,
    pub parts: VecDeque<WiredPart<O>>,
}

/// The tasks of a graph without their elements, in the order of its bags, and the table of the lanes between them.
#[derive(Drop)]
pub struct WiredTasks<I, O> {
    pub tasks: VecDeque<WiredTask<I, O>>,
    pub lanes: MemLanes,
}
