//! The commands of a script.
use gst_value::{List, PadName, Prop, Text};

/// When a command is done.
#[derive(Drop)]
pub enum When {
    /// When this many buffers have passed the pad.
    At { pad: PadName, buffers: u64 },
    /// As soon as the commands before it are done, at this pad.
    NowPad { pad: PadName },
    /// As soon as the commands before it are done.
    Now,
}

/// What a command does.
#[derive(Drop)]
pub enum Act {
    /// Links the pad of the command to this sink pad in place of its peer.
    Relink { sink: PadName },
    /// Takes the link of the pad away. With `eos` the stream of its peer ends.
    Unlink { eos: bool },
    /// Adds an element of this kind. One of the properties is its name.
    Add { kind: Text, props: List<Prop> },
    /// Removes the element of this name.
    Remove { element: Text },
}

/// A command of a script: what is done, and when.
#[derive(Drop)]
pub struct Command {
    pub when: When,
    pub act: Act,
}
