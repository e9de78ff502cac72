//! The report of a run.
use flow_model::StreamKind;
use graph_core::What;
use gst_caps::Caps;
use gst_value::{Fixed, List, PadName, Text};
use launch_text::LineKind;
use pad_core::LinkReturn;
use script_text::{Entry, Place, ScriptKind};

/// What crossed a source pad.
#[derive(Drop)]
pub struct PadCount {
    pub pad: PadName,
    /// How many items crossed, events counted.
    pub items: u64,
    /// How many of them were buffers.
    pub buffers: u64,
}

/// What the file of a filesink holds.
#[derive(Drop)]
pub struct SinkCount {
    pub name: Text,
    /// The length of the file, in bytes.
    pub bytes: u64,
}

/// Why a task of a stalled run did not go on.
#[derive(Drop)]
pub enum StallReason {
    /// No item waits at this sink pad.
    NeedsItem(PadName),
    /// An item is pending, and there is no room for it at this sink pad.
    NeedsRoom(PadName),
    /// The buffer before which the command with this number, from 1 on, is to be done is pending.
    AtProbe(u32),
    /// This sink holds an item, in the state PAUSED.
    Held(Text),
    /// Nothing is pending, and its first element has ended or is a source that is not yet active.
    Ended,
}

/// A task of a stalled run.
#[derive(Drop)]
pub struct StalledTask {
    /// The name of its first element.
    pub head: Text,
    pub reason: StallReason,
    /// The sink pads at which items come into it, with how many were taken there.
    pub taken: List<Place>,
}

/// Why a run ended before its end of stream.
#[derive(Drop)]
pub enum Fault {
    /// It did not.
    Nothing,
    /// The words are not those of the program's options.
    Words,
    /// There is no launch line.
    NoLine,
    /// There are words of a line, and a line that the program makes.
    BothLines,
    /// The text is no launch line. `place` is the length in bytes of its longest beginning with which some line
    /// begins.
    BadLine {
        place: u32,
        kind: LineKind,
    },
    /// What the line names does not exist.
    NoSuch {
        name: Text,
        what: What,
    },
    /// A property of the element `name` has a value that it cannot have, or is missing.
    BadValue {
        name: Text,
        property: Text,
    },
    /// The name of an element is in use.
    NameTaken {
        name: Text,
    },
    /// The location is in use.
    LocationTaken {
        location: Text,
    },
    /// A limit was passed. `count` is the number that did.
    TooMany {
        count: u32,
    },
    /// The source pad `a` and the sink pad `b` cannot be linked.
    LinkRefused {
        a: PadName,
        b: PadName,
        ret: LinkReturn,
    },
    /// The text of the script is none. `line` is the first line at fault, counted from 1, and 0 where the text is too long.
    BadScript {
        line: u32,
        kind: ScriptKind,
    },
    /// A location could not be opened.
    OpenFault {
        location: Text,
    },
    /// A source could not be read. Its count of failures was `before`, and then `after`.
    ReadFault {
        location: Text,
        before: u64,
        after: u64,
    },
    /// A sink could not be written. Its count of failures was `before`, and then `after`.
    WriteFault {
        location: Text,
        before: u64,
        after: u64,
    },
    /// The bytes that reached the element are wrong behind the first `place` of them.
    BadStream {
        element: Text,
        place: u64,
        kind: StreamKind,
    },
    /// The caps of the stream that reached the element are none of those that are wanted. Without `offered` it had
    /// none.
    NotNegotiated {
        element: Text,
        offered: Option<Fixed>,
        wanted: Caps,
    },
    /// A buffer reached a source pad without a link, after `place` items had crossed it.
    NotLinked {
        pad: PadName,
        place: u64,
    },
    /// No task could go on, with the command of this number, from 1 on, still to come.
    Stalled {
        command: Option<u32>,
        tasks: List<StalledTask>,
    },
    /// A number of an element passed its limit: `a` stood, and `b` more was to come.
    TooLong {
        element: Text,
        a: u64,
        b: u64,
    },
}

/// What a run did: the answers to the commands of its script, the counts of each source pad and of each file
/// sink that ever was, in the order of the elements, and the fault that ended it. Where the run did not
/// begin, the lists are empty.
#[derive(Drop)]
pub struct Report {
    pub entries: List<Entry>,
    pub pads: List<PadCount>,
    pub sinks: List<SinkCount>,
    pub fault: Fault,
}
