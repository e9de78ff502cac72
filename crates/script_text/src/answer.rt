//! How the commands of a script were answered.
use gst_value::{List, PadName};

/// A place on a source pad: a number of items.
#[derive(Drop)]
pub struct Place {
    pub pad: PadName,
    pub items: u64,
}

/// Why a command of the script was refused.
#[derive(Drop)]
pub enum Reason {
    /// A named pad, element, kind or property does not exist.
    NoSuch,
    /// A property's value is not one that it can have, or a needed property is missing.
    BadValue,
    /// The new element's name is in use.
    NameTaken,
    /// The new element's location is in use.
    LocationTaken,
    /// A limit would be passed. `count` is the number that does.
    TooMany { count: u32 },
    /// The element is not the one to which the pad is linked.
    NotPeer,
    /// The element is of a kind that the command does not take.
    NotPlain,
    /// The sink pad or the selector has had EOS.
    AfterEos,
    /// The pad, or some pad of the element, is linked.
    WasLinked,
    /// With the new link some elements would feed themselves.
    WouldLoop,
    /// An element that would come into the task has had an item from another one.
    FedElsewhere,
    /// The static caps of the two pads have no common fixed caps.
    NoFormat,
    /// A parser on the way has not put out a SEGMENT. `fed` is the pad that feeds it, with the items that crossed,
    /// and `out` its source pad, with the items that it put out.
    NotReady { fed: Place, out: Place },
    /// Some source has no single place for the time.
    NotSeekable,
    /// The time is behind the last frame of a source.
    BeyondEnd,
}

/// How a command of the script was answered.
#[derive(Drop)]
pub enum Answer {
    /// It was done, at these places.
    Done { places: List<Place> },
    /// The stream ended before the command's place was reached.
    Unreached,
    /// It was refused, at these places, and changed nothing.
    Refused { reason: Reason, places: List<Place> },
}

/// The answer to one command of the script.
#[derive(Drop)]
pub struct Entry {
    pub answer: Answer,
}
