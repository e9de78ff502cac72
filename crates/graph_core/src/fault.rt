//! Why a launch line has no graph.
ghost use Rattle.std.specs.Prelude.{◌≡◌};
ghost use Rattle.graph_core.specs.Allowed.{build_fault};
ghost use Rattle.graph_core.specs.declared.fault.BuildFault.TheVariants.{OutOfMemory as NoMemory};

use gst_value::{CapsFault, OutOfMemory, PadName, Text};
use pad_core::LinkReturn;
use std::alloc::AllocFailed;
use std::fmt;
use std::fmt::{Debug, Display, Formatter, Write};
use thiserror::Error;

/// What there is not.
#[derive(Drop)]
pub enum What {
    /// A kind of element of this name.
    Kind,
    /// This property of the element.
    Property(Text),
    /// An element of this name.
    Element,
    /// The pad, whose name is that of its element, a dot and its own.
    Pad,
    /// A source pad of the element.
    SrcPad,
    /// A sink pad of the element.
    SinkPad,
    /// An order in which each link goes forward. The element is the one that the last link leaves.
    Order,
}

/// Why a launch line has no graph.
#[derive(Drop, Error)]
pub enum BuildFault {
    /// Something that the line names is not there.
    #[error("there is no such thing: {}", .name.as_str())]
    NoSuch {
        name: Text,
        what: What,
    },
    /// The value is none of this property, or the element needs the property and it was not given.
    #[error("a bad value of {} of {}", .property.as_str(), .name.as_str())]
    BadValue {
        name: Text,
        property: Text,
    },
    /// An element before has the name.
    #[error("the name {} is taken", .name.as_str())]
    NameTaken {
        name: Text,
    },
    /// An element before writes the file, or reads what this one would write.
    #[error("the location {} is taken", .location.as_str())]
    LocationTaken {
        location: Text,
    },
    /// There are more elements than a graph has, and `count` is 257; or more links make pads of one direction of an element
    /// than it can have, or what a converter is allowed to put out has more structures, fields of one or members of one
    /// list than caps have, and `count` is 65.
    #[error("{count} are too many")]
    TooMany {
        count: u32,
    },
    /// The two pads cannot be linked.
    #[error("{a} and {b} can not be linked: {ret:?}")]
    LinkRefused {
        a: PadName,
        b: PadName,
        ret: LinkReturn,
    },
    #[error("out of memory")]
    OutOfMemory,
}

/// Written as its message, since names have no `Debug`.
impl Debug for BuildFault {
    fn fmt<W: Write>(&self, formatter: &mut Formatter<W>) -> fmt::Result {
        Display::fmt(self, formatter)
    }
}

impl From<OutOfMemory> for BuildFault {
    ghost from_gives = { λ _ fault. fault ≡ NoMemory };

    fn from(_refused: OutOfMemory) -> BuildFault {
        BuildFault::OutOfMemory
    }
}

impl<T: Drop> From<AllocFailed<T>> for BuildFault {
    ghost from_gives = { λ _ fault. fault ≡ NoMemory };

    fn from(_refused: AllocFailed<T>) -> BuildFault {
        BuildFault::OutOfMemory
    }
}

impl From<CapsFault> for BuildFault {
    ghost from_gives = { λ refused fault. fault ≡ build_fault refused };

    fn from(refused: CapsFault) -> BuildFault {
        match refused {
            CapsFault::TooMany { count } => BuildFault::TooMany { count },
            CapsFault::OutOfMemory => BuildFault::OutOfMemory,
        }
    }
}
