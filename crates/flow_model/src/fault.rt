//! Why an element did not take an item.
ghost use Rattle.std.specs.Prelude.{◌≡◌};

use gst_caps::Caps;
use gst_value::{Fixed, OutOfMemory};
use std::fmt;
use std::fmt::{Debug, Display, Formatter, Write};
use thiserror::Error;

/// What is wrong with the bytes of a stream.
#[derive(Clone, Copy, Debug, PartialEq, Eq)]
pub enum StreamKind {
    /// The first four bytes are not `RIFF`.
    NotRiff,
    /// Bytes 8 to 11 are not `WAVE`.
    NotWave,
    /// `data` comes before any `fmt `.
    NoFmt,
    /// A `fmt ` whose numbers are wrong.
    BadFmt,
    /// A `fmt ` of a format that is not known.
    TagUnknown,
    /// The data would begin too far behind.
    HeadTooLong,
    /// The stream ends inside a head.
    Short,
    /// A buffer is not a whole number of frames.
    SplitFrame,
    /// The data is more than a head can say.
    TooLarge,
}

/// Why an element did not take an item. It and what it put out are then as before.
#[derive(Drop, Error)]
pub enum ElementFault {
    /// The caps of the stream are not those that are wanted. Without `offered` it had none.
    #[error("the caps are not those that are wanted")]
    NotNegotiated {
        offered: Option<Fixed>,
        wanted: Caps,
    },
    /// The bytes of the stream are wrong behind the first `place` of them.
    #[error("a wrong stream at byte {place}: {kind:?}")]
    BadStream {
        place: u64,
        kind: StreamKind,
    },
    /// A number passed its limit: `a` stood, and `b` more was to come.
    #[error("{a} and {b} more pass the limit")]
    TooLong {
        a: u64,
        b: u64,
    },
    #[error("out of memory")]
    OutOfMemory,
}

/// Written as its message, since caps have no `Debug`.
impl Debug for ElementFault {
    fn fmt<W: Write>(&self, formatter: &mut Formatter<W>) -> fmt::Result {
        Display::fmt(self, formatter)
    }
}

impl From<OutOfMemory> for ElementFault {
    ghost use Rattle.flow_model.specs.declared.fault.ElementFault.TheVariants.{OutOfMemory as NoMemory};

    ghost from_gives = { λ _ fault. fault ≡ NoMemory };

    fn from(_refused: OutOfMemory) -> ElementFault {
        ElementFault::OutOfMemory
    }
}
