//! Why properties are refused.
use gst_value::{OutOfMemory, Text};
use std::fmt;
use std::fmt::{Debug, Display, Formatter, Write};
use thiserror::Error;

/// Why an element cannot be set to the given properties.
#[derive(Drop, Error)]
pub enum PropFault {
    /// There is no kind of this name.
    #[error("no such kind")]
    NoSuchKind,
    /// The kind does not take a property of this name.
    #[error("no such property: {}", .name.as_str())]
    NoSuchProperty { name: Text },
    /// The value is none of the property of this name, or the property is needed and was not given.
    #[error("a bad value of {}", .name.as_str())]
    BadValue { name: Text },
    #[error("out of memory")]
    OutOfMemory,
}

/// Written as its message, since `Text` has no `Debug`.
impl Debug for PropFault {
    fn fmt<W: Write>(&self, formatter: &mut Formatter<W>) -> fmt::Result {
        Display::fmt(self, formatter)
    }
}

impl From<OutOfMemory> for PropFault {
    ghost use Rattle.std.specs.Prelude.{◌≡◌};
    ghost use Rattle.el_settings.specs.declared.fault.PropFault.TheVariants.{OutOfMemory as NoMemory};

    ghost from_gives = { λ _ fault. fault ≡ NoMemory };

    fn from(_refused: OutOfMemory) -> PropFault {
        PropFault::OutOfMemory
    }
}
