//! Names of pads and properties.
ghost use Rattle.std.specs.Prelude.{◌≡◌, IfOk};

use crate::memory::OutOfMemory;
use crate::text::Text;
use std::alloc::Global;
use std::fmt;
use std::fmt::{Display, Formatter, Write};

/// A property with its value, as `blocksize=16`.
#[derive(Drop)]
pub struct Prop {
    pub name: Text,
    pub value: Text,
}

impl Prop {
    /// The same property once more.
    pub fn copy(&self, alloc: Global) -> Result<Prop, OutOfMemory>
        ensures { IfOk result (λ made. made ≡ self.now) }
    {
        Ok(Prop {
            name: self.name.copy(alloc)?,
            value: self.value.copy(alloc)?,
        })
    }
}

/// The name of an element's pad, as `identity0.src`.
#[derive(Drop)]
pub struct PadName {
    pub element: Text,
    pub pad: Text,
}

impl PadName {
    /// The same name once more.
    pub fn copy(&self, alloc: Global) -> Result<PadName, OutOfMemory>
        ensures { IfOk result (λ made. made ≡ self.now) }
    {
        Ok(PadName {
            element: self.element.copy(alloc)?,
            pad: self.pad.copy(alloc)?,
        })
    }
}

impl Display for PadName {
    fn fmt<W: Write>(&self, formatter: &mut Formatter<W>) -> fmt::Result {
        write!(formatter, "{}.{}", self.element.as_str(), self.pad.as_str())
    }
}
