//! Why a task went no further.
ghost use Rattle.std.specs.Prelude.{◌≡◌};

use crate::find::MOST_ITEMS;
use flow_model::{Mismatch, Refused, StreamKind, Unread, Why};
use gst_caps::Caps;
use gst_value::Fixed;
use std::fmt;
use std::fmt::{Debug, Display, Formatter, Write};
use std::marker::Model;
use thiserror::Error;

/// Why a task went no further. Elements and source pads are named by their numbers.
#[derive(Drop, Error)]
pub enum TaskFault {
    /// A source could not be read: its count of failed calls was `before`, and then `after`.
    #[error("element {element} could not be read: {after} failed calls, {before} of them before")]
    ReadFault {
        element: u32,
        before: u64,
        after: u64,
    },
    /// A sink could not be written: its count of failed calls was `before`, and then `after`.
    #[error("element {element} could not be written: {after} failed calls, {before} of them before")]
    WriteFault {
        element: u32,
        before: u64,
        after: u64,
    },
    /// The bytes that reached an element have this fault at this place.
    #[error("a wrong stream at byte {place} of what reached element {element}: {kind:?}")]
    Stream {
        element: u32,
        place: u64,
        kind: StreamKind,
    },
    /// An element was offered caps that are not among those that it takes, or none.
    #[error("the caps of what reached element {element} are not those that are wanted")]
    Caps {
        element: u32,
        offered: Option<Fixed>,
        wanted: Caps,
    },
    /// A number of an element would pass its limit: `a` stood, and `b` more was to come.
    #[error("{a} and {b} more pass the limit of element {element}")]
    TooLong {
        element: u32,
        a: u64,
        b: u64,
    },
    /// A buffer was to cross this source pad, which is not linked; so many items had crossed it.
    #[error("a buffer behind {place} items reached source pad {pad}, which is not linked")]
    NotLinked {
        pad: u32,
        place: u64,
    },
    /// No memory was left for an item.
    #[error("out of memory")]
    OutOfMemory,
}

/// Written as its message, since caps have no `Debug`.
impl Debug for TaskFault {
    fn fmt<W: Write>(&self, formatter: &mut Formatter<W>) -> fmt::Result {
        Display::fmt(self, formatter)
    }
}

/// What a `Failure` holds.
#[derive(Drop)]
enum Cause {
    Read {
        element: u32,
        before: u64,
        after: u64,
    },
    Write {
        element: u32,
        before: u64,
        after: u64,
    },
    Stream {
        element: u32,
        place: u64,
        kind: StreamKind,
    },
    Caps {
        element: u32,
        mismatch: Box<Mismatch>,
    },
    TooLong {
        element: u32,
        a: u64,
        b: u64,
    },
    NotLinked {
        pad: u32,
        place: u64,
    },
    OutOfMemory,
}

/// Why a task went no further, in three words, since each answer inside of a step has room for it; seen as the fault.
#[derive(Drop)]
pub struct Failure {
    cause: Cause,
}

impl Model for Failure {
    ghost use Rattle.task_parts.specs.declared.fault.TaskFault.{TaskFault};

    ghost Value = { TaskFault };

    ghost use Rattle.task_parts.specs.Cause.{fault_of};

    ghost view = { λ failure. fault_of failure.cause };
}

impl Failure {
    ghost use Rattle.task_parts.specs.Fault.{refusal_fault, unread_fault};
    ghost use Rattle.task_parts.specs.declared.fault.TaskFault.TheVariants.{NotLinked as NotLinkedFault, TooLong as TooLongFault, OutOfMemory as NoMemory};

    /// The element of this number refused an item.
    #[cold]
    pub fn refused(element: u32, refused: Refused) -> Failure
        ensures { result ≡ refusal_fault element refused }
    {
        let cause = match refused.into_why() {
            Why::Unwritten { before, after } => Cause::Write {
                element,
                before,
                after,
            },
            Why::Caps(mismatch) => Cause::Caps { element, mismatch },
            Why::Stream { place, kind } => Cause::Stream {
                element,
                place,
                kind,
            },
            Why::TooLong { a, b } => Cause::TooLong { element, a, b },
            Why::OutOfMemory => Cause::OutOfMemory,
        };
        Failure { cause }
    }

    /// The source of this number gave no item.
    #[cold]
    pub(crate) fn unread(element: u32, unread: Unread) -> Failure
        ensures { result ≡ unread_fault element unread }
    {
        let cause = match unread {
            Unread::Failed { before, after } => Cause::Read {
                element,
                before,
                after,
            },
            Unread::OutOfMemory => Cause::OutOfMemory,
        };
        Failure { cause }
    }

    /// More than 2^40 items of an element were to cross a pad, or to be given.
    #[cold]
    pub(crate) fn too_long(element: u32) -> Failure
        ensures { result ≡ TooLongFault element 1099511627776 1 }
    {
        let cause = Cause::TooLong {
            element,
            a: MOST_ITEMS,
            b: 1,
        };
        Failure { cause }
    }

    /// A buffer was to cross a pad that is not linked, which so many items had crossed.
    #[cold]
    pub(crate) fn not_linked(pad: u32, place: u64) -> Failure
        ensures { result ≡ NotLinkedFault pad place }
    {
        let cause = Cause::NotLinked { pad, place };
        Failure { cause }
    }

    /// No memory was left.
    #[cold]
    pub fn out_of_memory() -> Failure
        ensures { result ≡ NoMemory }
    {
        let cause = Cause::OutOfMemory;
        Failure { cause }
    }

    /// The fault itself.
    pub fn into_fault(self) -> TaskFault
        ensures { result ≡ self }
    {
        match self.cause {
            Cause::Read {
                element,
                before,
                after,
            } => TaskFault::ReadFault {
                element,
                before,
                after,
            },
            Cause::Write {
                element,
                before,
                after,
            } => TaskFault::WriteFault {
                element,
                before,
                after,
            },
            Cause::Stream {
                element,
                place,
                kind,
            } => TaskFault::Stream {
                element,
                place,
                kind,
            },
            Cause::Caps { element, mismatch } => {
                let Mismatch { offered, wanted } = Box::into_inner(mismatch);
                TaskFault::Caps {
                    element,
                    offered,
                    wanted,
                }
            }
            Cause::TooLong { element, a, b } => TaskFault::TooLong { element, a, b },
            Cause::NotLinked { pad, place } => TaskFault::NotLinked { pad, place },
            Cause::OutOfMemory => TaskFault::OutOfMemory,
        }
    }
}
