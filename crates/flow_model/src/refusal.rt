//! Why an element took no item, and why a source gave none.
ghost use Rattle.std.specs.Prelude.{◌≡◌};
ghost use Rattle.flow_model.specs.declared.refusal.Refusal.TheVariants.{Unwritten as UnwrittenBy};

use crate::{ElementFault, StreamKind};
use gst_caps::Caps;
use gst_value::Fixed;
use std::alloc::Global;
use std::marker::Model;

/// Why an element did not take an item, which is given up.
#[derive(Drop)]
pub enum Refusal {
    /// The fault of its rule at this item, or want of memory. It is as before.
    Fault(ElementFault),
    /// A write failed. The counts are those of failed calls of what is written to, before this call and behind it.
    Unwritten { before: u64, after: u64 },
}

/// The caps that an element was offered, and those that it takes.
#[derive(Drop)]
pub struct Mismatch {
    pub offered: Option<Fixed>,
    pub wanted: Caps,
}

/// What a `Refused` holds.
#[derive(Drop)]
pub enum Why {
    Caps(Box<Mismatch>),
    Stream { place: u64, kind: StreamKind },
    TooLong { a: u64, b: u64 },
    OutOfMemory,
    Unwritten { before: u64, after: u64 },
}

/// A refusal in three words, since each answer of an element has room for one; seen as the refusal.
#[derive(Drop)]
pub struct Refused {
    why: Why,
}

impl Model for Refused {
    ghost use Rattle.flow_model.specs.declared.refusal.Refusal.{Refusal};

    ghost Value = { Refusal };

    ghost use Rattle.flow_model.specs.Why.{refusal_of};

    ghost view = { λ refused. refusal_of refused.why };
}

impl Refused {
    ghost use Rattle.flow_model.specs.Why.{TellsOf, refusal_of};

    /// The fault of an element's rule. Where there is no memory to tell of caps, want of memory is told.
    #[cold]
    pub fn fault(alloc: Global, fault: ElementFault) -> Refused
        ensures { TellsOf fault result }
    {
        let why = match fault {
            ElementFault::NotNegotiated { offered, wanted } => {
                match Box::new(alloc, Mismatch { offered, wanted }) {
                    Ok(mismatch) => Why::Caps(mismatch),
                    Err(_) => Why::OutOfMemory,
                }
            }
            ElementFault::BadStream { place, kind } => Why::Stream { place, kind },
            ElementFault::TooLong { a, b } => Why::TooLong { a, b },
            ElementFault::OutOfMemory => Why::OutOfMemory,
        };
        Refused { why }
    }

    /// A failed write, with the counts of failed calls before it and behind it.
    #[cold]
    pub fn unwritten(before: u64, after: u64) -> Refused
        ensures { result ≡ UnwrittenBy before after }
    {
        let why = Why::Unwritten { before, after };
        Refused { why }
    }

    /// What it holds.
    pub fn into_why(self) -> Why
        ensures { refusal_of result ≡ self }
    {
        self.why
    }
}

/// Why a source gave no item. A later call tries once more.
#[derive(Clone, Copy)]
pub enum Unread {
    /// A read failed. The counts are those of failed calls of what is read, before this call and behind it.
    Failed { before: u64, after: u64 },
    /// No memory was left for the item.
    OutOfMemory,
}
