//! Reads caps.
ghost use Rattle.std.specs.Prelude.{◌≡◌, ◌-◌, IfOk, IfErr};
ghost use Rattle.gst_caps.specs.declared.caps.Caps.{Caps as Wanted};
ghost use Rattle.caps_text.specs.Grammar.{IsCapsText};
ghost use Rattle.caps_text.specs.Limits.{TellsExcess};
ghost use Rattle.caps_text.specs.Parsed.{AnswersCaps, IsFaultOf, Told, as_place, fault_of};
ghost use Rattle.caps_text.specs.Place.{IsPlace};
ghost use Rattle.caps_text.specs.Reading.{read_structures};

use crate::fault::{CapsTextFault, Refusal};
use crate::scanner::Scanner;
use crate::structures::read_structures;
use gst_caps::Caps;
use gst_value::List;
use std::alloc::Global;

/// A place in a text, or the largest number of 32 bits where it is more.
fn as_place(place: usize) -> u32
    ensures { result ≡ as_place place }
{
    place.min(u32::MAX as usize) as u32
}

/// The fault of a text of which `unread` bytes stand behind the place of refusal.
fn fault_of(refusal: Refusal, length: usize, unread: usize) -> CapsTextFault
    ensures { result ≡ fault_of refusal (length - unread) }
{
    match refusal {
        Refusal::Misspelt => CapsTextFault::BadCaps {
            place: as_place(length.saturating_sub(unread)),
        },
        Refusal::TooMany => CapsTextFault::TooMany { count: 65 },
        Refusal::OutOfMemory => CapsTextFault::OutOfMemory,
    }
}

/// The structures for which the text stands.
fn parse_structures(alloc: Global, text: &str) -> Result<Caps, CapsTextFault>
    ensures { Told text.now result (read_structures text.now) }
{
    let mut scanner = Scanner::new(text);
    match read_structures(&mut scanner, alloc) {
        Ok(structures) => Ok(Caps::Of(structures)),
        Err(refusal) => Err(fault_of(refusal, text.len(), scanner.rest.len())),
    }
}

/// The caps for which the text stands: `ANY`, `EMPTY`, or structures such as
/// `audio/x-raw, format={ S16LE, U8 }, rate=[ 8000, 48000 ]` with `;` between them.
///
/// A text that is none is refused with `BadCaps` and the length in bytes of its longest beginning with which some caps
/// text begins, limits aside. Where a list, a structure or the text has a 65th member, field or structure before that,
/// it is refused with `TooMany`.
pub fn parse(alloc: Global, text: &str) -> Result<Caps, CapsTextFault>
    ensures found { IfOk result (λ caps. IsCapsText text.now caps) }
    ensures only { (caps : Wanted) → IsCapsText text.now caps → AnswersCaps result caps }
    ensures fault { IfErr result (IsFaultOf text.now) }
    ensures place { IfErr result (IsPlace text.now) }
    ensures many { TellsExcess text.now result }
{
    if text == "ANY" {
        return Ok(Caps::Any);
    }
    if text == "EMPTY" {
        return Ok(Caps::Of(List::new(alloc)));
    }
    parse_structures(alloc, text)
}
