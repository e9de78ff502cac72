//! From the bytes of a head to the data behind it.
ghost use Rattle.std.specs.Prelude.{◌≡◌, ◌-◌, ◌++◌, ℕ, List, drop, IfOk, IfErr, OnOk, OnErr};
ghost use Rattle.flow_model.specs.Call.{Call};
ghost use Rattle.flow_model.specs.Feeding.{IsFaultOf};
ghost use Rattle.el_wav.specs.WavParseHeads.{Told, ReadsHeads, stream_kind};
ghost use Rattle.el_wav.specs.WavParseGathered.{HasGathered};
ghost use Rattle.el_wav.specs.WavParseSteps.{BeganData, IsBeginFault, ReadOn, head_owed};
ghost use Rattle.el_wav.specs.WavParseAppends.{Appends};

use crate::wav_data::{KnownHead, body_item, cut_data, left_of};
use crate::wav_gathered::Gathered;
use flow_model::{ElementFault, StreamKind};
use gst_item::{Body, Outs};
use gst_value::OutOfMemory;
use std::alloc::Global;
use wav_format::{Head, HeadAnswer, WavKind};

/// A head that is whole, whose parser was given the first data, and how many bytes of data are left.
#[derive(Drop)]
pub(crate) struct Begun {
    pub(crate) known: KnownHead,
    pub(crate) left: Option<u64>,
}

/// Reads on in a head with the bytes of a body. Where the head is whole with them, its data is begun.
pub(crate) fn read_on(
    alloc: Global,
    gathered: &mut Gathered,
    body: &Body,
    out: &mut Outs,
) -> Result<Option<Begun>, ElementFault>
    ensures read { IfOk result (λ begun. (read : List ℕ → Told) (bytes : List ℕ) → ReadsHeads read → HasGathered gathered.old bytes
        → ReadOn read (bytes ++ body.now) gathered.new out.old out.new begun) }
    ensures appends { OnOk result (Appends out.old out.new) }
    ensures stays { OnErr result ((gathered.new ≡ gathered.old) × (out.new ≡ out.old)) }
    ensures fault { IfErr result (λ fault. (read : List ℕ → Told) (calls : List Call) (bytes : List ℕ) → ReadsHeads read → HasGathered gathered.old bytes
        → IsFaultOf (head_owed read calls (bytes ++ body.now)) fault) }
{
    let (answer, reader) = gathered.read(alloc, body.as_slice())?;
    match answer {
        HeadAnswer::NeedMore(_) => {
            gathered.keep(reader);
            Ok(None)
        }
        HeadAnswer::Bad { place, kind } => Err(ElementFault::BadStream {
            place,
            kind: stream_kind(kind),
        }),
        HeadAnswer::Whole(head) => {
            let first = body_from(alloc, body, gathered.count(), head.start)?;
            match begin_data(alloc, head, first, out) {
                Ok(begun) => Ok(Some(begun)),
                Err(fault) => Err(fault),
            }
        }
    }
}

/// The bytes of a body from place `start` of its file on, where the body begins at place `before`.
fn body_from(alloc: Global, body: &Body, before: u64, start: u64) -> Result<Body, OutOfMemory>
    ensures { IfOk result (λ made. made ≡ drop (start - before) body.now) }
{
    let len = body.as_slice().len() as u64;
    let at = start.saturating_sub(before).min(len);
    body.slice(alloc, at as u32, len as u32)
}

/// Gives the parser of the data behind a head the first bytes there.
fn begin_data(alloc: Global, head: Head, first: Body, out: &mut Outs) -> Result<Begun, ElementFault>
    ensures begun { IfOk result (λ begun. (bytes : List ℕ) → first ≡ drop head.start bytes → BeganData head bytes begun out.old out.new) }
    ensures appends { OnOk result (Appends out.old out.new) }
    ensures out { OnErr result (out.new ≡ out.old) }
    ensures fault { IfErr result (λ fault. (bytes : List ℕ) → first ≡ drop head.start bytes → IsBeginFault head bytes fault) }
{
    let Some(mut known) = KnownHead::new(head) else {
        return Err(ElementFault::BadStream {
            place: 0,
            kind: StreamKind::BadFmt,
        });
    };
    let Ok((cut, left)) = cut_data(alloc, first, left_of(head.size, 0)) else {
        return Err(ElementFault::OutOfMemory);
    };
    match known.feed(alloc, body_item(cut), out) {
        Ok(()) => Ok(Begun { known, left }),
        Err(fault) => Err(fault),
    }
}

/// The fault of a stream whose bytes are no head.
fn stream_kind(kind: WavKind) -> StreamKind
    ensures { result ≡ stream_kind kind }
{
    match kind {
        WavKind::NotRiff => StreamKind::NotRiff,
        WavKind::NotWave => StreamKind::NotWave,
        WavKind::NoFmt => StreamKind::NoFmt,
        WavKind::BadFmt => StreamKind::BadFmt,
        WavKind::TagUnknown => StreamKind::TagUnknown,
        WavKind::HeadTooLong => StreamKind::HeadTooLong,
    }
}
