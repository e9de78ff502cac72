//! Bytes that are cut into buffers of as many frames.
ghost use Rattle.std.specs.Prelude.{◌≡◌, ◌<◌, ◌≤◌, ◌^◌, ◌+◌, ◌*◌, ◌++◌, ◌∷◌, [], Ok, IfOk, OnOk, IfErr, IsOk};
ghost use Rattle.flow_model.specs.Item.{Buf};
ghost use Rattle.flow_model.specs.Feeding.{on_pad, IsFaultOf};
ghost use Rattle.flow_model.specs.Owed.{answered};
ghost use Rattle.el_parse.specs.Streams.{stream_by};
ghost use Rattle.el_parse.specs.Splits.{timed, whole_count, whole_pieces, left_behind, reached_by};

use crate::timing::{Timing, end_of_buffer};
use crate::waiting::Waiting;
use flow_model::ElementFault;
use gst_item::{Body, Buffer, Item, Out};
use gst_value::OutOfMemory;
use std::alloc::Global;
use std::collections::VecDeque;

/// Buffers that are to go out, and what stands behind them.
#[derive(Drop)]
pub(crate) struct Pieces {
    pub(crate) whole: VecDeque<Out>,
    pub(crate) rest: Waiting,
    /// The frame behind the buffers.
    pub(crate) next: u64,
    /// The time of the end of the buffers, in nanoseconds.
    pub(crate) reached: u64,
    ghost next_fits: { next < 2 ^ 53 },
}

/// Cuts bytes into buffers of so many frames from frame `first` on.
pub(crate) fn cut_pieces(
    alloc: Global,
    timing: Timing,
    frames: u32,
    first: u64,
    bytes: Body,
) -> Result<Pieces, ElementFault>
    requires some { 1 ≤ frames }
    requires few { frames ≤ 1000000 }
    requires fits { first < 2 ^ 53 }
    ensures answer { OnOk result (IsOk (whole_pieces (stream_by timing.info) timing.pts timing.reached frames first bytes)) }
    ensures whole { IfOk result (λ made. made.whole.items
        ≡ on_pad 0 (answered (whole_pieces (stream_by timing.info) timing.pts timing.reached frames first bytes))) }
    ensures reached { IfOk result (λ made. made.reached
        ≡ reached_by timing.reached (answered (whole_pieces (stream_by timing.info) timing.pts timing.reached frames first bytes))) }
    ensures next { IfOk result (λ made. made.next ≡ first + whole_count frames (stream_by timing.info) bytes * frames) }
    ensures rest { IfOk result (λ made. made.rest ≡ left_behind frames (stream_by timing.info) bytes) }
    ensures fault { IfErr result (λ fault. IsFaultOf (whole_pieces (stream_by timing.info) timing.pts timing.reached frames first bytes) fault) }
{
    let size = frames * timing.info.width();
    let count = bytes.as_slice().len() as u32 / size;
    let mut whole = queue_for(alloc, count as usize)?;
    let mut next = first;
    let mut reached = timing.reached;
    for index in 0..count {
        let body = bytes.slice(alloc, index * size, (index + 1) * size)?;
        reached = push_piece(&mut whole, timing, frames, next, body)?;
        next += u64::from(frames);
    }
    let rest = Waiting::of(alloc, &bytes.as_slice()[(count * size) as usize..])?;
    Ok(Pieces {
        whole,
        rest,
        next,
        reached,
    })
}

/// Puts the buffer of these frames behind others, and says when it ends.
fn push_piece(
    into: &mut VecDeque<Out>,
    timing: Timing,
    frames: u32,
    first: u64,
    body: Body,
) -> Result<u64, ElementFault>
    requires { first < 2 ^ 53 }
    ensures answer { OnOk result (IsOk (timed (stream_by timing.info) timing.pts timing.reached first frames body)) }
    ensures into { OnOk result (into.new.items
        ≡ into.old.items ++ on_pad 0 (answered (timed (stream_by timing.info) timing.pts timing.reached first frames body))) }
    ensures reached { IfOk result (λ reached. reached
        ≡ reached_by timing.reached (answered (timed (stream_by timing.info) timing.pts timing.reached first frames body))) }
    ensures fits { OnOk result (first + frames < 2 ^ 53) }
    ensures fault { IfErr result (λ fault. IsFaultOf (timed (stream_by timing.info) timing.pts timing.reached first frames body) fault) }
{
    let piece = timing.piece(first, frames, body)?;
    let reached = end_of_buffer(&piece);
    queue(into, piece)?;
    Ok(reached)
}

/// Puts a buffer for the only source pad behind others.
fn queue(into: &mut VecDeque<Out>, buffer: Buffer) -> Result<(), OutOfMemory>
    ensures { OnOk result (into.new.items ≡ into.old.items ++ on_pad 0 (Buf buffer ∷ [])) }
{
    into.push_back(Out {
        pad: 0,
        item: Item::Buffer(buffer),
    })?;
    Ok(())
}

/// A queue with room for so many.
fn queue_for(alloc: Global, count: usize) -> Result<VecDeque<Out>, OutOfMemory>
    ensures { IfOk result (λ made. made.items ≡ []) }
{
    Ok(VecDeque::with_capacity(alloc, count)?)
}
