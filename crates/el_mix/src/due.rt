//! What is owed more, put out.
ghost use Rattle.std.specs.Prelude.{◌≡◌, ◌<◌, ◌≤◌, ◌+◌, ◌/◌, ◌^◌, ◌++◌, ◌∷◌, [], List, true, None, Some, length, take, map, OnOk, OnErr, option_map};
ghost use Rattle.gst_time.specs.declared.time.TheConstants.{LIMIT};
ghost use Rattle.flow_model.specs.Item.{Item, Eos};
ghost use Rattle.flow_model.specs.Feeding.{on_pad};
ghost use Rattle.audio_info.specs.Packing.{sample_width};
ghost use Rattle.el_mix.specs.Mono.{time_of as time_of_frame};
ghost use Rattle.el_mix.specs.Mixed.{limit};
ghost use Rattle.el_mix.specs.Mixes.{eos_if, least};
ghost use Rattle.el_mix.specs.Heard.{mono_by};
ghost use Rattle.el_mix.specs.Turns.{next_cut as next_cut_of};
ghost use Rattle.el_mix.specs.Taking.{settled, passes, lines, bare};
ghost use Rattle.el_mix.specs.Lined.{Ready};
ghost use Rattle.el_mix.specs.Putting.{all_started as all_started_of, all_ended as all_ended_of, lowest_heard, start_item, buffer_item, piece_item, GoesOn, Opens, Pieced};
ghost use Rattle.el_mix.specs.Standing.{Moves};
ghost use Rattle.el_mix.specs.Pushing.{empty_items, Streams, Pushes};

use crate::channel::{Channel, SECOND};
use crate::position::Position;
use crate::turns::{interleave, leave_all, next_cut, pass_all, rewind_all};
use audio_info::Info;
use gst_item::{Body, Buffer, Event, Item, Out, Outs};
use gst_time::{Format, Segment, scale};
use gst_value::{List as Items, OutOfMemory};
use std::alloc::Global;
use std::mem;

/// Puts out what is owed more. Where there is no memory nothing is put out, and nothing is changed.
pub(crate) fn put_out(
    alloc: Global,
    channels: &mut [Channel],
    at: &mut Position,
    out: &mut Outs,
) -> Result<(), OutOfMemory>
    requires some { 0 < length channels.old }
    requires few { length channels.old ≤ 64 }
    ensures moves { OnOk result (Moves at.old channels.old at.new channels.new out.old out.new) }
    ensures stays { OnErr result ((at.new ≡ at.old) × (out.new ≡ out.old) × (channels.new ≡ map settled channels.old)) }
    ensures bare { map bare channels.new ≡ map bare channels.old }
    ensures settled { map settled channels.old ≡ channels.old → map settled channels.new ≡ channels.new }
{
    if !all_started(channels) {
        return Ok(());
    }
    let before = *at;
    let mut outs = mem::replace(out, Items::new(alloc)).into_vec();
    let length = outs.len();
    match push_due(alloc, channels, at, &mut outs) {
        Ok(()) => {
            leave_all(channels);
            put_back(out, outs);
            Ok(())
        }
        Err(fault) => {
            outs.truncate(length);
            put_back(out, outs);
            rewind_all(channels);
            *at = before;
            Err(fault)
        }
    }
}

fn put_back(out: &mut Outs, outs: Vec<Out>)
    ensures { out.new ≡ outs.items }
{
    *out = Items::from_vec(outs);
}

/// Puts out what is owed more once all pads have started.
fn push_due(
    alloc: Global,
    channels: &mut [Channel],
    at: &mut Position,
    outs: &mut Vec<Out>,
) -> Result<(), OutOfMemory>
    requires some { 0 < length channels.old }
    requires few { length channels.old ≤ 64 }
    ensures pushes { OnOk result (Pushes at.old channels.old at.new channels.new outs.old.items outs.new.items) }
    ensures still { map settled channels.new ≡ map settled channels.old }
    ensures grows { take (length outs.old.items) outs.new.items ≡ outs.old.items }
{
    match info_of(channels) {
        Some(info) => push_stream(alloc, channels, info, at, outs),
        None => push_empty(channels, outs),
    }
}

/// STREAM_START and EOS, where all ended without CAPS.
fn push_empty(channels: &[Channel], outs: &mut Vec<Out>) -> Result<(), OutOfMemory>
    ensures outs { OnOk result (outs.new.items ≡ outs.old.items ++ on_pad 0 (empty_items channels.now)) }
    ensures grows { take (length outs.old.items) outs.new.items ≡ outs.old.items }
{
    if !all_ended(channels) {
        return Ok(());
    }
    push(outs, stream_start(channels))?;
    push(outs, Item::Event(Event::Eos))
}

fn push_stream(
    alloc: Global,
    channels: &mut [Channel],
    info: Info,
    at: &mut Position,
    outs: &mut Vec<Out>,
) -> Result<(), OutOfMemory>
    requires some { 0 < length channels.old }
    requires few { length channels.old ≤ 64 }
    ensures streams { OnOk result (Streams (mono_by info) at.old channels.old at.new channels.new outs.old.items outs.new.items) }
    ensures still { map settled channels.new ≡ map settled channels.old }
    ensures grows { take (length outs.old.items) outs.new.items ≡ outs.old.items }
{
    open(alloc, channels, info, at, outs)?;
    push_pieces(alloc, channels, info, at, outs)?;
    push_end(channels, outs)
}

/// EOS, where all ended.
fn push_end(channels: &[Channel], outs: &mut Vec<Out>) -> Result<(), OutOfMemory>
    ensures outs { OnOk result (outs.new.items ≡ outs.old.items ++ on_pad 0 (eos_if (all_ended_of channels.now))) }
    ensures grows { take (length outs.old.items) outs.new.items ≡ outs.old.items }
{
    if !all_ended(channels) {
        return Ok(());
    }
    push(outs, Item::Event(Event::Eos))
}

/// What the frames are, by the lowest channel that has CAPS.
fn info_of(channels: &[Channel]) -> Option<Info>
    ensures { option_map mono_by result ≡ lowest_heard channels.now }
{
    for channel in channels.iter() {
        if channel.stream.is_some() {
            return channel.frames();
        }
    }
    None
}

fn all_started(channels: &[Channel]) -> bool
    ensures { result ≡ all_started_of channels.now }
{
    for channel in channels.iter() {
        if !channel.progress.started {
            return false;
        }
    }
    true
}

fn all_ended(channels: &[Channel]) -> bool
    ensures { result ≡ all_ended_of channels.now }
{
    for channel in channels.iter() {
        if !channel.progress.ended {
            return false;
        }
    }
    true
}

/// The STREAM_START, with the least id of the channels.
fn stream_start(channels: &[Channel]) -> Item
    ensures { result ≡ start_item channels.now }
{
    let mut least = None;
    for channel in channels.iter() {
        least = least_id(least, channel.progress.first_id);
    }
    Item::Event(Event::StreamStart {
        id: least.unwrap_or(0),
    })
}

fn least_id(one: Option<u32>, other: Option<u32>) -> Option<u32>
    ensures { result ≡ least one other }
{
    match (one, other) {
        (Some(id), Some(more)) => Some(id.min(more)),
        (None, more) => more,
        (some, None) => some,
    }
}

/// STREAM_START, CAPS with a channel for each pad, and SEGMENT, where they did not go out yet.
fn open(
    alloc: Global,
    channels: &[Channel],
    info: Info,
    at: &mut Position,
    outs: &mut Vec<Out>,
) -> Result<(), OutOfMemory>
    requires some { 0 < length channels.now }
    requires few { length channels.now ≤ 64 }
    ensures opens { OnOk result (Opens at.old at.new info channels.now outs.old.items outs.new.items) }
    ensures grows { take (length outs.old.items) outs.new.items ≡ outs.old.items }
{
    if at.open.is_some() {
        return Ok(());
    }
    let mixed = Info {
        format: info.format,
        rate: info.rate,
        channels: channels.len() as u32,
    };
    let caps = mixed.to_fixed(alloc)?;
    push(outs, stream_start(channels))?;
    push(outs, Item::Event(Event::Caps(caps)))?;
    push(
        outs,
        Item::Event(Event::Segment(Segment::new(Format::Time))),
    )?;
    at.open = Some(info);
    Ok(())
}

/// The buffers between the cut points that are known.
fn push_pieces(
    alloc: Global,
    channels: &mut [Channel],
    info: Info,
    at: &mut Position,
    outs: &mut Vec<Out>,
) -> Result<(), OutOfMemory>
    requires few { length channels.old ≤ 64 }
    ensures pieced { OnOk result
        (Pieced (mono_by info) at.old at.new (lines channels.old) (lines channels.new) outs.old.items outs.new.items) }
    ensures all { OnOk result ((xss : List (List Item)) → Ready (mono_by info) at.new.next at.new.reached (lines channels.new) xss
        → at.new.next ≡ limit (mono_by info) xss) }
    ensures still { map settled channels.new ≡ map settled channels.old }
    ensures grows { take (length outs.old.items) outs.new.items ≡ outs.old.items }
{
    while let Some(bytes) = next_cut(channels) {
        if bytes == 0 {
            return Ok(());
        }
        push_piece(alloc, channels, info, bytes, at, outs)?;
    }
    Ok(())
}

/// The buffer of the next so many bytes of each channel.
fn push_piece(
    alloc: Global,
    channels: &mut [Channel],
    info: Info,
    bytes: usize,
    at: &mut Position,
    outs: &mut Vec<Out>,
) -> Result<(), OutOfMemory>
    requires few { length channels.old ≤ 64 }
    requires next { next_cut_of None (lines channels.old) ≡ Some bytes }
    requires small { bytes < 2 ^ 31 }
    ensures goes { OnOk result (GoesOn (mono_by info) (bytes / sample_width info.format) at.old at.new) }
    ensures outs { OnOk result (outs.new.items
        ≡ outs.old.items ++ on_pad 0 (piece_item (mono_by info) bytes at.old at.new (lines channels.old) ∷ [])) }
    ensures passes { OnOk result (channels.new ≡ map (passes bytes) channels.old) }
    ensures stays { OnErr result (channels.new ≡ channels.old) }
    ensures grows { take (length outs.old.items) outs.new.items ≡ outs.old.items }
{
    let body = interleave(alloc, channels, info.format, bytes)?;
    let after = at.behind(info, bytes / info.format.width() as usize);
    push(outs, at.buffer(body, after.reached))?;
    pass_all(channels, bytes);
    *at = after;
    Ok(())
}

impl Position {
    /// Behind so many frames more.
    fn behind(&self, info: Info, frames: usize) -> Position
        ensures { GoesOn (mono_by info) frames self.now result }
    {
        let next = self.next.saturating_add(frames as u64);
        Position {
            open: self.open,
            next,
            reached: time_of(info, next),
        }
    }

    /// The buffer from here up to a time.
    fn buffer(&self, body: Body, end: u64) -> Item
        ensures { result ≡ buffer_item body self.now end }
    {
        Item::Buffer(Buffer {
            body,
            pts: Some(self.reached),
            duration: Some(end.saturating_sub(self.reached)),
            offset: Some(self.next),
            discont: false,
        })
    }
}

/// The time of a frame, in nanoseconds.
fn time_of(info: Info, frame: u64) -> u64
    ensures { time_of_frame (mono_by info) frame < LIMIT → result ≡ time_of_frame (mono_by info) frame }
{
    scale(frame, SECOND, u64::from(info.rate)).unwrap_or(0)
}

/// Puts an item for the only source pad behind others.
fn push(outs: &mut Vec<Out>, item: Item) -> Result<(), OutOfMemory>
    ensures ok { OnOk result (outs.new.items ≡ outs.old.items ++ on_pad 0 (item ∷ [])) }
    ensures err { OnErr result (outs.new.items ≡ outs.old.items) }
    ensures grows { take (length outs.old.items) outs.new.items ≡ outs.old.items }
{
    outs.push(Out { pad: 0, item })?;
    Ok(())
}
