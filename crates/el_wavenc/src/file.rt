//! A WAV file, as what is put out for it.
ghost use Rattle.std.specs.Prelude.{◌≡◌, ◌≤◌, ◌++◌, ◌∷◌, [], if◌then◌else◌, IfOk, OnOk, OnErr};
ghost use Rattle.flow_model.specs.Item.{Ev, NewSegment};
ghost use Rattle.flow_model.specs.Source.{bytes_segment};
ghost use Rattle.flow_model.specs.Feeding.{on_pad};
ghost use Rattle.wav_format.specs.Format.{IsKnown};
ghost use Rattle.gst_item.specs.Sticky.{held as events_of};
ghost use Rattle.el_wavenc.specs.Known.{stream_by};
ghost use Rattle.el_wavenc.specs.WavFile.{bytes_at as bytes_at_of, head_bytes, head_items, head_of as head_of_stream, padding, tag_of as tag_of_sample};

use crate::stream::Stream;
use audio_info::Sample;
use flow_model::{on_pad, put_out};
use gst_item::{Body, Buffer, Event, Item, Out, Outs};
use gst_time::{Format, Segment};
use gst_value::OutOfMemory;
use std::alloc::Global;
use std::collections::VecDeque;
use wav_format::{Head, write_head};

/// The length of the head, in bytes.
pub(crate) const HEAD_LENGTH: u64 = 44;

/// The most bytes of data whose RIFF size still has 32 bits.
pub(crate) const MOST_DATA: u64 = 4_294_967_258;

/// Bytes for a place of the file, without times.
pub(crate) fn bytes_at(place: u64, body: Body) -> Item
    ensures { result ≡ bytes_at_of place body }
{
    Item::Buffer(Buffer {
        body,
        pts: None,
        duration: None,
        offset: Some(place),
        discont: false,
    })
}

/// The tag of a coding, as the RIFF WAVE format has it.
fn tag_of(format: Sample) -> u16
    ensures { result ≡ tag_of_sample format }
{
    match format {
        Sample::MuLaw => 7,
        Sample::ALaw => 6,
        _ => 1,
    }
}

/// The head of a file of so many bytes of data.
fn head_of(stream: &Stream, size: u64) -> Head
    ensures head { result ≡ head_of_stream (stream_by stream.now) size }
    ensures known { IsKnown result.tag result.bits }
{
    let info = &stream.info;
    Head {
        tag: tag_of(info.format),
        channels: info.channels as u16,
        rate: info.rate,
        bits: 8 * info.format.width() as u16,
        start: HEAD_LENGTH,
        size: Some(size),
    }
}

#[tactic(auto, unfolding(crate::specs::WavFile::head_bytes))]
/// The bytes of that head.
fn head_body(alloc: Global, stream: &Stream, size: u64) -> Result<Body, OutOfMemory>
    requires { size ≤ 4294967258 }
    ensures { IfOk result (λ made. made ≡ head_bytes (stream_by stream.now) size) }
{
    let mut bytes = [0; 44];
    write_head(&head_of(stream, size), &mut bytes);
    Body::from_vec(alloc, Vec::from_slice(alloc, &bytes)?)
}

/// Puts the head of a file of so many bytes of data behind the others, for the beginning of the file.
pub(crate) fn push_head(
    alloc: Global,
    queue: &mut VecDeque<Out>,
    stream: &Stream,
    size: u64,
) -> Result<(), OutOfMemory>
    requires { size ≤ 4294967258 }
    ensures { OnOk result (queue.new.items ≡ queue.old.items ++ on_pad 0 (head_items (stream_by stream.now) size)) }
{
    let body = head_body(alloc, stream, size)?;
    queue.push_back(on_pad(beginning()))?;
    queue.push_back(on_pad(bytes_at(0, body)))?;
    Ok(())
}

/// The segment in bytes from the beginning of the file on.
fn beginning() -> Item
    ensures { result ≡ Ev (NewSegment (bytes_segment 0)) }
{
    Item::Event(Event::Segment(Segment {
        format: Format::Bytes,
        start: 0,
        stop: None,
        time: 0,
        base: 0,
        position: 0,
    }))
}

/// Puts the head of a file without data behind the others, where the file was not begun.
pub(crate) fn push_opening(
    alloc: Global,
    queue: &mut VecDeque<Out>,
    stream: &Stream,
    opened: bool,
) -> Result<(), OutOfMemory>
    ensures { OnOk result (queue.new.items ≡ queue.old.items ++ on_pad 0 (if opened then [] else head_items (stream_by stream.now) 0)) }
{
    if opened {
        return Ok(());
    }
    push_head(alloc, queue, stream, 0)
}

/// Puts the zero byte that stands behind data of an odd size behind the others.
pub(crate) fn push_padding(
    alloc: Global,
    queue: &mut VecDeque<Out>,
    size: u64,
) -> Result<(), OutOfMemory>
    requires { size ≤ 4294967258 }
    ensures { OnOk result (queue.new.items ≡ queue.old.items ++ on_pad 0 (padding size)) }
{
    if size % 2 == 0 {
        return Ok(());
    }
    let zero = Body::from_vec(alloc, Vec::from_slice(alloc, &[0])?)?;
    queue.push_back(on_pad(bytes_at(HEAD_LENGTH + size, zero)))?;
    Ok(())
}

/// Puts an event behind the others, where there is one.
pub(crate) fn push_event(queue: &mut VecDeque<Out>, event: Option<Event>) -> Result<(), OutOfMemory>
    ensures { OnOk result (queue.new.items ≡ queue.old.items ++ on_pad 0 (events_of event)) }
{
    if let Some(event) = event {
        queue.push_back(on_pad(Item::Event(event)))?;
    }
    Ok(())
}

/// Puts data out, and before it what begins the file, where that did not go out.
pub(crate) fn put_data(
    alloc: Global,
    stream: &Stream,
    opened: bool,
    item: Item,
    out: &mut Outs,
) -> Result<(), OutOfMemory>
    ensures out { OnOk result (out.new ≡ out.old ++ on_pad 0 ((if opened then [] else head_items (stream_by stream.now) 0) ++ item ∷ [])) }
    ensures stays { OnErr result (out.new ≡ out.old) }
{
    if opened {
        return put_out(alloc, item, out);
    }
    let mut queue = VecDeque::with_capacity(alloc, 3)?;
    push_head(alloc, &mut queue, stream, 0)?;
    queue.push_back(on_pad(item))?;
    out.pour(alloc, &mut queue)
}
