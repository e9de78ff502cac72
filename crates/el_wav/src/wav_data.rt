//! A known head, and the parser of the data behind it.
ghost use Rattle.std.specs.Prelude.{◌≡◌, ◌≤◌, ◌<◌, ◌+◌, ◌-◌, ◌*◌, ◌^◌, ◌++◌, ◌∷◌, [], ℕ, List, Ok, Some, Option, false, length, IfOk, IfErr, IfSome, IsNone, OnOk, OnErr};
ghost use Rattle.flow_model.specs.Item.{Item, Ev, NewSegment, FlushStop, is_flush_stop};
ghost use Rattle.flow_model.specs.Call.{Call, Feed};
ghost use Rattle.flow_model.specs.Feeding.{next_owed, on_pad, IsFaultOf};
ghost use Rattle.flow_model.specs.Source.{bytes_segment};
ghost use Rattle.audio_info.specs.declared.info.Info.{Info};
ghost use Rattle.el_parse.specs.Parses.{parses as parses_raw};
ghost use Rattle.el_parse.specs.Frames.{frame_width};
ghost use Rattle.el_wav.specs.WavParseHeads.{coding, pcm, IsFormatOf, HeadFits};
ghost use Rattle.el_wav.specs.WavParseParts.{Known};
ghost use Rattle.el_wav.specs.WavParseRule.{within, left_of, body_item};
ghost use Rattle.el_wav.specs.WavParseAppends.{Appends};

use audio_info::{Info, LARGEST_RATE, MOST_CHANNELS, Sample};
use el_parse::RawParse;
use flow_model::ElementFault;
use gst_item::{Body, Buffer, Event, Item, Outs};
use gst_time::{Format, Segment};
use gst_value::OutOfMemory;
use std::alloc::Global;
use wav_format::Head;

/// The length within which a head ends, in bytes.
const LONGEST_HEAD: u64 = 16_777_216;

/// A known head, and the parser of the data behind it.
#[derive(Drop)]
pub(crate) struct KnownHead {
    head: Head,
    info: Info,
    raw: RawParse,
    ghost some: { 1 ≤ head.start },
    ghost near: { head.start ≤ 16777216 },
}

impl KnownHead {
    ghost use Rattle.el_wav.specs.WavParseData.{IsKnown};

    /// A head, and a parser that was given nothing. None where the numbers of the head do not fit.
    pub(crate) fn new(head: Head) -> Option<KnownHead>
        ensures format { IfSome result (λ made. IsFormatOf head made.info) }
        ensures known { IfSome result (λ made. IsKnown (record { head = head; info = made.info }) [] made) }
        ensures none { IsNone result → ¬ HeadFits head }
    {
        if head.start < 1 || head.start > LONGEST_HEAD {
            return None;
        }
        let info = info_of(&head)?;
        Some(KnownHead {
            head,
            info,
            raw: RawParse::new(info),
        })
    }

    /// What the head says.
    pub(crate) fn head(&self) -> Head
        ensures { result ≡ self.now.head }
    {
        self.head
    }

    /// The place in the file of a frame, in bytes.
    pub(crate) fn place_of(&self, frame: u64) -> u64
        requires { frame < 2 ^ 54 }
        ensures { result ≡ self.now.head.start + frame * frame_width self.now.info }
    {
        self.head.start + frame * u64::from(self.info.width())
    }

    /// The place in the data of a place in the file, where that stands there.
    pub(crate) fn place_in_data(&self, place: u64) -> Option<u64>
        ensures some { IfSome result (λ at. (self.now.head.start ≤ place) × (at ≡ place - self.now.head.start)) }
        ensures none { IsNone result → place < self.now.head.start }
    {
        place.checked_sub(self.head.start)
    }

    /// Gives the parser an item.
    pub(crate) fn feed(
        &mut self,
        alloc: Global,
        item: Item,
        out: &mut Outs,
    ) -> Result<(), ElementFault>
        requires { is_flush_stop item ≡ false }
        ensures fed { IfOk result (λ done. (k : Known) (calls : List Call) → IsKnown k calls self.old
            → (ys : List Item) × (next_owed (parses_raw k.info) calls item ≡ Ok ys) × (out.new ≡ out.old ++ on_pad 0 ys)
            × IsKnown k (calls ++ Feed item ∷ []) self.new) }
        ensures appends { OnOk result (Appends out.old out.new) }
        ensures head { self.new.head ≡ self.old.head }
        ensures info { self.new.info ≡ self.old.info }
        ensures stays { OnErr result ((self.new ≡ self.old) × (out.new ≡ out.old)) }
        ensures fault { IfErr result
            (λ fault. (k : Known) (calls : List Call) → IsKnown k calls self.old → IsFaultOf (next_owed (parses_raw k.info) calls item) fault) }
    {
        match self.raw.feed(alloc, 0, item, out) {
            Ok(_) => Ok(()),
            Err(fault) => Err(fault),
        }
    }

    /// Lets the parser begin a new section.
    pub(crate) fn flush(&mut self)
        ensures { (k : Known) (calls : List Call) (number : ℕ) → IsKnown k calls self.old → IsKnown k (calls ++ Feed (Ev (FlushStop number)) ∷ []) self.new }
    {
        self.raw.flush();
    }

    /// The same once more.
    pub(crate) fn copy(&self, alloc: Global) -> Result<KnownHead, OutOfMemory>
        ensures { IfOk result (λ made. made ≡ self.now) }
    {
        Ok(KnownHead {
            head: self.head,
            info: self.info,
            raw: self.raw.copy(alloc)?,
        })
    }
}

/// The format of samples that a tag and a number of bits stand for.
fn coding(tag: u16, bits: u16) -> Option<Sample>
    ensures { result ≡ coding tag bits }
{
    match (tag, bits) {
        (1, _) => pcm(bits),
        (6, 8) => Some(Sample::ALaw),
        (7, 8) => Some(Sample::MuLaw),
        _ => None,
    }
}

fn pcm(bits: u16) -> Option<Sample>
    ensures { result ≡ pcm bits }
{
    match bits {
        8 => Some(Sample::U8),
        16 => Some(Sample::S16LE),
        24 => Some(Sample::S24LE),
        32 => Some(Sample::S32LE),
        _ => None,
    }
}

/// The format of the data behind a head, where its numbers fit.
fn info_of(head: &Head) -> Option<Info>
    ensures some { IfSome result (IsFormatOf head.now) }
    ensures none { IsNone result → ¬ HeadFits head.now }
{
    let format = coding(head.tag, head.bits)?;
    let rate = head.rate;
    let channels = u32::from(head.channels);
    if rate < 1 || rate > LARGEST_RATE || channels < 1 || channels > MOST_CHANNELS {
        return None;
    }
    Some(Info {
        format,
        rate,
        channels,
    })
}

/// How many bytes of data stand at a place of it or behind.
pub(crate) fn left_of(size: Option<u64>, place: u64) -> Option<u64>
    ensures { result ≡ left_of size place }
{
    size.map(|size| size.saturating_sub(place))
}

/// The bytes of a body that are within the data, of which so many are left, and how many are then left.
pub(crate) fn cut_data(
    alloc: Global,
    body: Body,
    left: Option<u64>,
) -> Result<(Body, Option<u64>), OutOfMemory>
    ensures body { IfOk result (λ cut. (size : Option ℕ) (place : ℕ) → left ≡ left_of size place → cut.0 ≡ within size place body) }
    ensures left { IfOk result (λ cut. (size : Option ℕ) (place : ℕ) → left ≡ left_of size place → cut.1 ≡ left_of size (place + length body)) }
{
    let Some(left) = left else {
        return Ok((body, None));
    };
    let size = body.as_slice().len() as u64;
    if size <= left {
        return Ok((body, Some(left - size)));
    }
    Ok((body.slice(alloc, 0, left as u32)?, Some(0)))
}

/// A buffer of these bytes, without times.
pub(crate) fn body_item(body: Body) -> Item
    ensures { result ≡ body_item body }
{
    Item::Buffer(Buffer {
        body,
        pts: None,
        duration: None,
        offset: None,
        discont: false,
    })
}

/// The segment in bytes from a place on.
pub(crate) fn segment_item(start: u64) -> Item
    ensures { result ≡ Ev (NewSegment (bytes_segment start)) }
{
    Item::Event(Event::Segment(Segment {
        format: Format::Bytes,
        start,
        stop: None,
        time: start,
        base: 0,
        position: start,
    }))
}
