//! The element that cuts bytes into frames of raw audio, as GStreamer's rawaudioparse.
ghost use Rattle.std.specs.Prelude.{◌≡◌, ◌≤◌, ◌<◌, ◌+◌, ◌/◌, ◌++◌, ◌∷◌, [], ℕ, List, Ok, false, true, length, take, drop, IfOk, OnOk, OnErr, IfErr, IsOk};
ghost use Rattle.flow_model.specs.Item.{Item, Buf, Ev, NewSegment, FlushStop, is_caps, is_segment, is_eos, is_flush_stop};
ghost use Rattle.flow_model.specs.Call.{Call, Feed, Act, Drain};
ghost use Rattle.flow_model.specs.Feeding.{flow_behind, on_pad, next_owed, IsFaultOf};
ghost use Rattle.audio_info.specs.declared.info.Info.{Info};
ghost use Rattle.gst_time.specs.declared.time.TheConstants.{LIMIT};
ghost use Rattle.el_parse.specs.Frames.{frame_width, frame_time, frame_at, frames_buffer, bytes_in};
ghost use Rattle.el_parse.specs.Parses.{parses, parse_answer, beginning, whole_frames, put_frames as behind_frames, progress_behind, IsLate};
ghost use Rattle.flow_model.specs.Owed.{answered};

use crate::put_out::put_opening;
use audio_info::Info;
use flow_model::{ElementFault, put_out};
use gst_item::{Body, Buffer, Event, Flow, Item, Outs};
use gst_time::{Format, LIMIT, Segment, scale};
use gst_value::OutOfMemory;
use std::alloc::Global;

/// The nanoseconds of a second.
const SECOND: u64 = 1_000_000_000;

/// Why a parser does not take an item.
#[derive(Clone, Copy)]
enum Refusal {
    /// The time of a frame does not fit below `LIMIT`.
    Late,
    OutOfMemory,
}

impl From<OutOfMemory> for Refusal {
    ghost use Rattle.el_parse.specs.declared.raw_parse.Refusal.TheVariants.{OutOfMemory as NoMemory};

    ghost from_gives = { λ _ refusal. refusal ≡ NoMemory };

    fn from(_refused: OutOfMemory) -> Refusal {
        Refusal::OutOfMemory
    }
}

/// Puts out the bytes that it is fed as buffers of whole frames, with caps, and with times by the number of the
/// frame. It has one sink pad and one source pad, both of number 0.
#[derive(Drop)]
pub struct RawParse {
    info: Info,
    opened: bool,
    next: u64,
    /// The time of frame `next`, in nanoseconds.
    next_time: u64,
    rest: Option<Body>,
    reached: u64,
    ended: bool,
    ghost next_timed: { next_time ≡ frame_time info next },
    ghost next_fits: { next_time < LIMIT },
    ghost reached_fits: { reached < LIMIT },
}

impl RawParse {
    ghost use Rattle.el_parse.specs.Parsed.{Parsed, come};
    ghost use Rattle.el_parse.specs.RawParsePuts.{RawParsePuts};
    ghost use Rattle.el_parse.specs.Refused.{fault_at};
    ghost use Rattle.el_parse.specs.declared.raw_parse.Refusal.TheVariants.{Late, OutOfMemory as NoMemory};

    /// An element that was fed nothing yet, for frames of this format.
    pub fn new(info: Info) -> RawParse
        ensures { Parsed info result [] [] }
    {
        RawParse {
            info,
            opened: false,
            next: 0,
            next_time: 0,
            rest: None,
            reached: 0,
            ended: false,
        }
    }

    /// Takes an item. Behind EOS, up to the next flush, the answer is `Flow::Eos` and nothing is put out, and
    /// else it is `Flow::Ok`. A SEGMENT puts out CAPS and a SEGMENT in time; a SEGMENT in time counts as one in
    /// bytes from 0, and a buffer before any SEGMENT as if such a one stood before it. A buffer puts out the whole
    /// frames that are complete with it. CAPS are dropped, and so is a part of a frame at a SEGMENT or EOS; other
    /// events pass. The time of a frame that does not fit below `LIMIT` is `TooLong`, with the time of the end of
    /// what was put out and what is left up to `LIMIT`.
    pub fn feed(
        &mut self,
        alloc: Global,
        _pad: u32,
        item: Item,
        out: &mut Outs,
    ) -> Result<Flow, ElementFault>
        requires pad { _pad ≡ 0 }
        requires no_flush { is_flush_stop item ≡ false }
        ensures fed { IfOk result (λ flow. (info : Info) (calls : List Call) (put : List Item) → Parsed info self.old calls put
            → (ys : List Item) × (next_owed (parses info) calls item ≡ Ok ys) × (out.new ≡ out.old ++ on_pad 0 ys)
            × Parsed info self.new (calls ++ Feed item ∷ []) (put ++ ys)) }
        ensures flow { IfOk result (λ flow. (info : Info) (calls : List Call) (put : List Item) → Parsed info self.old calls put → flow ≡ flow_behind calls) }
        ensures puts { IfOk result (λ flow. RawParsePuts self.old self.new (Feed item) out.old out.new) }
        ensures stays { OnErr result ((self.new ≡ self.old) × (out.new ≡ out.old)) }
        ensures fault { IfErr result
            (λ fault. (info : Info) (calls : List Call) (put : List Item) → Parsed info self.old calls put
            → IsFaultOf (next_owed (parses info) calls item) fault) }
    {
        if self.ended {
            return Ok(Flow::Eos);
        }
        match self.parse(alloc, item, out) {
            Ok(()) => Ok(Flow::Ok),
            Err(refusal) => Err(self.fault_of(refusal)),
        }
    }

    /// Begins a new section, behind a FLUSH_STOP of any number that crosses its source pad.
    pub fn flush(&mut self)
        ensures { (info : Info) (calls : List Call) (put : List Item) (number : ℕ) → Parsed info self.old calls put
            → Parsed info self.new (calls ++ Feed (Ev (FlushStop number)) ∷ []) (put ++ Ev (FlushStop number) ∷ []) }
    {
        self.opened = false;
        self.next = 0;
        self.next_time = 0;
        self.rest = None;
        self.reached = 0;
        self.ended = false;
    }

    /// Puts out what EOS would make it put out, which is nothing: a part of a frame stays.
    pub fn drain(&mut self, _alloc: Global, _out: &mut Outs) -> Result<(), ElementFault>
        ensures ok { IsOk result }
        ensures out { _out.new ≡ _out.old }
        ensures drained { (info : Info) (calls : List Call) (put : List Item) → Parsed info self.old calls put
            → Parsed info self.new (calls ++ Act Drain ∷ []) put }
        ensures puts { OnOk result (RawParsePuts self.old self.new (Act Drain) _out.old _out.new) }
    {
        Ok(())
    }

    /// The same element once more.
    pub fn copy(&self, alloc: Global) -> Result<RawParse, OutOfMemory>
        ensures { IfOk result (λ made. made ≡ self.now) }
    {
        Ok(RawParse {
            info: self.info,
            opened: self.opened,
            next: self.next,
            next_time: self.next_time,
            rest: shared(alloc, &self.rest)?,
            reached: self.reached,
            ended: self.ended,
        })
    }

    /// The fault of an item that was refused.
    fn fault_of(&self, refusal: Refusal) -> ElementFault
        ensures { result ≡ fault_at (come self.now) refusal }
    {
        match refusal {
            Refusal::Late => ElementFault::TooLong {
                a: self.reached,
                b: LIMIT - self.reached,
            },
            Refusal::OutOfMemory => ElementFault::OutOfMemory,
        }
    }

    /// Takes an item of a section that is not over.
    fn parse(&mut self, alloc: Global, item: Item, out: &mut Outs) -> Result<(), Refusal>
        requires { is_flush_stop item ≡ false }
        ensures answer { OnOk result (IsOk (parse_answer self.old.info (come self.old) item)) }
        ensures out { OnOk result (out.new ≡ out.old ++ on_pad 0 (answered (parse_answer self.old.info (come self.old) item))) }
        ensures come { OnOk result (come self.new ≡ progress_behind self.old.info (come self.old) item) }
        ensures info { self.new.info ≡ self.old.info }
        ensures eos { OnOk result (self.old.ended ≡ false → self.new.ended ≡ is_eos item) }
        ensures stays { OnErr result ((self.new ≡ self.old) × (out.new ≡ out.old)) }
        ensures refusal { IfErr result (λ refusal. IsFaultOf (parse_answer self.old.info (come self.old) item) (fault_at (come self.old) refusal)) }
    {
        match item {
            Item::Buffer(buffer) => self.parse_buffer(alloc, buffer, out),
            Item::Event(Event::Segment(segment)) => self.parse_segment(alloc, segment, out),
            Item::Event(Event::Caps(_)) => Ok(()),
            Item::Event(event) => self.pass(alloc, event, out),
        }
    }

    /// Puts the whole frames out that are complete with a buffer.
    fn parse_buffer(&mut self, alloc: Global, buffer: Buffer, out: &mut Outs) -> Result<(), Refusal>
        ensures answer { OnOk result (IsOk (parse_answer self.old.info (come self.old) (Buf buffer))) }
        ensures out { OnOk result (out.new ≡ out.old ++ on_pad 0 (answered (parse_answer self.old.info (come self.old) (Buf buffer)))) }
        ensures come { OnOk result (come self.new ≡ progress_behind self.old.info (come self.old) (Buf buffer)) }
        ensures info { self.new.info ≡ self.old.info }
        ensures ended { self.new.ended ≡ self.old.ended }
        ensures stays { OnErr result ((self.new ≡ self.old) × (out.new ≡ out.old)) }
        ensures refusal { IfErr result (λ refusal. IsFaultOf (parse_answer self.old.info (come self.old) (Buf buffer)) (fault_at (come self.old) refusal)) }
    {
        match &self.rest {
            None => self.parse_bytes(alloc, buffer.body, out),
            Some(front) => {
                let bytes = joined(alloc, front, &buffer.body)?;
                self.parse_bytes(alloc, bytes, out)
            }
        }
    }

    /// Puts the whole frames of bytes out, and keeps what stands behind them.
    fn parse_bytes(&mut self, alloc: Global, bytes: Body, out: &mut Outs) -> Result<(), Refusal>
        ensures answer { OnOk result (IsOk (whole_frames self.old.info (come self.old) bytes (length bytes / frame_width self.old.info))) }
        ensures out { OnOk result (out.new
            ≡ out.old ++ on_pad 0 (answered (whole_frames self.old.info (come self.old) bytes (length bytes / frame_width self.old.info)))) }
        ensures come { OnOk result (come self.new ≡ behind_frames self.old.info (come self.old) bytes (length bytes / frame_width self.old.info)) }
        ensures info { self.new.info ≡ self.old.info }
        ensures ended { self.new.ended ≡ self.old.ended }
        ensures stays { OnErr result ((self.new ≡ self.old) × (out.new ≡ out.old)) }
        ensures refusal { IfErr result
            (λ refusal. IsFaultOf (whole_frames self.old.info (come self.old) bytes (length bytes / frame_width self.old.info))
            (fault_at (come self.old) refusal)) }
    {
        let width = self.info.width();
        let size = bytes.as_slice().len() as u32;
        let frames = size / width;
        if frames == 0 {
            return Ok(self.hold(alloc, bytes, out)?);
        }
        let end = frames * width;
        if end < size {
            return self.put_front(alloc, bytes, frames, end, out);
        }
        self.put_frames(alloc, frames, bytes, out)?;
        self.rest = None;
        Ok(())
    }

    /// Keeps a part of a frame.
    fn hold(&mut self, alloc: Global, part: Body, out: &mut Outs) -> Result<(), OutOfMemory>
        ensures out { OnOk result (out.new ≡ out.old ++ on_pad 0 (beginning self.old.info (come self.old))) }
        ensures come { OnOk result (come self.new ≡ record (come self.old) { opened = true; held = part }) }
        ensures info { self.new.info ≡ self.old.info }
        ensures ended { self.new.ended ≡ self.old.ended }
        ensures stays { OnErr result ((self.new ≡ self.old) × (out.new ≡ out.old)) }
    {
        if !self.opened {
            put_opening(alloc, &self.info, 0, None, out)?;
        }
        self.rest = if part.as_slice().is_empty() {
            None
        } else {
            Some(part)
        };
        self.opened = true;
        Ok(())
    }

    /// Puts the frames out that end at a place in bytes, and keeps what stands behind them.
    fn put_front(
        &mut self,
        alloc: Global,
        bytes: Body,
        frames: u32,
        end: u32,
        out: &mut Outs,
    ) -> Result<(), Refusal>
        requires { end ≤ length bytes }
        ensures fits { OnOk result (frame_time self.old.info (self.old.next + frames) < LIMIT) }
        ensures out { OnOk result (out.new
            ≡ out.old ++ on_pad 0 (beginning self.old.info (come self.old) ++ Buf (frames_buffer self.old.info self.old.next frames (take end bytes)) ∷ [])) }
        ensures come { OnOk result (come self.new
            ≡ record { opened = true; next = self.old.next + frames; held = drop end bytes; reached = frame_time self.old.info (self.old.next + frames) }) }
        ensures info { self.new.info ≡ self.old.info }
        ensures ended { self.new.ended ≡ self.old.ended }
        ensures stays { OnErr result ((self.new ≡ self.old) × (out.new ≡ out.old)) }
        ensures refusal { IfErr result (λ refusal. IsLate self.old.info (come self.old) (self.old.next + frames) (fault_at (come self.old) refusal)) }
    {
        let size = bytes.as_slice().len() as u32;
        let whole = bytes.slice(alloc, 0, end)?;
        let rest = bytes.slice(alloc, end, size)?;
        self.put_frames(alloc, frames, whole, out)?;
        self.rest = Some(rest);
        Ok(())
    }

    /// Puts whole frames out. What is kept stays.
    fn put_frames(
        &mut self,
        alloc: Global,
        frames: u32,
        whole: Body,
        out: &mut Outs,
    ) -> Result<(), Refusal>
        ensures fits { OnOk result (frame_time self.old.info (self.old.next + frames) < LIMIT) }
        ensures out { OnOk result (out.new
            ≡ out.old ++ on_pad 0 (beginning self.old.info (come self.old) ++ Buf (frames_buffer self.old.info self.old.next frames whole) ∷ [])) }
        ensures come { OnOk result (come self.new
            ≡ record {
              opened = true;
              next = self.old.next + frames;
              held = bytes_in self.old.rest;
              reached = frame_time self.old.info (self.old.next + frames);
            }) }
        ensures info { self.new.info ≡ self.old.info }
        ensures ended { self.new.ended ≡ self.old.ended }
        ensures stays { OnErr result ((self.new ≡ self.old) × (out.new ≡ out.old)) }
        ensures refusal { IfErr result (λ refusal. IsLate self.old.info (come self.old) (self.old.next + frames) (fault_at (come self.old) refusal)) }
    {
        let next = self.next + u64::from(frames);
        let reached = self.time_of(next)?;
        let made = Buffer {
            body: whole,
            pts: Some(self.next_time),
            duration: Some(reached - self.next_time),
            offset: Some(self.next),
            discont: false,
        };
        self.put_buffer(alloc, made, out)?;
        self.next = next;
        self.next_time = reached;
        self.reached = reached;
        self.opened = true;
        Ok(())
    }

    /// Puts a buffer out, and before it what begins a section without a SEGMENT.
    fn put_buffer(&self, alloc: Global, buffer: Buffer, out: &mut Outs) -> Result<(), OutOfMemory>
        ensures out { OnOk result (out.new ≡ out.old ++ on_pad 0 (beginning self.now.info (come self.now) ++ Buf buffer ∷ [])) }
        ensures stays { OnErr result (out.new ≡ out.old) }
    {
        if self.opened {
            return put_out(alloc, Item::Buffer(buffer), out);
        }
        put_opening(alloc, &self.info, 0, Some(buffer), out)
    }

    /// Begins a part, where a SEGMENT begins one.
    fn parse_segment(
        &mut self,
        alloc: Global,
        segment: Segment,
        out: &mut Outs,
    ) -> Result<(), Refusal>
        ensures answer { OnOk result (IsOk (parse_answer self.old.info (come self.old) (Ev (NewSegment segment)))) }
        ensures out { OnOk result (out.new ≡ out.old ++ on_pad 0 (answered (parse_answer self.old.info (come self.old) (Ev (NewSegment segment))))) }
        ensures come { OnOk result (come self.new ≡ progress_behind self.old.info (come self.old) (Ev (NewSegment segment))) }
        ensures info { self.new.info ≡ self.old.info }
        ensures ended { self.new.ended ≡ self.old.ended }
        ensures stays { OnErr result ((self.new ≡ self.old) × (out.new ≡ out.old)) }
        ensures refusal { IfErr result
            (λ refusal. IsFaultOf (parse_answer self.old.info (come self.old) (Ev (NewSegment segment))) (fault_at (come self.old) refusal)) }
    {
        let frame = frame_of(&segment, self.info.width());
        let start = self.time_of(frame)?;
        put_opening(alloc, &self.info, start, None, out)?;
        self.opened = true;
        self.next = frame;
        self.next_time = start;
        self.rest = None;
        Ok(())
    }

    /// Lets an event pass.
    fn pass(&mut self, alloc: Global, event: Event, out: &mut Outs) -> Result<(), Refusal>
        requires caps { is_caps (Ev event) ≡ false }
        requires segment { is_segment (Ev event) ≡ false }
        ensures out { OnOk result (out.new ≡ out.old ++ on_pad 0 (Ev event ∷ [])) }
        ensures come { OnOk result (come self.new ≡ come self.old) }
        ensures info { self.new.info ≡ self.old.info }
        ensures eos { OnOk result (self.new.ended ≡ is_eos (Ev event)) }
        ensures stays { OnErr result ((self.new ≡ self.old) × (out.new ≡ out.old)) }
        ensures refusal { IfErr result (λ refusal. refusal ≡ NoMemory) }
    {
        let ends = matches!(event, Event::Eos);
        put_out(alloc, Item::Event(event), out)?;
        self.ended = ends;
        Ok(())
    }

    /// The time of a frame, in nanoseconds.
    fn time_of(&self, frame: u64) -> Result<u64, Refusal>
        ensures time { IfOk result (λ time. time ≡ frame_time self.now.info frame) }
        ensures fits { OnOk result (frame_time self.now.info frame < LIMIT) }
        ensures refusal { IfErr result (λ refusal. (LIMIT ≤ frame_time self.now.info frame) × (refusal ≡ Late)) }
    {
        scale(frame, SECOND, u64::from(self.info.rate)).ok_or(Refusal::Late)
    }
}

/// The frame at which a segment begins, where a frame has `width` bytes.
fn frame_of(segment: &Segment, width: u32) -> u64
    requires { 1 ≤ width }
    ensures { result ≡ frame_at width segment.now.start segment.now.format }
{
    match segment.format {
        Format::Bytes => segment.start / u64::from(width),
        Format::Time => 0,
    }
}

/// The same bytes in a further holder.
fn shared(alloc: Global, rest: &Option<Body>) -> Result<Option<Body>, OutOfMemory>
    ensures { IfOk result (λ made. made ≡ rest.now) }
{
    match rest {
        None => Ok(None),
        Some(body) => Ok(Some(body.share(alloc)?)),
    }
}

/// The bytes of a front and of a body behind it.
fn joined(alloc: Global, front: &Body, body: &Body) -> Result<Body, OutOfMemory>
    ensures { IfOk result (λ made. made ≡ front.now ++ body.now) }
{
    let front = front.as_slice();
    let behind = body.as_slice();
    let mut bytes = Vec::with_capacity(alloc, front.len() + behind.len())?;
    bytes.extend_from_slice(front)?;
    bytes.extend_from_slice(behind)?;
    Body::from_vec(alloc, bytes)
}
