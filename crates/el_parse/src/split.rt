//! The element that cuts raw audio into buffers of as many frames, as GStreamer's audiobuffersplit.
ghost use Rattle.std.specs.Prelude.{◌≡◌, ◌≤◌, ◌<◌, ◌^◌, ◌+◌, ◌-◌, ◌*◌, ◌/◌, ◌++◌, ◌∷◌, [], ℕ, List, Some, None, Ok, true, false, IfOk, OnOk, OnErr, IfErr, IsOk};
ghost use Rattle.flow_model.specs.Item.{Item, Buf, Ev, NewCaps, NewSegment, FlushStop, Eos, is_eos, is_flush_stop};
ghost use Rattle.flow_model.specs.Call.{Call, Feed, Act, Drain};
ghost use Rattle.flow_model.specs.Feeding.{flow_behind, on_pad, next_owed, IsFaultOf};
ghost use Rattle.gst_time.specs.declared.time.TheConstants.{LIMIT};
ghost use Rattle.el_parse.specs.Frames.{buffers_of};
ghost use Rattle.flow_model.specs.Owed.{answered};
ghost use Rattle.gst_item.specs.Sticky.{held as events_of};
ghost use Rattle.el_parse.specs.Streams.{frames_in, stream_by};
ghost use Rattle.el_parse.specs.Splits.{splits, split_answer, whole_count, whole_pieces, left_behind, rest as rest_answer, rested, cutting_behind, reached_by};

use crate::pieces::cut_pieces;
use crate::put_out::put_both;
use crate::timing::{Timing, end_of_buffer};
use crate::waiting::Waiting;
use audio_info::{Info, raw_template};
use flow_model::{ElementFault, StreamKind, put_out};
use gst_item::{Body, Buffer, Event, Flow, Item, Outs};
use gst_time::{LIMIT, Segment};
use gst_value::{Fixed, OutOfMemory};
use std::alloc::Global;

/// Puts raw audio out in buffers of a number of frames, whatever buffers it comes in. It has one sink pad and one
/// source pad, both of number 0.
#[derive(Drop)]
pub struct Split {
    frames: u32,
    /// By the CAPS in force.
    info: Option<Info>,
    /// Whether a buffer came since the last SEGMENT.
    begun: bool,
    /// The time of the first buffer since then, in nanoseconds.
    pts: Option<u64>,
    /// The frames that were put out since then.
    next: u64,
    waiting: Waiting,
    /// The bytes that came since the last flush.
    got: u64,
    /// The time of the end of what was put out since the last flush, in nanoseconds.
    reached: u64,
    ended: bool,
    ghost some_frames: { 1 ≤ frames },
    ghost few_frames: { frames ≤ 1000000 },
    ghost next_fits: { next < 2 ^ 53 },
    ghost got_fits: { got < LIMIT },
}

impl Split {
    ghost use Rattle.el_parse.specs.Regrouped.{Regrouped, come};
    ghost use Rattle.flow_model.specs.Owed.{drain_owed};
    ghost use Rattle.el_parse.specs.SplitPuts.{SplitPuts};

    /// An element that was fed nothing yet, for buffers of this many frames.
    pub fn new(frames: u32) -> Split
        requires some { 1 ≤ frames }
        requires few { frames ≤ 1000000 }
        ensures { Regrouped frames result [] [] }
    {
        Split {
            frames,
            info: None,
            begun: false,
            pts: None,
            next: 0,
            waiting: Waiting::empty(),
            got: 0,
            reached: 0,
            ended: false,
        }
    }

    /// Takes an item. Behind EOS, up to the next flush, the answer is `Flow::Eos` and nothing is put out, and
    /// else it is `Flow::Ok`. A buffer puts out the buffers that are whole with it. What waits goes out as a shorter
    /// one before CAPS, a SEGMENT and EOS; all events pass. CAPS that are not those of raw audio, and a buffer before
    /// any CAPS, are `NotNegotiated` with the template of raw audio as wanted. A buffer that is not a whole number of
    /// frames is a `SplitFrame` at the number of bytes that came since the last flush, its own among them. Where that
    /// number, or the time of the first buffer and that of the frames behind it, would be `LIMIT` or more together,
    /// the answer is `TooLong` with the two. Where the time of a frame alone would be, it is `TooLong` with the time
    /// of the end of what was put out and what is left up to `LIMIT`.
    pub fn feed(
        &mut self,
        alloc: Global,
        _pad: u32,
        item: Item,
        out: &mut Outs,
    ) -> Result<Flow, ElementFault>
        requires pad { _pad ≡ 0 }
        requires no_flush { is_flush_stop item ≡ false }
        ensures fed { IfOk result (λ flow. (frames : ℕ) (calls : List Call) (put : List Item) → Regrouped frames self.old calls put
            → (ys : List Item) × (next_owed (splits frames) calls item ≡ Ok ys) × (out.new ≡ out.old ++ on_pad 0 ys)
            × Regrouped frames self.new (calls ++ Feed item ∷ []) (put ++ ys)) }
        ensures flow { IfOk result (λ flow. (frames : ℕ) (calls : List Call) (put : List Item) → Regrouped frames self.old calls put
            → flow ≡ flow_behind calls) }
        ensures puts { IfOk result (λ flow. SplitPuts self.old self.new (Feed item) out.old out.new) }
        ensures stays { OnErr result ((self.new ≡ self.old) × (out.new ≡ out.old)) }
        ensures fault { IfErr result
            (λ fault. (frames : ℕ) (calls : List Call) (put : List Item) → Regrouped frames self.old calls put
            → IsFaultOf (next_owed (splits frames) calls item) fault) }
    {
        if self.ended {
            return Ok(Flow::Eos);
        }
        self.split(alloc, item, out)?;
        Ok(Flow::Ok)
    }

    /// Begins a new section, behind a FLUSH_STOP of any number that crosses its source pad. The caps of the
    /// stream stay.
    pub fn flush(&mut self)
        ensures { (frames : ℕ) (calls : List Call) (put : List Item) (number : ℕ) → Regrouped frames self.old calls put
            → Regrouped frames self.new (calls ++ Feed (Ev (FlushStop number)) ∷ []) (put ++ Ev (FlushStop number) ∷ []) }
    {
        self.begin();
        self.waiting = Waiting::empty();
        self.got = 0;
        self.reached = 0;
        self.ended = false;
    }

    /// Puts out what EOS would make it put out before the EOS: what waits, as a shorter buffer.
    pub fn drain(&mut self, alloc: Global, out: &mut Outs) -> Result<(), ElementFault>
        ensures drained { OnOk result ((frames : ℕ) (calls : List Call) (put : List Item) → Regrouped frames self.old calls put
            → (ys : List Item) × (drain_owed (splits frames) calls ≡ Ok ys) × (out.new ≡ out.old ++ on_pad 0 ys)
            × Regrouped frames self.new (calls ++ Act Drain ∷ []) (put ++ ys)) }
        ensures puts { OnOk result (SplitPuts self.old self.new (Act Drain) out.old out.new) }
        ensures stays { OnErr result ((self.new ≡ self.old) × (out.new ≡ out.old)) }
        ensures fault { IfErr result
            (λ fault. (frames : ℕ) (calls : List Call) (put : List Item) → Regrouped frames self.old calls put
            → IsFaultOf (drain_owed (splits frames) calls) fault) }
    {
        if self.ended {
            return Ok(());
        }
        self.put_rest(alloc, None, out)
    }

    /// The same element once more.
    pub fn copy(&self, alloc: Global) -> Result<Split, OutOfMemory>
        ensures { IfOk result (λ made. made ≡ self.now) }
    {
        Ok(Split {
            frames: self.frames,
            info: self.info,
            begun: self.begun,
            pts: self.pts,
            next: self.next,
            waiting: Waiting::of(alloc, self.waiting.as_slice())?,
            got: self.got,
            reached: self.reached,
            ended: self.ended,
        })
    }

    /// Takes an item of a section that is not over.
    fn split(&mut self, alloc: Global, item: Item, out: &mut Outs) -> Result<(), ElementFault>
        requires { is_flush_stop item ≡ false }
        ensures answer { OnOk result (IsOk (split_answer self.old.frames (come self.old) item)) }
        ensures out { OnOk result (out.new ≡ out.old ++ on_pad 0 (answered (split_answer self.old.frames (come self.old) item))) }
        ensures come { OnOk result (come self.new ≡ cutting_behind self.old.frames (come self.old) item) }
        ensures frames { self.new.frames ≡ self.old.frames }
        ensures eos { OnOk result (self.old.ended ≡ false → self.new.ended ≡ is_eos item) }
        ensures stays { OnErr result ((self.new ≡ self.old) × (out.new ≡ out.old)) }
        ensures fault { IfErr result (λ fault. IsFaultOf (split_answer self.old.frames (come self.old) item) fault) }
    {
        match item {
            Item::Buffer(buffer) => self.split_buffer(alloc, buffer, out),
            Item::Event(Event::Caps(caps)) => self.take_caps(alloc, caps, out),
            Item::Event(Event::Segment(segment)) => self.take_segment(alloc, segment, out),
            Item::Event(Event::Eos) => self.take_eos(alloc, out),
            Item::Event(event) => Ok(put_out(alloc, Item::Event(event), out)?),
        }
    }

    /// Puts the buffers out that are whole with a buffer.
    fn split_buffer(
        &mut self,
        alloc: Global,
        buffer: Buffer,
        out: &mut Outs,
    ) -> Result<(), ElementFault>
        ensures answer { OnOk result (IsOk (split_answer self.old.frames (come self.old) (Buf buffer))) }
        ensures out { OnOk result (out.new ≡ out.old ++ on_pad 0 (answered (split_answer self.old.frames (come self.old) (Buf buffer)))) }
        ensures come { OnOk result (come self.new ≡ cutting_behind self.old.frames (come self.old) (Buf buffer)) }
        ensures frames { self.new.frames ≡ self.old.frames }
        ensures ended { self.new.ended ≡ self.old.ended }
        ensures stays { OnErr result ((self.new ≡ self.old) × (out.new ≡ out.old)) }
        ensures fault { IfErr result (λ fault. IsFaultOf (split_answer self.old.frames (come self.old) (Buf buffer)) fault) }
    {
        let Some(info) = self.info else {
            return Err(ElementFault::NotNegotiated {
                offered: None,
                wanted: raw_template(alloc)?,
            });
        };
        let length = buffer.body.as_slice().len() as u64;
        if length % u64::from(info.width()) != 0 {
            return Err(ElementFault::BadStream {
                place: self.got + length,
                kind: StreamKind::SplitFrame,
            });
        }
        if self.got + length >= LIMIT {
            return Err(ElementFault::TooLong {
                a: self.got,
                b: length,
            });
        }
        let pts = if self.begun { self.pts } else { buffer.pts };
        let timing = Timing {
            info,
            pts,
            reached: self.reached,
        };
        self.gather(alloc, timing, buffer.body, out)?;
        self.begun = true;
        self.pts = pts;
        self.got += length;
        Ok(())
    }

    /// Puts the buffers out that are whole with these bytes, and lets the rest wait.
    fn gather(
        &mut self,
        alloc: Global,
        timing: Timing,
        bytes: Body,
        out: &mut Outs,
    ) -> Result<(), ElementFault>
        requires { timing.reached ≡ self.old.reached }
        ensures answer { OnOk result
            (IsOk (whole_pieces (stream_by timing.info) timing.pts timing.reached self.old.frames self.old.next (self.old.waiting ++ bytes))) }
        ensures out { OnOk result (out.new
            ≡ out.old ++ on_pad 0 (answered
            (whole_pieces (stream_by timing.info) timing.pts timing.reached self.old.frames self.old.next (self.old.waiting ++ bytes)))) }
        ensures reached { OnOk result
            (self.new.reached ≡ reached_by timing.reached
            (answered (whole_pieces (stream_by timing.info) timing.pts timing.reached self.old.frames self.old.next (self.old.waiting ++ bytes)))) }
        ensures next { OnOk result (self.new.next
            ≡ self.old.next + whole_count self.old.frames (stream_by timing.info) (self.old.waiting ++ bytes) * self.old.frames) }
        ensures waiting { OnOk result (self.new.waiting ≡ left_behind self.old.frames (stream_by timing.info) (self.old.waiting ++ bytes)) }
        ensures info { self.new.info ≡ self.old.info }
        ensures got { self.new.got ≡ self.old.got }
        ensures frames { self.new.frames ≡ self.old.frames }
        ensures ended { self.new.ended ≡ self.old.ended }
        ensures stays { OnErr result ((self.new ≡ self.old) × (out.new ≡ out.old)) }
        ensures fault { IfErr result
            (λ fault. IsFaultOf (whole_pieces (stream_by timing.info) timing.pts timing.reached self.old.frames self.old.next
            (self.old.waiting ++ bytes)) fault) }
    {
        let size = self.frames * timing.info.width();
        if self.waiting.as_slice().len() + bytes.as_slice().len() < size as usize {
            return Ok(self.waiting.push(alloc, bytes.as_slice())?);
        }
        let bytes = self.waiting.joined(alloc, bytes)?;
        let mut cut = cut_pieces(alloc, timing, self.frames, self.next, bytes)?;
        out.pour(alloc, &mut cut.whole)?;
        self.next = cut.next;
        self.reached = cut.reached;
        self.waiting = cut.rest;
        Ok(())
    }

    /// Puts out what waits and CAPS, where they are those of raw audio.
    fn take_caps(&mut self, alloc: Global, caps: Fixed, out: &mut Outs) -> Result<(), ElementFault>
        ensures answer { OnOk result (IsOk (split_answer self.old.frames (come self.old) (Ev (NewCaps caps)))) }
        ensures out { OnOk result (out.new ≡ out.old ++ on_pad 0 (answered (split_answer self.old.frames (come self.old) (Ev (NewCaps caps))))) }
        ensures come { OnOk result (come self.new ≡ cutting_behind self.old.frames (come self.old) (Ev (NewCaps caps))) }
        ensures frames { self.new.frames ≡ self.old.frames }
        ensures ended { self.new.ended ≡ self.old.ended }
        ensures stays { OnErr result ((self.new ≡ self.old) × (out.new ≡ out.old)) }
        ensures fault { IfErr result (λ fault. IsFaultOf (split_answer self.old.frames (come self.old) (Ev (NewCaps caps))) fault) }
    {
        let wanted = raw_template(alloc)?;
        if !wanted.accepts(&caps) {
            return Err(ElementFault::NotNegotiated {
                offered: Some(caps),
                wanted,
            });
        }
        let Ok(info) = Info::from_fixed(&caps) else {
            unreachable!()
        };
        self.put_rest(alloc, Some(Event::Caps(caps)), out)?;
        self.info = Some(info);
        Ok(())
    }

    /// Puts out what waits and a SEGMENT, behind which it counts from 0.
    fn take_segment(
        &mut self,
        alloc: Global,
        segment: Segment,
        out: &mut Outs,
    ) -> Result<(), ElementFault>
        ensures answer { OnOk result (IsOk (split_answer self.old.frames (come self.old) (Ev (NewSegment segment)))) }
        ensures out { OnOk result (out.new ≡ out.old ++ on_pad 0 (answered (split_answer self.old.frames (come self.old) (Ev (NewSegment segment))))) }
        ensures come { OnOk result (come self.new ≡ cutting_behind self.old.frames (come self.old) (Ev (NewSegment segment))) }
        ensures frames { self.new.frames ≡ self.old.frames }
        ensures ended { self.new.ended ≡ self.old.ended }
        ensures stays { OnErr result ((self.new ≡ self.old) × (out.new ≡ out.old)) }
        ensures fault { IfErr result (λ fault. IsFaultOf (split_answer self.old.frames (come self.old) (Ev (NewSegment segment))) fault) }
    {
        self.put_rest(alloc, Some(Event::Segment(segment)), out)?;
        self.begin();
        Ok(())
    }

    /// Counts frames from 0, and takes its time from the next buffer.
    fn begin(&mut self)
        ensures come { come self.new ≡ record (come self.old) { begun = false; pts = None; next = 0 } }
        ensures frames { self.new.frames ≡ self.old.frames }
        ensures ended { self.new.ended ≡ self.old.ended }
    {
        self.begun = false;
        self.pts = None;
        self.next = 0;
    }

    /// Puts out what waits and EOS.
    fn take_eos(&mut self, alloc: Global, out: &mut Outs) -> Result<(), ElementFault>
        ensures answer { OnOk result (IsOk (split_answer self.old.frames (come self.old) (Ev Eos))) }
        ensures out { OnOk result (out.new ≡ out.old ++ on_pad 0 (answered (split_answer self.old.frames (come self.old) (Ev Eos)))) }
        ensures come { OnOk result (come self.new ≡ cutting_behind self.old.frames (come self.old) (Ev Eos)) }
        ensures frames { self.new.frames ≡ self.old.frames }
        ensures ended { OnOk result (self.new.ended ≡ true) }
        ensures stays { OnErr result ((self.new ≡ self.old) × (out.new ≡ out.old)) }
        ensures fault { IfErr result (λ fault. IsFaultOf (split_answer self.old.frames (come self.old) (Ev Eos)) fault) }
    {
        self.put_rest(alloc, Some(Event::Eos), out)?;
        self.ended = true;
        Ok(())
    }

    /// Puts out what waits, as a shorter buffer, and an event behind it, where there is one.
    fn put_rest(
        &mut self,
        alloc: Global,
        event: Option<Event>,
        out: &mut Outs,
    ) -> Result<(), ElementFault>
        ensures answer { OnOk result (IsOk (rest_answer (come self.old))) }
        ensures out { OnOk result (out.new ≡ out.old ++ on_pad 0 (answered (rest_answer (come self.old)) ++ events_of event)) }
        ensures come { OnOk result (come self.new ≡ rested (come self.old)) }
        ensures frames { self.new.frames ≡ self.old.frames }
        ensures ended { self.new.ended ≡ self.old.ended }
        ensures stays { OnErr result ((self.new ≡ self.old) × (out.new ≡ out.old)) }
        ensures fault { IfErr result (λ fault. IsFaultOf (rest_answer (come self.old)) fault) }
    {
        let count = self.frames_waiting();
        let rest = self.rest(alloc)?;
        let reached = end_behind(self.reached, &rest);
        put_both(alloc, rest, event, out)?;
        self.next += count;
        self.reached = reached;
        self.waiting = Waiting::empty();
        Ok(())
    }

    /// How many frames wait.
    fn frames_waiting(&self) -> u64
        ensures { result ≡ frames_in (come self.now).stream self.now.waiting }
    {
        match self.info {
            None => 0,
            Some(info) => self.waiting.as_slice().len() as u64 / u64::from(info.width()),
        }
    }

    /// What waits, as a buffer.
    fn rest(&self, alloc: Global) -> Result<Option<Buffer>, ElementFault>
        ensures made { IfOk result (λ made. rest_answer (come self.now) ≡ Ok (buffers_of made)) }
        ensures fits { OnOk result (self.now.next + frames_in (come self.now).stream self.now.waiting < 2 ^ 53) }
        ensures below { IfOk result (λ made. reached_by 0 (buffers_of made) < 2 ^ 64) }
        ensures fault { IfErr result (λ fault. IsFaultOf (rest_answer (come self.now)) fault) }
    {
        let Some(info) = self.info else {
            return Ok(None);
        };
        let body = self.waiting.to_body(alloc)?;
        let size = body.as_slice().len() as u32;
        if size == 0 {
            return Ok(None);
        }
        let timing = Timing {
            info,
            pts: self.pts,
            reached: self.reached,
        };
        let made = timing.piece(self.next, size / info.width(), body)?;
        Ok(Some(made))
    }
}

/// The time of the end of what was put out, in nanoseconds, once this buffer is put out as well.
fn end_behind(reached: u64, buffer: &Option<Buffer>) -> u64
    requires { reached_by 0 (buffers_of buffer.now) < 2 ^ 64 }
    ensures { result ≡ reached_by reached (buffers_of buffer.now) }
{
    match buffer {
        None => reached,
        Some(buffer) => end_of_buffer(buffer),
    }
}
