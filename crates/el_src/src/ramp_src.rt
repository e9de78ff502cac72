//! The source that makes audio whose samples count its frames.
ghost use Rattle.std.specs.Prelude.{◌≡◌, ◌≤◌, ◌<◌, ◌^◌, ◌+◌, ◌*◌, ◌/◌, ◌++◌, List, [], ◌∷◌, None, Ok, false, IfOk, OnErr, IfErr};
ghost use Rattle.flow_model.specs.Source.{time_segment};

use crate::answer::Next;
use crate::fault::SrcFault;
use crate::frames::frames_bytes;
use audio_info::{Info, Sample};
use gst_item::{Body, Buffer, Event, Item};
use gst_time::{Format, Segment, scale};
use gst_value::{OutOfMemory, Text};
use std::alloc::Global;

/// Nanoseconds in a second.
const SECOND: u64 = 1_000_000_000;

/// How a ramp source is set.
#[derive(Drop)]
pub struct Ramp {
    /// How many buffers it gives, gaps among them: up to 1,000,000.
    pub buffers: u32,
    /// The frames of a buffer, from 1 to 65,536.
    pub samples: u32,
    /// Frames a second, from 1 to 768,000.
    pub rate: u32,
    /// From 1 to 64.
    pub channels: u32,
    /// The last of each so many buffers is a gap, up to 1,000,000; where it is 0 there are none.
    pub gap_every: u32,
    /// What the stream is called.
    pub title: Option<Text>,
}

/// What a source gives next.
#[derive(Clone, Copy)]
enum Phase {
    Start,
    Caps,
    Segment,
    Tag,
    Pieces,
    Eos,
    Ended,
}

/// Gives STREAM_START, CAPS of samples of 16 bits, a SEGMENT in time, TAG where there is a title, buffers and gaps
/// of a number of frames, with their times in nanoseconds and their first frame as offset, and EOS. Each frame has
/// the low 16 bits of its number on every channel, the lower byte first.
#[derive(Drop)]
pub struct RampSrc {
    settings: Ramp,
    id: u32,
    /// The frame that the buffers count from.
    start: u64,
    /// How many buffers and gaps were given from there on.
    given: u64,
    items: u64,
    phase: Phase,
    ghost few_buffers: { settings.buffers ≤ 1000000 },
    ghost some_samples: { 1 ≤ settings.samples },
    ghost few_samples: { settings.samples ≤ 65536 },
    ghost some_rate: { 1 ≤ settings.rate },
    ghost rate_in_range: { settings.rate ≤ 768000 },
    ghost some_channels: { 1 ≤ settings.channels },
    ghost few_channels: { settings.channels ≤ 64 },
    ghost times_fit: { settings.buffers * settings.samples * 1000000000 / settings.rate < 2 ^ 63 },
    ghost within: { start ≤ settings.buffers * settings.samples },
    ghost reach: { given ≤ settings.buffers },
}

impl RampSrc {
    ghost use Rattle.flow_model.specs.Item.{Item, Ev, Eos, is_eos, eos_among};
    ghost use Rattle.el_src.specs.declared.fault.SrcFault.TheVariants.{OutOfMemory as Wanting};
    ghost use Rattle.el_src.specs.Gave.{items_after, is_ended};
    ghost use Rattle.el_src.specs.Ramp.{ramp_list, frame_count, frame_time, is_gap, piece, pieces_from};
    ghost use Rattle.el_src.specs.declared.ramp_src.Phase.TheVariants.{Tag as AtTag};
    ghost use Rattle.el_src.specs.RampGave.{RampGave, AfterRampNext, ramp_items, ramp_is_over, ramp_to_come, ramp_ended_at};
    ghost use Rattle.audio_info.specs.declared.sample.Sample.TheVariants.{S16LE};

    /// A source that was asked for nothing yet, of the number `id`. The time of the end, in nanoseconds, is below
    /// 2^63.
    pub fn new(settings: Ramp, id: u32) -> RampSrc
        requires buffers { settings.buffers ≤ 1000000 }
        requires some_samples { 1 ≤ settings.samples }
        requires samples { settings.samples ≤ 65536 }
        requires some_rate { 1 ≤ settings.rate }
        requires rate { settings.rate ≤ 768000 }
        requires some_channels { 1 ≤ settings.channels }
        requires channels { settings.channels ≤ 64 }
        requires gap_every { settings.gap_every ≤ 1000000 }
        requires times { settings.buffers * settings.samples * 1000000000 / settings.rate < 2 ^ 63 }
        ensures gave { RampGave result (ramp_list settings id) [] }
        ensures none { ramp_items result ≡ 0 }
    {
        RampSrc {
            settings,
            id,
            start: 0,
            given: 0,
            items: 0,
            phase: Phase::Start,
        }
    }

    /// The next item. Where there is no memory nothing was given, and a later call tries once more.
    pub fn next(&mut self, alloc: Global) -> Result<Next, SrcFault>
        requires few { ramp_items self.old < 2 ^ 41 }
        ensures gave { IfOk result (λ n. (owed h : List Item) → RampGave self.old owed h → AfterRampNext self.new owed h n) }
        ensures ended { IfOk result (λ n. (owed h : List Item) → RampGave self.old owed h → is_ended n ≡ eos_among h) }
        ensures kept { OnErr result ((owed h : List Item) → RampGave self.old owed h → RampGave self.new owed h) }
        ensures counted { ramp_items self.new ≡ items_after result (ramp_items self.old) }
        ensures cause { IfErr result (λ fault. fault ≡ Wanting) }
    {
        match self.phase {
            Phase::Start => Ok(self.give_event(Event::StreamStart { id: self.id }, Phase::Caps)),
            Phase::Caps => {
                let caps = self.info().to_fixed(alloc)?;
                Ok(self.give_event(Event::Caps(caps), Phase::Segment))
            }
            Phase::Segment => {
                let segment = time_from(self.time_of(self.start));
                Ok(self.give_event(Event::Segment(segment), Phase::Tag))
            }
            Phase::Tag => self.next_title(alloc),
            Phase::Pieces => self.next_piece(alloc),
            Phase::Eos => Ok(self.give_event(Event::Eos, Phase::Ended)),
            Phase::Ended => Ok(Next::Ended),
        }
    }

    /// From now on EOS comes next, unless it was given. Takes no memory.
    pub fn end(&mut self)
        ensures gave { (owed h : List Item) → RampGave self.old owed h → RampGave self.new (ramp_ended_at h owed) h }
        ensures count_stays { ramp_items self.new ≡ ramp_items self.old }
    {
        if self.is_over() {
            return;
        }
        self.phase = Phase::Eos;
    }

    /// How many items were given since the start or the last seek.
    pub fn items(&self) -> u64
        ensures { result ≡ ramp_items self.now }
    {
        self.items
    }

    /// Whether EOS was given.
    fn is_over(&self) -> bool
        ensures { result ≡ ramp_is_over self.now.phase }
    {
        matches!(self.phase, Phase::Ended)
    }

    /// What the stream is made of.
    fn info(&self) -> Info
        ensures format { result.format ≡ S16LE }
        ensures rate { result.rate ≡ self.now.settings.rate }
        ensures channels { result.channels ≡ self.now.settings.channels }
    {
        Info {
            format: Sample::S16LE,
            rate: self.settings.rate,
            channels: self.settings.channels,
        }
    }

    /// How many frames there are.
    fn frames(&self) -> u64
        ensures { result ≡ frame_count self.now.settings }
    {
        u64::from(self.settings.buffers) * u64::from(self.settings.samples)
    }

    /// The time of a frame, in nanoseconds.
    fn time_of(&self, frame: u64) -> u64
        requires { frame ≤ frame_count self.now.settings }
        ensures { result ≡ frame_time self.now.settings.rate frame }
    {
        let Some(time) = scale(frame, SECOND, u64::from(self.settings.rate)) else {
            unreachable!()
        };
        time
    }

    /// Whether the piece that comes next is a gap.
    fn is_gap(&self) -> bool
        ensures { result ≡ is_gap self.now.settings self.now.given }
    {
        let every = u64::from(self.settings.gap_every);
        every > 0 && (self.given + 1) % every == 0
    }

    /// The TAG where there is a title, and else what comes behind it.
    fn next_title(&mut self, alloc: Global) -> Result<Next, SrcFault>
        requires few { self.old.items < 2 ^ 41 }
        requires running { ramp_is_over self.old.phase ≡ false }
        requires tag { self.old.phase ≡ AtTag }
        ensures gave { IfOk result (λ n. (owed h : List Item) → RampGave self.old owed h → AfterRampNext self.new owed h n) }
        ensures ended { IfOk result (λ n. (owed h : List Item) → RampGave self.old owed h → is_ended n ≡ eos_among h) }
        ensures kept { OnErr result ((owed h : List Item) → RampGave self.old owed h → RampGave self.new owed h) }
        ensures counted { ramp_items self.new ≡ items_after result (ramp_items self.old) }
        ensures cause { IfErr result (λ fault. fault ≡ Wanting) }
    {
        let Some(title) = &self.settings.title else {
            return self.next_piece(alloc);
        };
        let title = title.copy(alloc)?;
        Ok(self.give_event(Event::Tag { title }, Phase::Pieces))
    }

    /// The next buffer or gap, or EOS where there are no more.
    fn next_piece(&mut self, alloc: Global) -> Result<Next, SrcFault>
        requires few { self.old.items < 2 ^ 41 }
        requires running { ramp_is_over self.old.phase ≡ false }
        requires pieces { ramp_to_come self.old.phase self.old.settings self.old.id self.old.start self.old.given
            ≡ pieces_from self.old.settings self.old.start self.old.given ++ Ev Eos ∷ [] }
        ensures gave { IfOk result (λ n. (owed h : List Item) → RampGave self.old owed h → AfterRampNext self.new owed h n) }
        ensures ended { IfOk result (λ n. (owed h : List Item) → RampGave self.old owed h → is_ended n ≡ eos_among h) }
        ensures kept { OnErr result ((owed h : List Item) → RampGave self.old owed h → RampGave self.new owed h) }
        ensures counted { ramp_items self.new ≡ items_after result (ramp_items self.old) }
        ensures cause { IfErr result (λ fault. fault ≡ Wanting) }
    {
        let samples = u64::from(self.settings.samples);
        let first = self.start + self.given * samples;
        let frames = self.frames();
        if first >= frames {
            return Ok(self.give_event(Event::Eos, Phase::Ended));
        }
        let count = samples.min(frames - first) as u32;
        let piece = self.piece(alloc, first, count)?;
        Ok(self.give(piece, self.given + 1, Phase::Pieces))
    }

    /// So many frames from one on, as the piece that comes next.
    fn piece(&self, alloc: Global, first: u64, count: u32) -> Result<Item, OutOfMemory>
        requires within { first + count ≤ frame_count self.now.settings }
        requires small { count ≤ 65536 }
        ensures { IfOk result (λ made. made ≡ piece self.now.settings self.now.given first count) }
    {
        let pts = self.time_of(first);
        let duration = self.time_of(first + u64::from(count)) - pts;
        if self.is_gap() {
            return Ok(Item::Event(Event::Gap { pts, duration }));
        }
        let bytes = frames_bytes(alloc, first, count, self.settings.channels)?;
        Ok(Item::Buffer(Buffer {
            body: Body::from_vec(alloc, bytes)?,
            pts: Some(pts),
            duration: Some(duration),
            offset: Some(first),
            discont: false,
        }))
    }

    /// Gives the event that is due; what comes next is of the phase.
    fn give_event(&mut self, event: Event, phase: Phase) -> Next
        requires few { self.old.items < 2 ^ 41 }
        requires running { ramp_is_over self.old.phase ≡ false }
        requires eos { ramp_is_over phase ≡ is_eos (Ev event) }
        requires due { ramp_to_come self.old.phase self.old.settings self.old.id self.old.start self.old.given
            ≡ Ev event ∷ ramp_to_come phase self.old.settings self.old.id self.old.start self.old.given }
        ensures gave { (owed h : List Item) → RampGave self.old owed h → AfterRampNext self.new owed h result }
        ensures ended { (owed h : List Item) → RampGave self.old owed h → is_ended result ≡ eos_among h }
        ensures counted { ramp_items self.new ≡ items_after (Ok result) (ramp_items self.old) }
    {
        self.give(Item::Event(event), self.given, phase)
    }

    /// Gives the item that is due; so many pieces were given then, and what comes next is of the phase.
    fn give(&mut self, item: Item, given: u64, phase: Phase) -> Next
        requires few { self.old.items < 2 ^ 41 }
        requires reach { given ≤ self.old.settings.buffers }
        requires running { ramp_is_over self.old.phase ≡ false }
        requires eos { ramp_is_over phase ≡ is_eos item }
        requires due { ramp_to_come self.old.phase self.old.settings self.old.id self.old.start self.old.given
            ≡ item ∷ ramp_to_come phase self.old.settings self.old.id self.old.start given }
        ensures gave { (owed h : List Item) → RampGave self.old owed h → AfterRampNext self.new owed h result }
        ensures ended { (owed h : List Item) → RampGave self.old owed h → is_ended result ≡ eos_among h }
        ensures counted { ramp_items self.new ≡ items_after (Ok result) (ramp_items self.old) }
    {
        self.items += 1;
        self.given = given;
        self.phase = phase;
        Next::Item(item)
    }
}

/// The segment in time from a time on, in nanoseconds.
fn time_from(start: u64) -> Segment
    ensures { result ≡ time_segment start }
{
    Segment {
        format: Format::Time,
        start,
        stop: None,
        time: start,
        base: 0,
        position: start,
    }
}
