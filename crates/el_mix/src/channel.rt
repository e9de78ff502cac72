//! A channel: what its sink pad has had, and the bodies that wait there.
ghost use Rattle.std.specs.Prelude.{◌≡◌, ◌<◌, ◌+◌, ◌^◌, false, true, Some, None, length, option_and_then, OnOk, OnErr, IfOk, IfErr, option_map};
ghost use Rattle.flow_model.specs.Item.{Ev};
ghost use Rattle.el_mix.specs.Agreed.{or_else, buffer_refusal};
ghost use Rattle.el_mix.specs.Heard.{mono_by, heard};
ghost use Rattle.el_mix.specs.Due.{IsDue, bytes_refusal};

use crate::stream::Stream;
use crate::template::mono_template;
use crate::waiting::Waiting;
use audio_info::Info;
use flow_model::{ElementFault, StreamKind};
use gst_item::{Body, Event, Item};
use gst_time::{LIMIT, scale};
use gst_value::{Fixed, OutOfMemory};
use std::alloc::Global;

/// The nanoseconds of a second.
pub(crate) const SECOND: u64 = 1_000_000_000;

/// How far a sink pad has come since the last flush.
#[derive(Clone, Copy)]
pub(crate) struct Progress {
    /// Whether an item came. With the first one the inherited CAPS are judged.
    pub(crate) begun: bool,
    /// Whether SEGMENT or EOS came.
    pub(crate) started: bool,
    pub(crate) ended: bool,
    /// The first id before it started, an inherited one counted.
    pub(crate) first_id: Option<u32>,
    /// The last id, which the next section inherits.
    pub(crate) last_id: Option<u32>,
    /// The bytes that came.
    pub(crate) got: u64,
}

impl Progress {
    ghost use Rattle.el_mix.specs.Taking.{inherited};

    /// Behind a flush, or at first.
    fn inherited(last_id: Option<u32>) -> Progress
        ensures { result ≡ inherited last_id }
    {
        Progress {
            begun: false,
            started: false,
            ended: false,
            first_id: last_id,
            last_id,
            got: 0,
        }
    }
}

/// What of an item stays beside the progress.
#[derive(Clone, Copy)]
pub(crate) enum Kept {
    Nothing,
    Caps,
    Body,
}

/// How a channel gives an item back.
#[derive(Clone, Copy)]
pub(crate) struct Undo {
    progress: Progress,
    kept: Kept,
}

/// A sink pad.
#[derive(Drop)]
pub(crate) struct Channel {
    /// By the CAPS in force, inherited ones counted.
    pub(crate) stream: Option<Stream>,
    pub(crate) progress: Progress,
    pub(crate) waiting: Waiting,
}

impl Channel {
    ghost use Rattle.el_mix.specs.declared.channel.Kept.TheVariants.{Nothing};
    ghost use Rattle.el_mix.specs.Taking.{Took, TookBody, Undoes, Adds, Lays, new_channel, flushed, next_id, hears, settled, IsHeard};

    /// That of a pad that was fed nothing yet.
    pub(crate) fn new(alloc: Global) -> Channel
        ensures { result ≡ new_channel }
    {
        Channel {
            stream: None,
            progress: Progress::inherited(None),
            waiting: Waiting::new(alloc),
        }
    }

    /// Begins a new section.
    pub(crate) fn flush(&mut self)
        ensures { self.new ≡ flushed self.old }
    {
        self.progress = Progress::inherited(self.progress.last_id);
        self.waiting.clear();
    }

    /// Sets what the next section inherits. Behind EOS nothing counts.
    pub(crate) fn lay(&mut self, event: Event)
        ensures { Lays self.old event self.new }
    {
        if self.progress.ended {
            return;
        }
        match event {
            Event::StreamStart { id } => self.progress.last_id = Some(id),
            Event::Caps(caps) => self.hear(caps),
            _ => {}
        }
    }

    /// Sets its CAPS.
    fn hear(&mut self, caps: Fixed)
        ensures caps { hears self.new ≡ Some caps }
        ensures progress { self.new.progress ≡ self.old.progress }
        ensures waiting { self.new.waiting ≡ self.old.waiting }
    {
        put(&mut self.stream, Some(Stream::new(caps)));
    }

    /// Takes an item that is not refused, of a pad without EOS.
    pub(crate) fn take(&mut self, item: Item) -> Result<Undo, OutOfMemory>
        requires open { self.old.progress.ended ≡ false }
        ensures took { OnOk result (Took self.old item self.new) }
        ensures undo { IfOk result (λ undo. Undoes self.old self.new undo) }
        ensures stays { OnErr result (self.new ≡ self.old) }
    {
        let progress = self.progress;
        let kept = self.take_item(item)?;
        Ok(Undo { progress, kept })
    }

    fn take_item(&mut self, item: Item) -> Result<Kept, OutOfMemory>
        requires open { self.old.progress.ended ≡ false }
        ensures took { OnOk result (Took self.old item self.new) }
        ensures kept { IfOk result (λ kept. Adds kept self.old self.new) }
        ensures stays { OnErr result (self.new ≡ self.old) }
    {
        match item {
            Item::Buffer(buffer) => self.take_body(buffer.body),
            Item::Event(event) => Ok(self.take_event(event)),
        }
    }

    fn take_body(&mut self, body: Body) -> Result<Kept, OutOfMemory>
        requires open { self.old.progress.ended ≡ false }
        ensures took { OnOk result (TookBody self.old body self.new) }
        ensures kept { IfOk result (λ kept. Adds kept self.old self.new) }
        ensures stays { OnErr result (self.new ≡ self.old) }
    {
        let length = body.as_slice().len();
        if length == 0 {
            self.progress.begun = true;
            return Ok(Kept::Nothing);
        }
        self.waiting.push(body)?;
        self.progress.begun = true;
        self.progress.got = self.progress.got.saturating_add(length as u64);
        Ok(Kept::Body)
    }

    fn take_event(&mut self, event: Event) -> Kept
        requires open { self.old.progress.ended ≡ false }
        ensures took { Took self.old (Ev event) self.new }
        ensures kept { Adds result self.old self.new }
    {
        self.progress.begun = true;
        match event {
            Event::StreamStart { id } => self.take_id(id),
            Event::Caps(caps) => self.take_caps(caps),
            Event::Segment(_) => self.start(false),
            Event::Eos => self.start(true),
            _ => Kept::Nothing,
        }
    }

    fn take_id(&mut self, id: u32) -> Kept
        ensures progress { self.new.progress
            ≡ record self.old.progress { first_id = next_id self.old.progress.started self.old.progress.first_id (Some id); last_id = Some id } }
        ensures kept { (result ≡ Nothing) × (self.new.stream ≡ self.old.stream) × (self.new.waiting ≡ self.old.waiting) }
    {
        if !self.progress.started && self.progress.first_id.is_none() {
            self.progress.first_id = Some(id);
        }
        self.progress.last_id = Some(id);
        Kept::Nothing
    }

    /// CAPS that are not refused are the first, or equal to these.
    fn take_caps(&mut self, caps: Fixed) -> Kept
        ensures hears { hears self.new ≡ or_else (hears self.old) (Some caps) }
        ensures progress { self.new.progress ≡ self.old.progress }
        ensures waiting { self.new.waiting ≡ self.old.waiting }
        ensures kept { Adds result self.old self.new }
    {
        if self.stream.is_some() {
            return Kept::Nothing;
        }
        self.hear(caps);
        Kept::Caps
    }

    fn start(&mut self, ended: bool) -> Kept
        ensures started { self.new.progress ≡ record self.old.progress { started = true; ended = ended } }
        ensures kept { (result ≡ Nothing) × (self.new.stream ≡ self.old.stream) × (self.new.waiting ≡ self.old.waiting) }
    {
        self.progress.started = true;
        self.progress.ended = ended;
        Kept::Nothing
    }

    /// Gives an item back that it took last, where the look ahead began anew since.
    pub(crate) fn put_back(&mut self, undo: Undo)
        ensures { (old took : Channel) → Undoes old took undo → settled old ≡ old → self.old ≡ settled took → self.new ≡ old }
    {
        self.progress = undo.progress;
        match undo.kept {
            Kept::Nothing => {}
            Kept::Caps => put(&mut self.stream, None),
            Kept::Body => self.waiting.pop(),
        }
    }

    /// Why a buffer is refused, where buffers up to the time `reached` were put out, in nanoseconds.
    pub(crate) fn judge_body(
        &self,
        alloc: Global,
        body: &Body,
        reached: u64,
    ) -> Result<(), ElementFault>
        ensures ok { OnOk result (IsHeard (hears self.now) → self.now.progress.got < 2 ^ 62
            → buffer_refusal reached (hears self.now) self.now.progress.got (length body.now) ≡ None) }
        ensures small { OnOk result (self.now.progress.got < 2 ^ 62 → self.now.progress.got + length body.now < 2 ^ 62) }
        ensures fault { IfErr result (λ fault. IsHeard (hears self.now) → self.now.progress.got < 2 ^ 62
            → IsDue (buffer_refusal reached (hears self.now) self.now.progress.got (length body.now)) fault) }
    {
        match self.frames() {
            Some(info) => {
                let length = body.as_slice().len() as u64;
                judge_bytes(info, self.progress.got, length, reached)
            }
            None => Err(ElementFault::NotNegotiated {
                offered: None,
                wanted: mono_template(alloc)?,
            }),
        }
    }

    /// What its CAPS say.
    pub(crate) fn frames(&self) -> Option<Info>
        ensures { option_map mono_by result ≡ option_and_then heard (hears self.now) }
    {
        match &self.stream {
            Some(stream) => stream.frames(),
            None => None,
        }
    }
}

/// Why so many bytes are refused behind others.
fn judge_bytes(info: Info, got: u64, length: u64, reached: u64) -> Result<(), ElementFault>
    requires length { length < 2 ^ 31 }
    ensures ok { OnOk result (got < 2 ^ 62 → bytes_refusal reached (mono_by info) got length ≡ None) }
    ensures small { OnOk result (got < 2 ^ 62 → got + length < 2 ^ 62) }
    ensures fault { IfErr result (λ fault. got < 2 ^ 62 → IsDue (bytes_refusal reached (mono_by info) got length) fault) }
{
    let width = u64::from(info.format.width());
    let end = got.saturating_add(length);
    if length % width != 0 {
        return Err(ElementFault::BadStream {
            place: end,
            kind: StreamKind::SplitFrame,
        });
    }
    match scale(end / width, SECOND, u64::from(info.rate)) {
        Some(_) => Ok(()),
        None => Err(ElementFault::TooLong {
            a: reached,
            b: LIMIT.saturating_sub(reached),
        }),
    }
}

/// Gives up what a slot holds for something else.
fn put<T: Drop>(slot: &mut Option<T>, value: Option<T>)
    ensures { slot.new ≡ value }
{
    *slot = value;
}
