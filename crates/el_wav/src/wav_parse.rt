//! The element that reads WAV files, as GStreamer's wavparse.
ghost use Rattle.std.specs.Prelude.{◌≡◌, ◌<◌, ◌+◌, ◌^◌, ◌++◌, ◌∷◌, [], ℕ, List, Ok, Some, None, Option, length, true, false, MatchOption, IfOk, OnOk, OnErr, IfErr};
ghost use Rattle.std.specs.Option.{option_map};
ghost use Rattle.flow_model.specs.Item.{Item, Buf, Ev, NewSegment, FlushStop, Eos, is_caps, is_segment, is_eos, is_flush_stop};
ghost use Rattle.flow_model.specs.Call.{Call, Feed, Act, Drain};
ghost use Rattle.flow_model.specs.Feeding.{flow_behind, on_pad, next_owed, IsFaultOf};
ghost use Rattle.el_wav.specs.WavParseHeads.{Told, ReadsHeads};
ghost use Rattle.el_wav.specs.WavParseParts.{Known, Part, Standing, goes_on, place_at};
ghost use Rattle.el_wav.specs.WavParseRule.{answer, left_of, within, body_item};
ghost use Rattle.el_parse.specs.Parses.{parses as parses_raw};
ghost use Rattle.el_wav.specs.WavParseAppends.{Appends};
ghost use Rattle.el_wav.specs.WavParsed.{KnowsHead};
ghost use Rattle.wav_format.specs.Chunks.{BeginsWithHead};
ghost use Rattle.wav_format.specs.Format.{AreBytes};
ghost use Rattle.flow_model.specs.declared.fault.ElementFault.TheVariants.{OutOfMemory as Wanting};
ghost use Rattle.el_wav.specs.declared.wav_parse.Phase.TheVariants.{InData as Passing};

use crate::wav_begun::{Begun, read_on};
use crate::wav_data::{KnownHead, body_item, cut_data, left_of, segment_item};
use crate::wav_gathered::Gathered;
use crate::wav_put_out::put_last;
use crate::wav_told::heads_are_told;
use flow_model::{ElementFault, StreamKind, put_out};
use gst_item::{Body, Buffer, Event, Flow, Item, Outs};
use gst_time::{Format, Segment};
use gst_value::{List as Items, OutOfMemory};
use std::alloc::Global;
use wav_format::{Head, head_stays};

/// What the next bytes are.
#[derive(Drop)]
pub(crate) enum Phase {
    /// A head's, where no SEGMENT stands before them.
    Unbegun,
    /// More of a head that is not whole.
    InHead(Gathered),
    /// The data's, of which so many bytes are left; those behind them are passed over. Without a number it lasts
    /// until the end of the file.
    InData { left: Option<u64> },
}

/// Reads the head of a WAV file from the bytes that it is fed, and puts out the data as buffers of whole frames,
/// with caps, and with times by the number of the frame. It has one sink pad and one source pad, both of number 0.
#[derive(Drop)]
pub struct WavParse {
    known: Option<KnownHead>,
    phase: Phase,
    ended: bool,
}

impl WavParse {
    ghost use Rattle.el_wav.specs.WavParse.{Parsed, known_behind, parses};
    ghost use Rattle.el_wav.specs.WavParsePuts.{Puts};
    ghost use Rattle.el_wav.specs.WavParsed.{IsIn, place_of_frame};
    ghost use Rattle.el_wav.specs.WavParseSteps.{Took, FedOn, WentOn, IsPlaceIn, ReadFirst, head_owed};

    /// An element that was fed nothing yet, and knows no head.
    pub fn new() -> WavParse
        ensures { Parsed result [] [] }
    {
        heads_are_told();
        WavParse {
            known: None,
            phase: Phase::Unbegun,
            ended: false,
        }
    }

    /// Takes an item. Behind EOS, up to the next flush, the answer is `Flow::Eos` and nothing is put out, and else
    /// it is `Flow::Ok`. Bytes are gathered until they are a whole head; then CAPS, a SEGMENT in time from 0 and the
    /// whole frames of the data are put out. A SEGMENT in bytes at or past the start of the data of the known head
    /// goes on there; at any other one the bytes behind it are read as a head, and until it is whole the one before
    /// it stays known. A SEGMENT in time counts as one in bytes from 0, and a buffer before any SEGMENT as if such a
    /// one stood before it. CAPS are dropped, and so are a part of a frame at a SEGMENT or EOS and bytes past the
    /// data; other events pass. Bytes that are no head are `BadStream` with the place in them, and EOS before a head
    /// is whole is `Short` at the number of its bytes. The time of a frame that does not fit below `LIMIT` is
    /// `TooLong`.
    pub fn feed(
        &mut self,
        alloc: Global,
        _pad: u32,
        item: Item,
        out: &mut Outs,
    ) -> Result<Flow, ElementFault>
        requires pad { _pad ≡ 0 }
        requires no_flush { is_flush_stop item ≡ false }
        ensures fed { IfOk result (λ flow. (calls : List Call) (put : List Item) → Parsed self.old calls put
            → (ys : List Item) × (next_owed parses calls item ≡ Ok ys) × (out.new ≡ out.old ++ on_pad 0 ys)
            × Parsed self.new (calls ++ Feed item ∷ []) (put ++ ys)) }
        ensures flow { IfOk result (λ flow. (calls : List Call) (put : List Item) → Parsed self.old calls put → flow ≡ flow_behind calls) }
        ensures puts { IfOk result (λ flow. Puts self.old self.new (Feed item) out.old out.new) }
        ensures stays { OnErr result ((calls : List Call) (put : List Item) → Parsed self.old calls put → Parsed self.new calls put) }
        ensures out { OnErr result (out.new ≡ out.old) }
        ensures fault { IfErr result
            (λ fault. (calls : List Call) (put : List Item) → Parsed self.old calls put → IsFaultOf (next_owed parses calls item) fault) }
    {
        if self.ended {
            return Ok(Flow::Eos);
        }
        self.parse(alloc, item, out)?;
        Ok(Flow::Ok)
    }

    /// Begins a new section, behind a FLUSH_STOP of any number that crosses its source pad. The known head stays.
    pub fn flush(&mut self)
        ensures { (calls : List Call) (put : List Item) (number : ℕ) → Parsed self.old calls put
            → Parsed self.new (calls ++ Feed (Ev (FlushStop number)) ∷ []) (put ++ Ev (FlushStop number) ∷ []) }
    {
        flush_known(&mut self.known);
        set(&mut self.phase, Phase::Unbegun);
        self.ended = false;
    }

    /// Puts out what EOS would make it put out, which is nothing: a part of a frame stays. Where EOS would be a
    /// fault, it is that fault.
    pub fn drain(&mut self, _alloc: Global, out: &mut Outs) -> Result<(), ElementFault>
        ensures drained { OnOk result ((calls : List Call) (put : List Item) → Parsed self.old calls put → Parsed self.new (calls ++ Act Drain ∷ []) put) }
        ensures puts { OnOk result (Puts self.old self.new (Act Drain) out.old out.new) }
        ensures out { out.new ≡ out.old }
        ensures stays { OnErr result (self.new ≡ self.old) }
        ensures fault { IfErr result
            (λ fault. (calls : List Call) (put : List Item) → Parsed self.old calls put → IsFaultOf (next_owed parses calls (Ev Eos)) fault) }
    {
        if self.ended {
            return Ok(());
        }
        self.may_end()
    }

    /// The place in the file, in bytes, of a frame of the data of the known head. None where no head is known.
    pub fn place_of(&self, frame: u64) -> Option<u64>
        requires { frame < 2 ^ 54 }
        ensures { (calls : List Call) (put : List Item) → Parsed self.now calls put → result ≡ option_map (place_of_frame frame) (known_behind calls) }
    {
        let known = self.known.as_ref()?;
        Some(known.place_of(frame))
    }

    /// The known head. None where no head is known.
    pub fn head(&self) -> Option<Head>
        ensures { (calls : List Call) (put : List Item) → Parsed self.now calls put → result ≡ option_map (λ (k : Known). k.head) (known_behind calls) }
    {
        let known = self.known.as_ref()?;
        Some(known.head())
    }

    /// The same element once more.
    pub fn copy(&self, alloc: Global) -> Result<WavParse, OutOfMemory>
        ensures { IfOk result (λ made. (calls : List Call) (put : List Item) → Parsed self.now calls put → Parsed made calls put) }
    {
        Ok(WavParse {
            known: known_again(alloc, &self.known)?,
            phase: self.phase.copy(alloc)?,
            ended: self.ended,
        })
    }

    /// Takes an item of a section that is not over.
    fn parse(&mut self, alloc: Global, item: Item, out: &mut Outs) -> Result<(), ElementFault>
        requires { is_flush_stop item ≡ false }
        ensures took { OnOk result ((read : List ℕ → Told) (part : Part) (calls : List Call) → IsIn read part calls self.old
            → Took read part calls item self.new out.old out.new) }
        ensures appends { OnOk result (Appends out.old out.new) }
        ensures eos { OnOk result (self.old.ended ≡ false → self.new.ended ≡ is_eos item) }
        ensures ended { OnErr result (self.new.ended ≡ self.old.ended) }
        ensures stays { OnErr result
            ((read : List ℕ → Told) (part : Part) (calls : List Call) → IsIn read part calls self.old → IsIn read part calls self.new) }
        ensures out { OnErr result (out.new ≡ out.old) }
        ensures fault { IfErr result
            (λ fault. (read : List ℕ → Told) (part : Part) (calls : List Call) → IsIn read part calls self.old
            → IsFaultOf (answer read part calls item) fault) }
    {
        match item {
            Item::Buffer(buffer) => self.parse_buffer(alloc, buffer, out),
            Item::Event(Event::Segment(segment)) => self.parse_segment(alloc, segment, out),
            Item::Event(Event::Caps(_)) => Ok(()),
            Item::Event(Event::Eos) => self.end(alloc, out),
            Item::Event(event) => self.pass(alloc, event, out),
        }
    }

    /// Lets an event pass.
    fn pass(&self, alloc: Global, event: Event, out: &mut Outs) -> Result<(), ElementFault>
        requires caps { is_caps (Ev event) ≡ false }
        requires segment { is_segment (Ev event) ≡ false }
        requires eos { is_eos (Ev event) ≡ false }
        requires no_flush { is_flush_stop (Ev event) ≡ false }
        ensures took { OnOk result ((read : List ℕ → Told) (part : Part) (calls : List Call) → IsIn read part calls self.now
            → Took read part calls (Ev event) self.now out.old out.new) }
        ensures appends { OnOk result (Appends out.old out.new) }
        ensures out { OnErr result (out.new ≡ out.old) }
        ensures fault { IfErr result (λ fault. fault ≡ Wanting) }
    {
        put_out(alloc, Item::Event(event), out)?;
        Ok(())
    }

    /// Takes bytes of a head or of the data.
    fn parse_buffer(
        &mut self,
        alloc: Global,
        buffer: Buffer,
        out: &mut Outs,
    ) -> Result<(), ElementFault>
        ensures took { OnOk result ((read : List ℕ → Told) (part : Part) (calls : List Call) → IsIn read part calls self.old
            → Took read part calls (Buf buffer) self.new out.old out.new) }
        ensures appends { OnOk result (Appends out.old out.new) }
        ensures ended { self.new.ended ≡ self.old.ended }
        ensures stays { OnErr result
            ((read : List ℕ → Told) (part : Part) (calls : List Call) → IsIn read part calls self.old → IsIn read part calls self.new) }
        ensures out { OnErr result (out.new ≡ out.old) }
        ensures fault { IfErr result
            (λ fault. (read : List ℕ → Told) (part : Part) (calls : List Call) → IsIn read part calls self.old
            → IsFaultOf (answer read part calls (Buf buffer)) fault) }
    {
        match &mut self.phase {
            Phase::InData { left } => {
                let left = *left;
                self.pass_data(alloc, buffer.body, left, out)
            }
            Phase::InHead(gathered) => match read_on(alloc, gathered, &buffer.body, out) {
                Ok(begun) => {
                    self.begin(begun);
                    Ok(())
                }
                Err(fault) => Err(fault),
            },
            Phase::Unbegun => self.read_first(alloc, buffer.body, out),
        }
    }

    /// Takes the first bytes of a head, where no SEGMENT stands before them.
    fn read_first(&mut self, alloc: Global, body: Body, out: &mut Outs) -> Result<(), ElementFault>
        ensures read { OnOk result ((read : List ℕ → Told) → ReadsHeads read
            → ReadFirst read body self.old.known self.new.known self.new.phase out.old out.new) }
        ensures appends { OnOk result (Appends out.old out.new) }
        ensures ended { self.new.ended ≡ self.old.ended }
        ensures stays { OnErr result ((self.new ≡ self.old) × (out.new ≡ out.old)) }
        ensures fault { IfErr result (λ fault. (read : List ℕ → Told) (calls : List Call) → ReadsHeads read → IsFaultOf (head_owed read calls body) fault) }
    {
        let mut gathered = Gathered::new(alloc);
        match read_on(alloc, &mut gathered, &body, out) {
            Ok(begun) => {
                set(&mut self.phase, Phase::InHead(gathered));
                self.begin(begun);
                Ok(())
            }
            Err(fault) => Err(fault),
        }
    }

    /// Takes bytes behind a head.
    fn pass_data(
        &mut self,
        alloc: Global,
        body: Body,
        left: Option<u64>,
        out: &mut Outs,
    ) -> Result<(), ElementFault>
        ensures fed { OnOk result ((k : Known) (place : ℕ) (calls : List Call) → left ≡ left_of k.head.size place → KnowsHead (Some k) calls self.old.known
            → FedOn k calls (body_item (within k.head.size place body)) self.new.known out.old out.new) }
        ensures appends { OnOk result (Appends out.old out.new) }
        ensures phase { OnOk result ((size : Option ℕ) (place : ℕ) → left ≡ left_of size place
            → self.new.phase ≡ Passing (left_of size (place + length body))) }
        ensures ended { self.new.ended ≡ self.old.ended }
        ensures stays { OnErr result ((self.new ≡ self.old) × (out.new ≡ out.old)) }
        ensures fault { IfErr result
            (λ fault. (k : Known) (place : ℕ) (calls : List Call) → left ≡ left_of k.head.size place → KnowsHead (Some k) calls self.old.known
            → IsFaultOf (next_owed (parses_raw k.info) calls (body_item (within k.head.size place body))) fault) }
        ensures bytes { AreBytes body }
        ensures longer { (bytes more : List ℕ) (head : Head) → BeginsWithHead bytes head → BeginsWithHead (bytes ++ more) head }
    {
        head_stays();
        are_bytes(body.as_slice());
        let (cut, left) = cut_data(alloc, body, left)?;
        match self.feed_data(alloc, body_item(cut), out) {
            Ok(()) => {
                set(&mut self.phase, Phase::InData { left });
                Ok(())
            }
            Err(fault) => Err(fault),
        }
    }

    /// Gives the parser of the data an item.
    fn feed_data(&mut self, alloc: Global, item: Item, out: &mut Outs) -> Result<(), ElementFault>
        requires { is_flush_stop item ≡ false }
        ensures fed { OnOk result ((k : Known) (calls : List Call) → KnowsHead (Some k) calls self.old.known
            → FedOn k calls item self.new.known out.old out.new) }
        ensures appends { OnOk result (Appends out.old out.new) }
        ensures phase { self.new.phase ≡ self.old.phase }
        ensures ended { self.new.ended ≡ self.old.ended }
        ensures stays { OnErr result ((self.new ≡ self.old) × (out.new ≡ out.old)) }
        ensures fault { IfErr result
            (λ fault. (k : Known) (calls : List Call) → KnowsHead (Some k) calls self.old.known → IsFaultOf (next_owed (parses_raw k.info) calls item) fault) }
    {
        let Some(known) = &mut self.known else {
            return Ok(());
        };
        known.feed(alloc, item, out)
    }

    /// Goes on in the data, where it was begun.
    fn begin(&mut self, begun: Option<Begun>)
        ensures begun { MatchOption begun (self.new ≡ self.old) (λ b. (self.new.known ≡ Some b.known) × (self.new.phase ≡ Passing b.left)) }
        ensures ended { self.new.ended ≡ self.old.ended }
    {
        if let Some(begun) = begun {
            set(&mut self.known, Some(begun.known));
            set(&mut self.phase, Phase::InData { left: begun.left });
        }
    }

    /// Begins a part, where a SEGMENT begins one.
    fn parse_segment(
        &mut self,
        alloc: Global,
        segment: Segment,
        out: &mut Outs,
    ) -> Result<(), ElementFault>
        ensures took { OnOk result ((read : List ℕ → Told) (part : Part) (calls : List Call) → IsIn read part calls self.old
            → Took read part calls (Ev (NewSegment segment)) self.new out.old out.new) }
        ensures appends { OnOk result (Appends out.old out.new) }
        ensures ended { self.new.ended ≡ self.old.ended }
        ensures stays { OnErr result ((self.new ≡ self.old) × (out.new ≡ out.old)) }
        ensures fault { IfErr result
            (λ fault. (read : List ℕ → Told) (part : Part) (calls : List Call) → IsIn read part calls self.old
            → IsFaultOf (answer read part calls (Ev (NewSegment segment))) fault) }
    {
        match self.data_place(place_of(&segment)) {
            Some((at, left)) => match self.go_on(alloc, segment_item(at), out) {
                Ok(()) => {
                    set(&mut self.phase, Phase::InData { left });
                    Ok(())
                }
                Err(fault) => Err(fault),
            },
            None => {
                set(&mut self.phase, Phase::InHead(Gathered::new(alloc)));
                Ok(())
            }
        }
    }

    /// Gives the parser of the data a SEGMENT, and puts out the SEGMENT that it puts out.
    fn go_on(&mut self, alloc: Global, item: Item, out: &mut Outs) -> Result<(), ElementFault>
        requires { is_flush_stop item ≡ false }
        ensures fed { OnOk result ((k : Known) (calls : List Call) → KnowsHead (Some k) calls self.old.known
            → WentOn k calls item self.new.known out.old out.new) }
        ensures appends { OnOk result (Appends out.old out.new) }
        ensures phase { self.new.phase ≡ self.old.phase }
        ensures ended { self.new.ended ≡ self.old.ended }
        ensures stays { OnErr result ((self.new ≡ self.old) × (out.new ≡ out.old)) }
        ensures fault { IfErr result
            (λ fault. (k : Known) (calls : List Call) → KnowsHead (Some k) calls self.old.known → IsFaultOf (next_owed (parses_raw k.info) calls item) fault) }
    {
        let Some(known) = &self.known else {
            return Ok(());
        };
        let Ok(mut again) = known.copy(alloc) else {
            return Err(ElementFault::OutOfMemory);
        };
        let mut made = Items::new(alloc);
        match again.feed(alloc, item, &mut made) {
            Ok(()) => {
                put_last(alloc, made, out)?;
                set(&mut self.known, Some(again));
                Ok(())
            }
            Err(fault) => Err(fault),
        }
    }

    /// The place in the data of a place in the file, and how many bytes of data are left there. None where the known
    /// data begins behind it, or none is known.
    fn data_place(&self, place: u64) -> Option<(u64, Option<u64>)>
        ensures { (known : Option Known) (calls : List Call) → KnowsHead known calls self.now.known
            → MatchOption result (goes_on known place ≡ None) (IsPlaceIn known place) }
    {
        let Some(known) = &self.known else {
            return None;
        };
        let at = known.place_in_data(place)?;
        Some((at, left_of(known.head().size, at)))
    }

    /// Ends the stream, where it may end.
    fn end(&mut self, alloc: Global, out: &mut Outs) -> Result<(), ElementFault>
        ensures took { OnOk result ((read : List ℕ → Told) (part : Part) (calls : List Call) → IsIn read part calls self.old
            → Took read part calls (Ev Eos) self.new out.old out.new) }
        ensures appends { OnOk result (Appends out.old out.new) }
        ensures ended { OnOk result (self.new.ended ≡ true) }
        ensures stays { OnErr result ((self.new ≡ self.old) × (out.new ≡ out.old)) }
        ensures fault { IfErr result
            (λ fault. (read : List ℕ → Told) (part : Part) (calls : List Call) → IsIn read part calls self.old
            → IsFaultOf (answer read part calls (Ev Eos)) fault) }
    {
        self.may_end()?;
        put_out(alloc, Item::Event(Event::Eos), out)?;
        self.ended = true;
        Ok(())
    }

    /// Whether the stream may end here, which it may not in a head.
    fn may_end(&self) -> Result<(), ElementFault>
        ensures ends { OnOk result ((read : List ℕ → Told) (part : Part) (calls : List Call) → IsIn read part calls self.now
            → answer read part calls (Ev Eos) ≡ Ok (Ev Eos ∷ [])) }
        ensures fault { IfErr result
            (λ fault. (read : List ℕ → Told) (part : Part) (calls : List Call) → IsIn read part calls self.now
            → IsFaultOf (answer read part calls (Ev Eos)) fault) }
    {
        let place = match &self.phase {
            Phase::InData { .. } => return Ok(()),
            Phase::Unbegun if self.known.is_some() => return Ok(()),
            Phase::Unbegun => 0,
            Phase::InHead(gathered) => gathered.count(),
        };
        Err(ElementFault::BadStream {
            place,
            kind: StreamKind::Short,
        })
    }
}

impl Phase {
    ghost use Rattle.el_wav.specs.WavParsed.{StandsAs};

    /// The same once more.
    fn copy(&self, alloc: Global) -> Result<Phase, OutOfMemory>
        ensures { IfOk result (λ made. (standing : Standing) (bytes : List ℕ) → StandsAs standing bytes self.now → StandsAs standing bytes made) }
    {
        match self {
            Phase::Unbegun => Ok(Phase::Unbegun),
            Phase::InHead(gathered) => Ok(Phase::InHead(gathered.copy(alloc)?)),
            Phase::InData { left } => Ok(Phase::InData { left: *left }),
        }
    }
}

/// A law: a slice of bytes holds bytes.
fn are_bytes(_bytes: &[u8])
    ensures { AreBytes _bytes.now }
{}

/// The place in the file at which a segment begins.
fn place_of(segment: &Segment) -> u64
    ensures { result ≡ place_at segment.now.start segment.now.format }
{
    match segment.format {
        Format::Bytes => segment.start,
        Format::Time => 0,
    }
}

/// Lets the parser of the data begin a new section.
fn flush_known(known: &mut Option<KnownHead>)
    ensures { (k : Option Known) (calls : List Call) (number : ℕ) → KnowsHead k calls known.old
        → KnowsHead k (calls ++ Feed (Ev (FlushStop number)) ∷ []) known.new }
{
    match known {
        Some(known) => known.flush(),
        None => {}
    }
}

/// The same head once more.
fn known_again(alloc: Global, known: &Option<KnownHead>) -> Result<Option<KnownHead>, OutOfMemory>
    ensures { IfOk result (λ made. made ≡ known.now) }
{
    match known {
        None => Ok(None),
        Some(known) => Ok(Some(known.copy(alloc)?)),
    }
}

/// Puts a value in the place of another one.
fn set<T: Drop>(slot: &mut T, value: T)
    ensures { slot.new ≡ value }
{
    *slot = value;
}
