//! The element that converts raw audio to the caps that are allowed behind it, as GStreamer's audioconvert.
ghost use Rattle.std.specs.Prelude.{◌≡◌, ◌<◌, ◌^◌, ◌+◌, ◌++◌, ◌∷◌, [], ℕ, List, length, Option, Some, None, Ok, false, true, IfOk, OnOk, OnErr, IfErr, IsOk, MatchOption};
ghost use Rattle.std.specs.Option.{ForSome};
ghost use Rattle.std.specs.Result.{IsErrAnd};
ghost use Rattle.flow_model.specs.Item.{Buf};
ghost use Rattle.flow_model.specs.Feeding.{IsFaultOf};
ghost use Rattle.el_convert.specs.Choice.{choice};
ghost use Rattle.el_convert.specs.Converts.{Known, convert_answer};

use crate::put_out::put_with_caps;
use crate::stream::{Stream, stream_of};
use audio_info::{Info, raw_template};
use flow_model::{ElementFault, put_out};
use gst_caps::{Caps, same_caps};
use gst_item::{Buffer, Event, Flow, Item, Outs};
use gst_value::{Fixed, OutOfMemory};
use std::alloc::Global;

/// Converts raw audio to a format and a number of channels that are allowed behind it. It has one sink pad and one
/// source pad, both of number 0.
#[derive(Drop)]
pub struct Convert {
    allowed: Caps,
    stream: Option<Stream>,
    /// Whether the allowed caps were set since the choice.
    anew: bool,
    /// The bytes that came since the last flush.
    got: u64,
    ended: bool,
    ghost below_limit: { got < 2 ^ 63 },
    ghost up_to_date: { anew ≡ false → ForSome stream (λ s. choice s.offered allowed ≡ Some s.chosen) },
}

impl Convert {
    ghost use Rattle.flow_model.specs.declared.fault.ElementFault.TheVariants.{OutOfMemory as Wanting};
    ghost use Rattle.gst_item.specs.declared.flow.Flow.TheVariants.{Ok as Taken};
    ghost use Rattle.gst_caps.specs.Accepts.{accepts};
    ghost use Rattle.flow_model.specs.Item.{Item, Buf, Ev, NewCaps, FlushStop, is_caps, is_eos, is_flush_stop};
    ghost use Rattle.flow_model.specs.Call.{Call, Feed, Act, Drain, Set, Allowed};
    ghost use Rattle.flow_model.specs.Feeding.{flow_behind, on_pad, next_owed, IsFaultOf};
    ghost use Rattle.audio_info.specs.Templates.{raw_template};
    ghost use Rattle.el_convert.specs.Converts.{converts, convert_answer, known_behind};
    ghost use Rattle.flow_model.specs.Owed.{answered};
    ghost use Rattle.el_convert.specs.Converted.{IsConverted, knows, Stays, Changes};
    ghost use Rattle.el_convert.specs.Puts.{Puts};

    /// An element that was fed nothing yet, with the caps that it is allowed to put out at first.
    pub fn new(allowed: Caps) -> Convert
        ensures { IsConverted allowed result [] [] }
    {
        Convert {
            allowed,
            stream: None,
            anew: false,
            got: 0,
            ended: false,
        }
    }

    /// Takes an item. Behind EOS, up to the next flush, the answer is `Flow::Eos` and nothing is put out, and
    /// else it is `Flow::Ok`. CAPS put out the first that they can become of the allowed caps. A buffer is put out
    /// converted to that choice, with its times and its offset; where the allowed caps were set since, it is made
    /// anew, and CAPS go out before the buffer where it is another one. Other events pass. CAPS that are not raw
    /// audio, and a buffer before any CAPS, are `NotNegotiated` with the template as wanted, and CAPS or a buffer
    /// for which nothing is allowed with the allowed caps. A buffer that is not a whole number of frames is a
    /// `SplitFrame` at the number of bytes that came since the last flush, its own among them. Where that number
    /// would be 2^63 or more the answer is `TooLong`.
    pub fn feed(
        &mut self,
        alloc: Global,
        _pad: u32,
        item: Item,
        out: &mut Outs,
    ) -> Result<Flow, ElementFault>
        requires pad { _pad ≡ 0 }
        requires no_flush { is_flush_stop item ≡ false }
        ensures fed { IfOk result (λ flow. (first : Caps) (calls : List Call) (put : List Item) → IsConverted first self.old calls put
            → (ys : List Item) × (next_owed (converts first) calls item ≡ Ok ys) × (out.new ≡ out.old ++ on_pad 0 ys)
            × IsConverted first self.new (calls ++ Feed item ∷ []) (put ++ ys)) }
        ensures flow { IfOk result (λ flow. (first : Caps) (calls : List Call) (put : List Item) → IsConverted first self.old calls put
            → flow ≡ flow_behind calls) }
        ensures puts { IfOk result (λ flow. Puts self.old self.new (Feed item) out.old out.new) }
        ensures stays { OnErr result ((self.new ≡ self.old) × (out.new ≡ out.old)) }
        ensures fault { IfErr result
            (λ fault. (first : Caps) (calls : List Call) (put : List Item) → IsConverted first self.old calls put
            → IsFaultOf (next_owed (converts first) calls item) fault) }
    {
        if self.ended {
            return Ok(Flow::Eos);
        }
        self.take(alloc, item, out)
    }

    /// Begins a new section, behind a FLUSH_STOP of any number that crosses its source pad. The caps of the
    /// stream, the allowed caps and the choice stay.
    pub fn flush(&mut self)
        ensures { (first : Caps) (calls : List Call) (put : List Item) (number : ℕ) → IsConverted first self.old calls put
            → IsConverted first self.new (calls ++ Feed (Ev (FlushStop number)) ∷ []) (put ++ Ev (FlushStop number) ∷ []) }
    {
        self.ended = false;
        self.got = 0;
    }

    /// Puts out what it holds back, which is nothing.
    pub fn drain(&mut self, _alloc: Global, _out: &mut Outs) -> Result<(), ElementFault>
        ensures ok { IsOk result }
        ensures out { _out.new ≡ _out.old }
        ensures drained { (first : Caps) (calls : List Call) (put : List Item) → IsConverted first self.old calls put
            → IsConverted first self.new (calls ++ Act Drain ∷ []) put }
        ensures puts { OnOk result (Puts self.old self.new (Act Drain) _out.old _out.new) }
    {
        Ok(())
    }

    /// Other allowed caps, which count from the next item on.
    pub fn set_allowed(&mut self, allowed: Caps)
        ensures { (first : Caps) (calls : List Call) (put : List Item) → IsConverted first self.old calls put
            → IsConverted first self.new (calls ++ Act (Set (Allowed allowed)) ∷ []) put }
    {
        self.anew = true;
        self.allowed = allowed;
    }

    /// The same element once more.
    pub fn copy(&self, alloc: Global) -> Result<Convert, OutOfMemory>
        ensures { IfOk result (λ made. made ≡ self.now) }
    {
        Ok(Convert {
            allowed: self.allowed.copy(alloc)?,
            stream: copy_stream(alloc, &self.stream)?,
            anew: self.anew,
            got: self.got,
            ended: self.ended,
        })
    }

    /// Takes an item of a section that is not over.
    fn take(&mut self, alloc: Global, item: Item, out: &mut Outs) -> Result<Flow, ElementFault>
        requires { is_flush_stop item ≡ false }
        ensures flow { IfOk result (λ flow. flow ≡ Taken) }
        ensures answer { OnOk result (IsOk (convert_answer (knows self.old) item)) }
        ensures out { OnOk result (out.new ≡ out.old ++ on_pad 0 (answered (convert_answer (knows self.old) item))) }
        ensures knows { OnOk result (knows self.new ≡ known_behind (knows self.old) item) }
        ensures eos { OnOk result (self.old.ended ≡ false → self.new.ended ≡ is_eos item) }
        ensures stays { OnErr result ((self.new ≡ self.old) × (out.new ≡ out.old)) }
        ensures fault { IfErr result (λ fault. IsFaultOf (convert_answer (knows self.old) item) fault) }
    {
        match item {
            Item::Buffer(buffer) => self.take_buffer(alloc, buffer, out),
            Item::Event(Event::Caps(caps)) => self.take_caps(alloc, caps, out),
            Item::Event(event) => self.take_event(alloc, event, out),
        }
    }

    /// Puts a buffer out converted, and CAPS before it where the choice for it is another one.
    fn take_buffer(
        &mut self,
        alloc: Global,
        buffer: Buffer,
        out: &mut Outs,
    ) -> Result<Flow, ElementFault>
        ensures flow { IfOk result (λ flow. flow ≡ Taken) }
        ensures answer { OnOk result (IsOk (convert_answer (knows self.old) (Buf buffer))) }
        ensures out { OnOk result (out.new ≡ out.old ++ on_pad 0 (answered (convert_answer (knows self.old) (Buf buffer)))) }
        ensures knows { OnOk result (knows self.new ≡ known_behind (knows self.old) (Buf buffer)) }
        ensures eos { OnOk result (self.new.ended ≡ self.old.ended) }
        ensures stays { OnErr result ((self.new ≡ self.old) × (out.new ≡ out.old)) }
        ensures fault { IfErr result (λ fault. IsFaultOf (convert_answer (knows self.old) (Buf buffer)) fault) }
    {
        if self.anew {
            return self.choose_anew(alloc, buffer, out);
        }
        self.put_converted(alloc, buffer, out)
    }

    /// The same, where the choice may be another one than the one before.
    fn choose_anew(
        &mut self,
        alloc: Global,
        buffer: Buffer,
        out: &mut Outs,
    ) -> Result<Flow, ElementFault>
        ensures flow { IfOk result (λ flow. flow ≡ Taken) }
        ensures answer { OnOk result (IsOk (convert_answer (knows self.old) (Buf buffer))) }
        ensures out { OnOk result (out.new ≡ out.old ++ on_pad 0 (answered (convert_answer (knows self.old) (Buf buffer)))) }
        ensures knows { OnOk result (knows self.new ≡ known_behind (knows self.old) (Buf buffer)) }
        ensures eos { OnOk result (self.new.ended ≡ self.old.ended) }
        ensures stays { OnErr result ((self.new ≡ self.old) × (out.new ≡ out.old)) }
        ensures fault { IfErr result (λ fault. IsFaultOf (convert_answer (knows self.old) (Buf buffer)) fault) }
    {
        match self.other_choice(alloc)? {
            None => self.put_converted(alloc, buffer, out),
            Some(stream) => self.change_choice(alloc, stream, buffer, out),
        }
    }

    /// The choice for the next buffer, where it is another one than the one before.
    fn other_choice(&self, alloc: Global) -> Result<Option<Stream>, ElementFault>
        ensures choice { IfOk result (λ other. MatchOption other (Stays self.now) (Changes self.now)) }
        ensures fault { IfErr result (λ fault. (b : Buffer) → IsFaultOf (convert_answer (knows self.now) (Buf b)) fault) }
    {
        let Some(stream) = &self.stream else {
            return before_caps(alloc);
        };
        let other = stream_of(
            alloc,
            stream.offered.copy(alloc)?,
            stream.input,
            &self.allowed,
        )?;
        if same_caps(&stream.chosen, &other.chosen) {
            return Ok(None);
        }
        Ok(Some(other))
    }

    /// Puts a buffer out converted, by the choice that was made before.
    fn put_converted(
        &mut self,
        alloc: Global,
        mut buffer: Buffer,
        out: &mut Outs,
    ) -> Result<Flow, ElementFault>
        requires kept { ForSome self.old.stream (λ s. choice s.offered self.old.allowed ≡ Some s.chosen) }
        ensures flow { IfOk result (λ flow. flow ≡ Taken) }
        ensures answer { OnOk result (IsOk (convert_answer (knows self.old) (Buf buffer))) }
        ensures out { OnOk result (out.new ≡ out.old ++ on_pad 0 (answered (convert_answer (knows self.old) (Buf buffer)))) }
        ensures knows { OnOk result (knows self.new ≡ known_behind (knows self.old) (Buf buffer)) }
        ensures eos { OnOk result (self.new.ended ≡ self.old.ended) }
        ensures stays { OnErr result ((self.new ≡ self.old) × (out.new ≡ out.old)) }
        ensures fault { IfErr result (λ fault. IsFaultOf (convert_answer (knows self.old) (Buf buffer)) fault) }
    {
        let Some(stream) = &self.stream else {
            return before_caps(alloc);
        };
        if !stream.takes(self.got, &buffer) {
            return stream.refuse(self.got, &buffer);
        }
        let length = buffer.body.as_slice().len() as u64;
        let Ok(()) = stream.convert(alloc, &mut buffer) else {
            return Err(ElementFault::OutOfMemory);
        };
        let Ok(()) = put_out(alloc, Item::Buffer(buffer), out) else {
            return Err(ElementFault::OutOfMemory);
        };
        self.anew = false;
        self.got += length;
        Ok(Flow::Ok)
    }

    /// Puts CAPS and a buffer out converted, by another choice, which holds from then on.
    fn change_choice(
        &mut self,
        alloc: Global,
        stream: Stream,
        mut buffer: Buffer,
        out: &mut Outs,
    ) -> Result<Flow, ElementFault>
        requires { Changes self.old stream }
        ensures flow { IfOk result (λ flow. flow ≡ Taken) }
        ensures answer { OnOk result (IsOk (convert_answer (knows self.old) (Buf buffer))) }
        ensures out { OnOk result (out.new ≡ out.old ++ on_pad 0 (answered (convert_answer (knows self.old) (Buf buffer)))) }
        ensures knows { OnOk result (knows self.new ≡ known_behind (knows self.old) (Buf buffer)) }
        ensures eos { OnOk result (self.new.ended ≡ self.old.ended) }
        ensures stays { OnErr result ((self.new ≡ self.old) × (out.new ≡ out.old)) }
        ensures fault { IfErr result (λ fault. IsFaultOf (convert_answer (knows self.old) (Buf buffer)) fault) }
    {
        if !stream.takes(self.got, &buffer) {
            return stream.refuse(self.got, &buffer);
        }
        let length = buffer.body.as_slice().len() as u64;
        stream.convert(alloc, &mut buffer)?;
        put_with_caps(alloc, stream.chosen.copy(alloc)?, buffer, out)?;
        self.anew = false;
        self.stream = Some(stream);
        self.got += length;
        Ok(Flow::Ok)
    }

    /// Puts the choice for CAPS out.
    fn take_caps(
        &mut self,
        alloc: Global,
        caps: Fixed,
        out: &mut Outs,
    ) -> Result<Flow, ElementFault>
        ensures flow { IfOk result (λ flow. flow ≡ Taken) }
        ensures answer { OnOk result (IsOk (convert_answer (knows self.old) (Ev (NewCaps caps)))) }
        ensures out { OnOk result (out.new ≡ out.old ++ on_pad 0 (answered (convert_answer (knows self.old) (Ev (NewCaps caps))))) }
        ensures knows { OnOk result (knows self.new ≡ known_behind (knows self.old) (Ev (NewCaps caps))) }
        ensures eos { OnOk result (self.new.ended ≡ self.old.ended) }
        ensures stays { OnErr result ((self.new ≡ self.old) × (out.new ≡ out.old)) }
        ensures fault { IfErr result (λ fault. IsFaultOf (convert_answer (knows self.old) (Ev (NewCaps caps))) fault) }
    {
        let wanted = raw_template(alloc)?;
        if !wanted.accepts(&caps) {
            return Err(ElementFault::NotNegotiated {
                offered: Some(caps),
                wanted,
            });
        }
        let Ok(input) = Info::from_fixed(&caps) else {
            unreachable!()
        };
        let stream = stream_of(alloc, caps, input, &self.allowed)?;
        let chosen = stream.chosen.copy(alloc)?;
        put_out(alloc, Item::Event(Event::Caps(chosen)), out)?;
        self.anew = false;
        self.stream = Some(stream);
        Ok(Flow::Ok)
    }

    /// Puts another event out.
    fn take_event(
        &mut self,
        alloc: Global,
        event: Event,
        out: &mut Outs,
    ) -> Result<Flow, ElementFault>
        requires { is_caps (Ev event) ≡ false }
        ensures flow { IfOk result (λ flow. flow ≡ Taken) }
        ensures out { OnOk result (out.new ≡ out.old ++ on_pad 0 (Ev event ∷ [])) }
        ensures same { OnOk result (knows self.new ≡ knows self.old) }
        ensures eos { OnOk result (self.new.ended ≡ is_eos (Ev event)) }
        ensures stays { OnErr result ((self.new ≡ self.old) × (out.new ≡ out.old)) }
        ensures fault { IfErr result (λ fault. fault ≡ Wanting) }
    {
        let ends = matches!(event, Event::Eos);
        put_out(alloc, Item::Event(event), out)?;
        self.ended = ends;
        Ok(Flow::Ok)
    }
}

/// Refuses a buffer that comes before any CAPS.
fn before_caps<T>(alloc: Global) -> Result<T, ElementFault>
    ensures { IsErrAnd result (λ fault. (k : Known) (b : Buffer) → k.offered ≡ None → IsFaultOf (convert_answer k (Buf b)) fault) }
{
    match raw_template(alloc) {
        Ok(wanted) => Err(ElementFault::NotNegotiated {
            offered: None,
            wanted,
        }),
        Err(OutOfMemory) => Err(ElementFault::OutOfMemory),
    }
}

/// What is known of a stream, once more.
fn copy_stream(alloc: Global, stream: &Option<Stream>) -> Result<Option<Stream>, OutOfMemory>
    ensures { IfOk result (λ made. made ≡ stream.now) }
{
    match stream {
        None => Ok(None),
        Some(stream) => Ok(Some(stream.copy(alloc)?)),
    }
}
