//! The element that writes WAV files, as GStreamer's wavenc.
ghost use Rattle.std.specs.Prelude.{◌≡◌, ◌≤◌, ◌+◌, ◌++◌, ◌∷◌, [], ℕ, List, Some, None, Ok, true, false, IfOk, OnOk, OnErr, IfErr, IsOk};
ghost use Rattle.std.specs.Option.{option_copied};
ghost use Rattle.flow_model.specs.Item.{Item, Buf, Ev, NewCaps, FlushStop, Eos, is_eos, is_flush_stop};
ghost use Rattle.flow_model.specs.Call.{Call, Feed, Act, Drain};
ghost use Rattle.flow_model.specs.Feeding.{flow_behind, on_pad, next_owed, IsFaultOf};
ghost use Rattle.flow_model.specs.Owed.{answered, drain_owed};
ghost use Rattle.gst_item.specs.Sticky.{held as events_of};
ghost use Rattle.el_wavenc.specs.Encodes.{encodes, encode_answer, announcement, ending, finished, settled, progress_behind};

use crate::file::{
    HEAD_LENGTH, MOST_DATA, bytes_at, push_event, push_head, push_opening, push_padding, put_data,
};
use crate::stream::Stream;
use audio_info::{Info, exactly, wav_template};
use flow_model::{ElementFault, StreamKind, put_out};
use gst_caps::same_caps;
use gst_item::{Buffer, Event, Flow, Item, Out, Outs};
use gst_value::{Fixed, OutOfMemory};
use std::alloc::Global;
use std::collections::VecDeque;

/// Puts audio out as a WAV file: a head, the data, and at the end the head again with the size of the data. It has
/// one sink pad and one source pad, both of number 0.
#[derive(Drop)]
pub struct WavEnc {
    /// By the CAPS in force.
    stream: Option<Stream>,
    /// Whether CAPS came since the last flush.
    announced: bool,
    /// Whether the file was begun since then.
    opened: bool,
    /// The bytes of its data.
    size: u64,
    ended: bool,
    ghost fits: { size ≤ 4294967258 },
}

impl WavEnc {
    ghost use Rattle.el_wavenc.specs.Encoded.{Encoded, come};
    ghost use Rattle.el_wavenc.specs.Puts.{Puts};

    /// An element that was fed nothing yet.
    pub fn new() -> WavEnc
        ensures { Encoded result [] [] }
    {
        WavEnc {
            stream: None,
            announced: false,
            opened: false,
            size: 0,
            ended: false,
        }
    }

    /// Takes an item. Behind EOS, up to the next flush, the answer is `Flow::Eos` and nothing is put out, and else
    /// it is `Flow::Ok`. The first CAPS put out CAPS of a WAV file. Before the first buffer, and before EOS, a SEGMENT
    /// in bytes from 0 and a head of 44 bytes with the size 0 go out; the bytes of buffers go out as they are, with
    /// their place in the file as offset and without times. EOS puts out a zero byte where the size of the data is
    /// odd, a SEGMENT in bytes from 0 and the head with the size of the data; without CAPS it passes alone. SEGMENTs
    /// and GAPs are dropped, and other events pass.
    ///
    /// CAPS outside of the template and a buffer before any CAPS are `NotNegotiated` with the template as wanted.
    /// CAPS other than those of the file are `NotNegotiated` with these as wanted: the first since the last flush, or
    /// those before it where the file was begun by them. A buffer that is not a whole number of frames is a
    /// `SplitFrame` at the number of bytes that came since the last flush, its own among them. Where the data would
    /// have more than 4,294,967,258 bytes, it is a `TooLarge` at the number of bytes before.
    pub fn feed(
        &mut self,
        alloc: Global,
        _pad: u32,
        item: Item,
        out: &mut Outs,
    ) -> Result<Flow, ElementFault>
        requires pad { _pad ≡ 0 }
        requires no_flush { is_flush_stop item ≡ false }
        ensures fed { IfOk result (λ flow. (calls : List Call) (put : List Item) → Encoded self.old calls put
            → (ys : List Item) × (next_owed encodes calls item ≡ Ok ys) × (out.new ≡ out.old ++ on_pad 0 ys)
            × Encoded self.new (calls ++ Feed item ∷ []) (put ++ ys)) }
        ensures flow { IfOk result (λ flow. (calls : List Call) (put : List Item) → Encoded self.old calls put → flow ≡ flow_behind calls) }
        ensures puts { IfOk result (λ flow. Puts self.old self.new (Feed item) out.old out.new) }
        ensures stays { OnErr result ((self.new ≡ self.old) × (out.new ≡ out.old)) }
        ensures fault { IfErr result
            (λ fault. (calls : List Call) (put : List Item) → Encoded self.old calls put → IsFaultOf (next_owed encodes calls item) fault) }
    {
        if self.ended {
            return Ok(Flow::Eos);
        }
        self.encode(alloc, item, out)?;
        Ok(Flow::Ok)
    }

    /// Begins a new section, behind a FLUSH_STOP of any number that crosses its source pad. The caps of the stream
    /// stay, and a new file is begun.
    pub fn flush(&mut self)
        ensures { (calls : List Call) (put : List Item) (number : ℕ) → Encoded self.old calls put
            → Encoded self.new (calls ++ Feed (Ev (FlushStop number)) ∷ []) (put ++ Ev (FlushStop number) ∷ []) }
    {
        self.announced = false;
        self.opened = false;
        self.size = 0;
        self.ended = false;
    }

    /// Puts out what EOS would make it put out before the EOS. Later bytes go on behind those before.
    pub fn drain(&mut self, alloc: Global, out: &mut Outs) -> Result<(), ElementFault>
        ensures drained { OnOk result ((calls : List Call) (put : List Item) → Encoded self.old calls put
            → (ys : List Item) × (drain_owed encodes calls ≡ Ok ys) × (out.new ≡ out.old ++ on_pad 0 ys)
            × Encoded self.new (calls ++ Act Drain ∷ []) (put ++ ys)) }
        ensures puts { OnOk result (Puts self.old self.new (Act Drain) out.old out.new) }
        ensures stays { OnErr result ((self.new ≡ self.old) × (out.new ≡ out.old)) }
        ensures fault { IfErr result
            (λ fault. (calls : List Call) (put : List Item) → Encoded self.old calls put → IsFaultOf (drain_owed encodes calls) fault) }
    {
        if self.ended {
            return Ok(());
        }
        Ok(self.finish(alloc, None, out)?)
    }

    /// The same element once more.
    pub fn copy(&self, alloc: Global) -> Result<WavEnc, OutOfMemory>
        ensures { IfOk result (λ made. made ≡ self.now) }
    {
        Ok(WavEnc {
            stream: stream_again(alloc, &self.stream)?,
            announced: self.announced,
            opened: self.opened,
            size: self.size,
            ended: self.ended,
        })
    }

    /// Takes an item of a section that is not over.
    fn encode(&mut self, alloc: Global, item: Item, out: &mut Outs) -> Result<(), ElementFault>
        requires { is_flush_stop item ≡ false }
        ensures answer { OnOk result (IsOk (encode_answer (come self.old) item)) }
        ensures out { OnOk result (out.new ≡ out.old ++ on_pad 0 (answered (encode_answer (come self.old) item))) }
        ensures come { OnOk result (come self.new ≡ progress_behind (come self.old) item) }
        ensures eos { OnOk result (self.old.ended ≡ false → self.new.ended ≡ is_eos item) }
        ensures stays { OnErr result ((self.new ≡ self.old) × (out.new ≡ out.old)) }
        ensures fault { IfErr result (λ fault. IsFaultOf (encode_answer (come self.old) item) fault) }
    {
        match item {
            Item::Buffer(buffer) => self.take_buffer(alloc, buffer, out),
            Item::Event(Event::Caps(caps)) => self.take_caps(alloc, caps, out),
            Item::Event(Event::Segment(_)) => Ok(()),
            Item::Event(Event::Gap { .. }) => Ok(()),
            Item::Event(Event::Eos) => self.take_eos(alloc, out),
            Item::Event(event) => Ok(put_out(alloc, Item::Event(event), out)?),
        }
    }

    /// Puts the bytes of a buffer out, behind those before them.
    fn take_buffer(
        &mut self,
        alloc: Global,
        buffer: Buffer,
        out: &mut Outs,
    ) -> Result<(), ElementFault>
        ensures answer { OnOk result (IsOk (encode_answer (come self.old) (Buf buffer))) }
        ensures out { OnOk result (out.new ≡ out.old ++ on_pad 0 (answered (encode_answer (come self.old) (Buf buffer)))) }
        ensures come { OnOk result (come self.new ≡ progress_behind (come self.old) (Buf buffer)) }
        ensures ended { self.new.ended ≡ self.old.ended }
        ensures stays { OnErr result ((self.new ≡ self.old) × (out.new ≡ out.old)) }
        ensures fault { IfErr result (λ fault. IsFaultOf (encode_answer (come self.old) (Buf buffer)) fault) }
    {
        let Some(stream) = &self.stream else {
            return Err(ElementFault::NotNegotiated {
                offered: None,
                wanted: wav_template(alloc)?,
            });
        };
        let length = buffer.body.as_slice().len() as u64;
        if length % u64::from(stream.info.width()) != 0 {
            return Err(ElementFault::BadStream {
                place: self.size + length,
                kind: StreamKind::SplitFrame,
            });
        }
        if self.size + length > MOST_DATA {
            return Err(ElementFault::BadStream {
                place: self.size,
                kind: StreamKind::TooLarge,
            });
        }
        let data = bytes_at(HEAD_LENGTH + self.size, buffer.body);
        put_data(alloc, stream, self.opened, data, out)?;
        self.opened = true;
        self.size += length;
        Ok(())
    }

    /// Takes CAPS, where they are those of the file, or any of the template before there is one.
    fn take_caps(&mut self, alloc: Global, caps: Fixed, out: &mut Outs) -> Result<(), ElementFault>
        ensures answer { OnOk result (IsOk (encode_answer (come self.old) (Ev (NewCaps caps)))) }
        ensures out { OnOk result (out.new ≡ out.old ++ on_pad 0 (answered (encode_answer (come self.old) (Ev (NewCaps caps))))) }
        ensures come { OnOk result (come self.new ≡ progress_behind (come self.old) (Ev (NewCaps caps))) }
        ensures ended { self.new.ended ≡ self.old.ended }
        ensures stays { OnErr result ((self.new ≡ self.old) × (out.new ≡ out.old)) }
        ensures fault { IfErr result (λ fault. IsFaultOf (encode_answer (come self.old) (Ev (NewCaps caps))) fault) }
    {
        let Some(first) = self.settled() else {
            return self.take_first(alloc, caps, out);
        };
        if !same_caps(first, &caps) {
            let wanted = exactly(alloc, first)?;
            return Err(ElementFault::NotNegotiated {
                offered: Some(caps),
                wanted,
            });
        }
        Ok(self.announce(alloc, out)?)
    }

    /// The caps of the file, once there are CAPS or it was begun by those before the last flush.
    fn settled(&self) -> Option<&Fixed>
        ensures { option_copied result ≡ settled (come self.now) }
    {
        if self.announced {
            return Some(&self.stream.as_ref()?.caps);
        }
        if self.opened {
            return Some(&self.stream.as_ref()?.caps);
        }
        None
    }

    /// Takes CAPS of the template.
    fn take_first(&mut self, alloc: Global, caps: Fixed, out: &mut Outs) -> Result<(), ElementFault>
        requires { settled (come self.old) ≡ None }
        ensures answer { OnOk result (IsOk (encode_answer (come self.old) (Ev (NewCaps caps)))) }
        ensures out { OnOk result (out.new ≡ out.old ++ on_pad 0 (answered (encode_answer (come self.old) (Ev (NewCaps caps))))) }
        ensures come { OnOk result (come self.new ≡ progress_behind (come self.old) (Ev (NewCaps caps))) }
        ensures ended { self.new.ended ≡ self.old.ended }
        ensures stays { OnErr result ((self.new ≡ self.old) × (out.new ≡ out.old)) }
        ensures fault { IfErr result (λ fault. IsFaultOf (encode_answer (come self.old) (Ev (NewCaps caps))) fault) }
    {
        let wanted = wav_template(alloc)?;
        if !wanted.accepts(&caps) {
            return Err(ElementFault::NotNegotiated {
                offered: Some(caps),
                wanted,
            });
        }
        let Ok(info) = Info::from_fixed(&caps) else {
            unreachable!()
        };
        self.announce(alloc, out)?;
        set(&mut self.stream, Some(Stream { caps, info }));
        Ok(())
    }

    /// Puts out CAPS of a WAV file, where that was not done since the last flush.
    fn announce(&mut self, alloc: Global, out: &mut Outs) -> Result<(), OutOfMemory>
        ensures out { OnOk result (out.new ≡ out.old ++ on_pad 0 (announcement (come self.old))) }
        ensures announced { OnOk result (self.new ≡ record self.old { announced = true }) }
        ensures stays { OnErr result ((self.new ≡ self.old) × (out.new ≡ out.old)) }
    {
        if self.announced {
            return Ok(());
        }
        let caps = Fixed::new(alloc, "audio/x-wav")?;
        put_out(alloc, Item::Event(Event::Caps(caps)), out)?;
        self.announced = true;
        Ok(())
    }

    /// Ends the file, and then the stream.
    fn take_eos(&mut self, alloc: Global, out: &mut Outs) -> Result<(), ElementFault>
        ensures out { OnOk result (out.new ≡ out.old ++ on_pad 0 (answered (encode_answer (come self.old) (Ev Eos)))) }
        ensures come { OnOk result (come self.new ≡ progress_behind (come self.old) (Ev Eos)) }
        ensures ended { OnOk result (self.new.ended ≡ true) }
        ensures stays { OnErr result ((self.new ≡ self.old) × (out.new ≡ out.old)) }
        ensures fault { IfErr result (λ fault. IsFaultOf (encode_answer (come self.old) (Ev Eos)) fault) }
    {
        self.finish(alloc, Some(Event::Eos), out)?;
        self.ended = true;
        Ok(())
    }

    /// Puts out what ends the file, and an event behind it, where there is one.
    fn finish(
        &mut self,
        alloc: Global,
        event: Option<Event>,
        out: &mut Outs,
    ) -> Result<(), OutOfMemory>
        ensures out { OnOk result (out.new ≡ out.old ++ on_pad 0 (ending (come self.old) ++ events_of event)) }
        ensures come { OnOk result (come self.new ≡ finished (come self.old)) }
        ensures ended { self.new.ended ≡ self.old.ended }
        ensures stays { OnErr result ((self.new ≡ self.old) × (out.new ≡ out.old)) }
    {
        let mut queue = self.ending(alloc)?;
        push_event(&mut queue, event)?;
        out.pour(alloc, &mut queue)?;
        self.opened = self.opened || self.stream.is_some();
        Ok(())
    }

    /// What ends the file, and before it what begins it, where that did not go out.
    fn ending(&self, alloc: Global) -> Result<VecDeque<Out>, OutOfMemory>
        ensures { IfOk result (λ queue. queue.items ≡ on_pad 0 (ending (come self.now))) }
    {
        let mut queue = VecDeque::with_capacity(alloc, 6)?;
        if let Some(stream) = &self.stream {
            push_opening(alloc, &mut queue, stream, self.opened)?;
            push_padding(alloc, &mut queue, self.size)?;
            push_head(alloc, &mut queue, stream, self.size)?;
        }
        Ok(queue)
    }
}

/// The same stream once more.
fn stream_again(alloc: Global, stream: &Option<Stream>) -> Result<Option<Stream>, OutOfMemory>
    ensures { IfOk result (λ made. made ≡ stream.now) }
{
    match stream {
        None => Ok(None),
        Some(stream) => Ok(Some(stream.copy(alloc)?)),
    }
}

/// Puts a value in the place of another one.
fn set<T: Drop>(slot: &mut T, value: T)
    ensures { slot.new ≡ value }
{
    *slot = value;
}
