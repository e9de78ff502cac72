//! The elements of the two laws of G.711.
ghost use Rattle.std.specs.Prelude.{◌≡◌, ◌≤◌, ◌<◌, ◌^◌, ◌+◌, ◌++◌, length, ◌∷◌, [], ℕ, List, Some, Ok, false, IfOk, OnOk, OnErr, IfErr, IsErr, IsOk, None, Err};
ghost use Rattle.std.specs.Option.{ForSome};
ghost use Rattle.el_law.specs.Laws.{recoded_buffer as buffer_of};
ghost use Rattle.flow_model.specs.Feeding.{on_pad};
ghost use Rattle.flow_model.specs.Item.{Buf};

use crate::kind::LawKind;
use crate::recode::recoded;
use audio_info::{Info, sample_template};
use flow_model::{ElementFault, StreamKind, put_out};
use gst_item::{Body, Buffer, Event, Flow, Item, Outs};
use gst_time::LIMIT;
use gst_value::{Fixed, OutOfMemory};
use std::alloc::Global;

/// Codes or decodes audio by a law, sample by sample. It has one sink pad and one source pad, both of number 0.
#[derive(Drop)]
pub struct Law {
    kind: LawKind,
    /// The bytes of a frame of the stream's caps.
    frame: Option<u32>,
    /// The bytes that came since the last flush.
    got: u64,
    ended: bool,
    ghost some_bytes: { ForSome frame (λ n. 1 ≤ n) },
    ghost below_limit: { got < 2 ^ 63 },
}

impl Law {
    ghost use Rattle.flow_model.specs.declared.fault.ElementFault.TheVariants.{OutOfMemory as Wanting};
    ghost use Rattle.gst_item.specs.declared.flow.Flow.TheVariants.{Ok as Taken};
    ghost use Rattle.flow_model.specs.Item.{Item, Ev, NewCaps, FlushStop, is_caps, is_eos, is_flush_stop};
    ghost use Rattle.flow_model.specs.Call.{Call, Feed, Act, Drain};
    ghost use Rattle.flow_model.specs.Rule.{NotNegotiated};
    ghost use Rattle.flow_model.specs.Feeding.{flow_behind, passed, next_owed, IsFaultOf};
    ghost use Rattle.el_law.specs.Laws.{format_in as format_in_of, recodes, recoded as recoded_item, recoded_caps, frame_width, law_answer, frame_behind, got_behind};
    ghost use Rattle.el_law.specs.Recoded.{Recoded};
    ghost use Rattle.audio_info.specs.Templates.{sample_template as template_of};
    ghost use Rattle.el_law.specs.Puts.{Puts};

    /// An element that was fed nothing yet.
    pub fn new(kind: LawKind) -> Law
        ensures { Recoded kind result [] [] }
    {
        Law {
            kind,
            frame: None,
            got: 0,
            ended: false,
        }
    }

    /// Takes an item. Behind EOS, up to the next flush, the answer is `Flow::Eos` and nothing is put out, and
    /// else it is `Flow::Ok` and the item is put out recoded: a body sample by sample, with its times and its
    /// offset, CAPS as those of the other format with their rate and channels, and all else as it is. CAPS
    /// outside of the template, and a buffer before any CAPS, are `NotNegotiated` with the template as wanted. A
    /// buffer that is not a whole number of frames is a `SplitFrame` at the number of bytes that came since the
    /// last flush, its own among them. Where that number would be 2^63 or more the answer is `TooLong`.
    pub fn feed(
        &mut self,
        alloc: Global,
        _pad: u32,
        item: Item,
        out: &mut Outs,
    ) -> Result<Flow, ElementFault>
        requires pad { _pad ≡ 0 }
        requires no_flush { is_flush_stop item ≡ false }
        ensures out { IfOk result (λ flow. (kind : LawKind) (calls : List Call) (put : List Item) → Recoded kind self.old calls put
            → out.new ≡ out.old ++ on_pad 0 (passed flow (recoded_item kind item))) }
        ensures fed { IfOk result (λ flow. (kind : LawKind) (calls : List Call) (put : List Item) → Recoded kind self.old calls put
            → Recoded kind self.new (calls ++ Feed item ∷ []) (put ++ passed flow (recoded_item kind item))) }
        ensures flow { IfOk result (λ flow. (kind : LawKind) (calls : List Call) (put : List Item) → Recoded kind self.old calls put
            → flow ≡ flow_behind calls) }
        ensures puts { IfOk result (λ flow. Puts self.old self.new (Feed item) out.old out.new) }
        ensures stays { OnErr result ((self.new ≡ self.old) × (out.new ≡ out.old)) }
        ensures fault { IfErr result
            (λ fault. (kind : LawKind) (calls : List Call) (put : List Item) → Recoded kind self.old calls put
            → IsFaultOf (next_owed (recodes kind) calls item) fault) }
    {
        if self.ended {
            return Ok(Flow::Eos);
        }
        self.take(alloc, item, out)
    }

    /// Begins a new section, behind a FLUSH_STOP of any number that crosses its source pad. The caps of the
    /// stream stay.
    pub fn flush(&mut self)
        ensures { (kind : LawKind) (calls : List Call) (put : List Item) (number : ℕ) → Recoded kind self.old calls put
            → Recoded kind self.new (calls ++ Feed (Ev (FlushStop number)) ∷ []) (put ++ Ev (FlushStop number) ∷ []) }
    {
        self.ended = false;
        self.got = 0;
    }

    /// Puts out what it holds back, which is nothing.
    pub fn drain(&mut self, _alloc: Global, _out: &mut Outs) -> Result<(), ElementFault>
        ensures ok { IsOk result }
        ensures out { _out.new ≡ _out.old }
        ensures drained { (kind : LawKind) (calls : List Call) (put : List Item) → Recoded kind self.old calls put
            → Recoded kind self.new (calls ++ Act Drain ∷ []) put }
        ensures puts { OnOk result (Puts self.old self.new (Act Drain) _out.old _out.new) }
    {
        Ok(())
    }

    /// The same element once more.
    pub fn copy(&self, _alloc: Global) -> Result<Law, OutOfMemory>
        ensures { IfOk result (λ made. made ≡ self.now) }
    {
        Ok(Law {
            kind: self.kind,
            frame: self.frame,
            got: self.got,
            ended: self.ended,
        })
    }

    /// Puts an item out recoded.
    fn take(&mut self, alloc: Global, item: Item, out: &mut Outs) -> Result<Flow, ElementFault>
        ensures flow { IfOk result (λ flow. flow ≡ Taken) }
        ensures owed { OnOk result (law_answer self.old.kind self.old.frame self.old.got item ≡ Ok (recoded_item self.old.kind item ∷ [])) }
        ensures out { OnOk result (out.new ≡ out.old ++ on_pad 0 (recoded_item self.old.kind item ∷ [])) }
        ensures kind { OnOk result (self.new.kind ≡ self.old.kind) }
        ensures frame { OnOk result (self.new.frame ≡ frame_behind self.old.kind self.old.frame item) }
        ensures got { OnOk result (is_flush_stop item ≡ false → self.new.got ≡ got_behind self.old.got item) }
        ensures eos { OnOk result (self.old.ended ≡ false → self.new.ended ≡ is_eos item) }
        ensures stays { OnErr result ((self.new ≡ self.old) × (out.new ≡ out.old)) }
        ensures fault { IfErr result (λ fault. IsFaultOf (law_answer self.old.kind self.old.frame self.old.got item) fault) }
    {
        match item {
            Item::Buffer(buffer) => self.take_buffer(alloc, buffer, out),
            Item::Event(Event::Caps(caps)) => self.take_caps(alloc, caps, out),
            Item::Event(event) => self.take_event(alloc, event, out),
        }
    }

    /// Puts a buffer out recoded, where it is a whole number of frames.
    fn take_buffer(
        &mut self,
        alloc: Global,
        buffer: Buffer,
        out: &mut Outs,
    ) -> Result<Flow, ElementFault>
        ensures flow { IfOk result (λ flow. flow ≡ Taken) }
        ensures owed { OnOk result (law_answer self.old.kind self.old.frame self.old.got (Buf buffer) ≡ Ok (Buf (buffer_of self.old.kind buffer) ∷ [])) }
        ensures out { OnOk result (out.new ≡ out.old ++ on_pad 0 (Buf (buffer_of self.old.kind buffer) ∷ [])) }
        ensures same { OnOk result ((self.new.kind ≡ self.old.kind) × (self.new.frame ≡ self.old.frame) × (self.new.ended ≡ self.old.ended)) }
        ensures got { OnOk result (self.new.got ≡ self.old.got + length buffer.body) }
        ensures stays { OnErr result ((self.new ≡ self.old) × (out.new ≡ out.old)) }
        ensures fault { IfErr result (λ fault. IsFaultOf (law_answer self.old.kind self.old.frame self.old.got (Buf buffer)) fault) }
    {
        let Some(frame) = self.frame else {
            return self.refuse_buffer(alloc);
        };
        let length = buffer.body.as_slice().len() as u64;
        if length % u64::from(frame) != 0 {
            return Err(ElementFault::BadStream {
                place: self.got + length,
                kind: StreamKind::SplitFrame,
            });
        }
        if self.got + length >= LIMIT {
            return Err(ElementFault::TooLong {
                a: self.got,
                b: length,
            });
        }
        put_recoded(alloc, self.kind, buffer, out)?;
        self.got += length;
        Ok(Flow::Ok)
    }

    /// The answer to a buffer before any CAPS.
    fn refuse_buffer(&self, alloc: Global) -> Result<Flow, ElementFault>
        ensures err { IsErr result }
        ensures fault { IfErr result (λ fault. IsFaultOf (Err (NotNegotiated None (template_of (format_in_of self.now.kind)))) fault) }
    {
        Err(ElementFault::NotNegotiated {
            offered: None,
            wanted: sample_template(alloc, self.kind.format_in())?,
        })
    }

    /// Puts CAPS out as those of the other format, where the template accepts them.
    fn take_caps(
        &mut self,
        alloc: Global,
        caps: Fixed,
        out: &mut Outs,
    ) -> Result<Flow, ElementFault>
        ensures flow { IfOk result (λ flow. flow ≡ Taken) }
        ensures owed { OnOk result (law_answer self.old.kind self.old.frame self.old.got (Ev (NewCaps caps))
            ≡ Ok (Ev (NewCaps (recoded_caps self.old.kind caps)) ∷ [])) }
        ensures out { OnOk result (out.new ≡ out.old ++ on_pad 0 (Ev (NewCaps (recoded_caps self.old.kind caps)) ∷ [])) }
        ensures same { OnOk result ((self.new.kind ≡ self.old.kind) × (self.new.got ≡ self.old.got) × (self.new.ended ≡ self.old.ended)) }
        ensures frame { OnOk result (self.new.frame ≡ Some (frame_width self.old.kind caps)) }
        ensures stays { OnErr result ((self.new ≡ self.old) × (out.new ≡ out.old)) }
        ensures fault { IfErr result (λ fault. IsFaultOf (law_answer self.old.kind self.old.frame self.old.got (Ev (NewCaps caps))) fault) }
    {
        let wanted = sample_template(alloc, self.kind.format_in())?;
        if !wanted.accepts(&caps) {
            return Err(ElementFault::NotNegotiated {
                offered: Some(caps),
                wanted,
            });
        }
        let Ok(info) = Info::from_fixed(&caps) else {
            unreachable!()
        };
        let made = Info {
            format: self.kind.format_out(),
            rate: info.rate,
            channels: info.channels,
        }
        .to_fixed(alloc)?;
        put_out(alloc, Item::Event(Event::Caps(made)), out)?;
        self.frame = Some(info.width());
        Ok(Flow::Ok)
    }

    /// Puts another event out.
    fn take_event(
        &mut self,
        alloc: Global,
        event: Event,
        out: &mut Outs,
    ) -> Result<Flow, ElementFault>
        requires { is_caps (Ev event) ≡ false }
        ensures flow { IfOk result (λ flow. flow ≡ Taken) }
        ensures out { OnOk result (out.new ≡ out.old ++ on_pad 0 (Ev event ∷ [])) }
        ensures same { OnOk result (self.new ≡ record self.old { ended = is_eos (Ev event) }) }
        ensures stays { OnErr result ((self.new ≡ self.old) × (out.new ≡ out.old)) }
        ensures fault { IfErr result (λ fault. fault ≡ Wanting) }
    {
        let ends = matches!(event, Event::Eos);
        put_out(alloc, Item::Event(event), out)?;
        self.ended = ends;
        Ok(Flow::Ok)
    }
}

/// Puts a buffer out with its body recoded. Its times and its offset stay.
fn put_recoded(
    alloc: Global,
    kind: LawKind,
    mut buffer: Buffer,
    out: &mut Outs,
) -> Result<(), OutOfMemory>
    ensures ok { OnOk result (out.new ≡ out.old ++ on_pad 0 (Buf (buffer_of kind buffer) ∷ [])) }
    ensures err { OnErr result (out.new ≡ out.old) }
{
    let bytes = recoded(alloc, kind, buffer.body.as_slice())?;
    buffer.body = Body::from_vec(alloc, bytes)?;
    buffer.discont = false;
    put_out(alloc, Item::Buffer(buffer), out)
}
