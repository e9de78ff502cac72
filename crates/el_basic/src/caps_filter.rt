//! The element that lets streams of some caps pass, as GStreamer's capsfilter.
ghost use Rattle.std.specs.Prelude.{◌≡◌, ◌++◌, ◌∷◌, [], ℕ, List, Some, Ok, false, IfOk, OnOk, OnErr, IfErr, IsOk};
ghost use Rattle.flow_model.specs.Item.{Item, Buf, Ev, NewCaps, FlushStop, is_caps, is_eos, is_flush_stop};
ghost use Rattle.flow_model.specs.Call.{Call, Feed, Act, Drain, Set, Filter};
ghost use Rattle.flow_model.specs.Feeding.{flow_behind, passed, on_pad, next_owed, IsFaultOf};
ghost use Rattle.el_basic.specs.Filters.{filters, filter_answer, takes_buffer};
ghost use Rattle.flow_model.specs.CapsInForce.{caps_behind};
ghost use Rattle.flow_model.specs.declared.fault.ElementFault.TheVariants.{OutOfMemory as Wanting};
ghost use Rattle.el_basic.specs.Filtered.{IsFilteredBy};

use flow_model::{ElementFault, put_out};
use gst_caps::Caps;
use gst_item::{Buffer, Event, Flow, Item, Outs};
use gst_value::{Fixed, OutOfMemory};
use std::alloc::Global;

/// Puts each item out as it is, where the caps of the stream are among those of the filter. It has one sink pad
/// and one source pad, both of number 0.
#[derive(Drop)]
pub struct CapsFilter {
    filter: Caps,
    current: Option<Fixed>,
    ended: bool,
}

impl CapsFilter {
    /// An element that was fed nothing yet, with the filter that it has at first.
    pub fn new(caps: Caps) -> CapsFilter
        ensures { IsFilteredBy caps result [] [] }
    {
        CapsFilter {
            filter: caps,
            current: None,
            ended: false,
        }
    }

    /// Takes an item. Behind EOS, up to the next flush, the answer is `Flow::Eos` and nothing is put out, and
    /// else it is `Flow::Ok` and the item is put out. CAPS that the filter does not accept, and a buffer whose
    /// caps it does not accept, are `NotNegotiated`; only the filter of all caps accepts a buffer without caps.
    pub fn feed(
        &mut self,
        alloc: Global,
        _pad: u32,
        item: Item,
        out: &mut Outs,
    ) -> Result<Flow, ElementFault>
        requires pad { _pad ≡ 0 }
        requires no_flush { is_flush_stop item ≡ false }
        ensures out { IfOk result (λ flow. out.new ≡ out.old ++ on_pad 0 (passed flow item)) }
        ensures fed { IfOk result (λ flow. (first : Caps) (calls : List Call) (put : List Item) → IsFilteredBy first self.old calls put
            → IsFilteredBy first self.new (calls ++ Feed item ∷ []) (put ++ passed flow item)) }
        ensures flow { IfOk result (λ flow. (first : Caps) (calls : List Call) (put : List Item) → IsFilteredBy first self.old calls put
            → flow ≡ flow_behind calls) }
        ensures stays { OnErr result ((self.new ≡ self.old) × (out.new ≡ out.old)) }
        ensures fault { IfErr result
            (λ fault. (first : Caps) (calls : List Call) (put : List Item) → IsFilteredBy first self.old calls put
            → IsFaultOf (next_owed (filters first) calls item) fault) }
    {
        if self.ended {
            return Ok(Flow::Eos);
        }
        self.pass(alloc, item, out)?;
        Ok(Flow::Ok)
    }

    /// Begins a new section, behind a FLUSH_STOP of any number that crosses its source pad. The filter and the
    /// caps of the stream stay.
    pub fn flush(&mut self)
        ensures { (first : Caps) (calls : List Call) (put : List Item) (number : ℕ) → IsFilteredBy first self.old calls put
            → IsFilteredBy first self.new (calls ++ Feed (Ev (FlushStop number)) ∷ []) (put ++ Ev (FlushStop number) ∷ []) }
    {
        self.ended = false;
    }

    /// Puts out what it holds back, which is nothing.
    pub fn drain(&mut self, _alloc: Global, _out: &mut Outs) -> Result<(), ElementFault>
        ensures ok { IsOk result }
        ensures out { _out.new ≡ _out.old }
        ensures drained { (first : Caps) (calls : List Call) (put : List Item) → IsFilteredBy first self.old calls put
            → IsFilteredBy first self.new (calls ++ Act Drain ∷ []) put }
    {
        Ok(())
    }

    /// Another filter, which counts from the next item on.
    pub fn set_caps(&mut self, caps: Caps)
        ensures { (first : Caps) (calls : List Call) (put : List Item) → IsFilteredBy first self.old calls put
            → IsFilteredBy first self.new (calls ++ Act (Set (Filter caps)) ∷ []) put }
    {
        self.filter = caps;
    }

    /// The same element once more.
    pub fn copy(&self, alloc: Global) -> Result<CapsFilter, OutOfMemory>
        ensures { IfOk result (λ made. made ≡ self.now) }
    {
        Ok(CapsFilter {
            filter: self.filter.copy(alloc)?,
            current: copy_offered(alloc, &self.current)?,
            ended: self.ended,
        })
    }

    /// Puts an item out, where the filter lets it pass.
    fn pass(&mut self, alloc: Global, item: Item, out: &mut Outs) -> Result<(), ElementFault>
        ensures passes { OnOk result (filter_answer self.old.filter self.old.current item ≡ Ok (item ∷ [])) }
        ensures out { OnOk result (out.new ≡ out.old ++ on_pad 0 (item ∷ [])) }
        ensures filter { OnOk result (self.new.filter ≡ self.old.filter) }
        ensures current { OnOk result (self.new.current ≡ caps_behind self.old.current item) }
        ensures eos { OnOk result (self.old.ended ≡ false → self.new.ended ≡ is_eos item) }
        ensures stays { OnErr result ((self.new ≡ self.old) × (out.new ≡ out.old)) }
        ensures fault { IfErr result (λ fault. IsFaultOf (filter_answer self.old.filter self.old.current item) fault) }
    {
        match item {
            Item::Buffer(buffer) => self.pass_buffer(alloc, buffer, out),
            Item::Event(Event::Caps(caps)) => self.pass_caps(alloc, caps, out),
            Item::Event(event) => self.pass_event(alloc, event, out),
        }
    }

    /// Puts a buffer out, where the filter accepts the caps of the stream.
    fn pass_buffer(
        &mut self,
        alloc: Global,
        buffer: Buffer,
        out: &mut Outs,
    ) -> Result<(), ElementFault>
        ensures passes { OnOk result (filter_answer self.old.filter self.old.current (Buf buffer) ≡ Ok (Buf buffer ∷ [])) }
        ensures out { OnOk result (out.new ≡ out.old ++ on_pad 0 (Buf buffer ∷ [])) }
        ensures same { self.new ≡ self.old }
        ensures stays { OnErr result (out.new ≡ out.old) }
        ensures fault { IfErr result (λ fault. IsFaultOf (filter_answer self.old.filter self.old.current (Buf buffer)) fault) }
    {
        if !self.takes_buffer() {
            return Err(ElementFault::NotNegotiated {
                offered: copy_offered(alloc, &self.current)?,
                wanted: self.filter.copy(alloc)?,
            });
        }
        Ok(put_out(alloc, Item::Buffer(buffer), out)?)
    }

    /// Puts CAPS out, where the filter accepts them. They are then the caps of the stream.
    fn pass_caps(&mut self, alloc: Global, caps: Fixed, out: &mut Outs) -> Result<(), ElementFault>
        ensures passes { OnOk result (filter_answer self.old.filter self.old.current (Ev (NewCaps caps)) ≡ Ok (Ev (NewCaps caps) ∷ [])) }
        ensures out { OnOk result (out.new ≡ out.old ++ on_pad 0 (Ev (NewCaps caps) ∷ [])) }
        ensures same { OnOk result (self.new ≡ record self.old { current = Some caps }) }
        ensures stays { OnErr result ((self.new ≡ self.old) × (out.new ≡ out.old)) }
        ensures fault { IfErr result (λ fault. IsFaultOf (filter_answer self.old.filter self.old.current (Ev (NewCaps caps))) fault) }
    {
        if !self.filter.accepts(&caps) {
            return Err(ElementFault::NotNegotiated {
                offered: Some(caps),
                wanted: self.filter.copy(alloc)?,
            });
        }
        let copy = caps.copy(alloc)?;
        put_out(alloc, Item::Event(Event::Caps(caps)), out)?;
        self.current = Some(copy);
        Ok(())
    }

    /// Puts another event out.
    fn pass_event(
        &mut self,
        alloc: Global,
        event: Event,
        out: &mut Outs,
    ) -> Result<(), ElementFault>
        requires { is_caps (Ev event) ≡ false }
        ensures out { OnOk result (out.new ≡ out.old ++ on_pad 0 (Ev event ∷ [])) }
        ensures same { OnOk result (self.new ≡ record self.old { ended = is_eos (Ev event) }) }
        ensures stays { OnErr result ((self.new ≡ self.old) × (out.new ≡ out.old)) }
        ensures fault { IfErr result (λ fault. fault ≡ Wanting) }
    {
        let ends = matches!(event, Event::Eos);
        put_out(alloc, Item::Event(event), out)?;
        self.ended = ends;
        Ok(())
    }

    /// Whether the filter accepts a buffer of the caps of the stream.
    fn takes_buffer(&self) -> bool
        ensures { result ≡ takes_buffer self.now.filter self.now.current }
    {
        match (&self.current, &self.filter) {
            (Some(caps), _) => self.filter.accepts(caps),
            (None, Caps::Any) => true,
            (None, Caps::Of(_)) => false,
        }
    }
}

/// The caps that a stream has, once more.
fn copy_offered(alloc: Global, caps: &Option<Fixed>) -> Result<Option<Fixed>, OutOfMemory>
    ensures { IfOk result (λ made. made ≡ caps.now) }
{
    match caps {
        None => Ok(None),
        Some(caps) => Ok(Some(caps.copy(alloc)?)),
    }
}
