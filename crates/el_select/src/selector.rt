//! The element that passes on the items of one of its sink pads, as GStreamer's input-selector.
ghost use Rattle.std.specs.Prelude.{◌<◌, ◌^◌, vec_len};

use crate::fault::SelectFault;
use crate::pad::Pad;
use crate::pads::{clear_all, new_pads};
use flow_model::{ElementFault, put_out};
use gst_item::{Event, Flow, Item, Outs};
use gst_value::OutOfMemory;
use std::alloc::Global;

/// Passes on the items of the sink pad that is active, and drops those of the others; their sticky events are remembered. It
/// has one source pad, of number 0, and sink pads numbered from 0 on, of which the first is active at first.
#[derive(Drop)]
pub struct Selector {
    pads: Vec<Pad>,
    active: usize,
    ghost few: { vec_len pads < 2 ^ 32 },
}

impl Selector {
    ghost use Rattle.std.specs.Prelude.{◌≡◌, ◌∷◌, [], ℕ, List, true, false, replicate, IfOk, IfErr, OnOk, OnErr, IsOk};
    ghost use Rattle.flow_model.specs.Item.{Item, Ev, FlushStop, is_flush_stop};
    ghost use Rattle.flow_model.specs.Call.{Call, Feed};
    ghost use Rattle.flow_model.specs.Feeding.{flow_behind, has_eos};
    ghost use Rattle.flow_model.specs.Inherited.{is_inherited};
    ghost use Rattle.flow_model.specs.SinkPads.{push_calls, push_each, calls_at};
    ghost use Rattle.flow_model.specs.declared.fault.ElementFault.TheVariants.{OutOfMemory as Wanting};
    ghost use Rattle.el_select.specs.Selections.{Selection};
    ghost use Rattle.el_select.specs.Selects.{IsRefused, Remembers, SelectPuts, Selects, SelectsPad, has_ended, is_over, sink_pads};

    /// An element of so many sink pads, at most 64, that was fed nothing yet.
    pub fn new(alloc: Global, pads: u32) -> Result<Selector, OutOfMemory>
        ensures pads { IfOk result (λ made. sink_pads made ≡ pads) }
        ensures selects { IfOk result (λ made. Selects made [] (replicate pads []) []) }
    {
        Ok(Selector {
            pads: new_pads(alloc, pads)?,
            active: 0,
        })
    }

    /// Takes an item on a sink pad. Behind the EOS of that pad, up to the next flush, the answer is `Flow::Eos` and nothing is
    /// put out, and else it is `Flow::Ok`. An item of the active pad is put out, and one of another pad is given up; if it is
    /// sticky it is remembered. The only fault is want of memory.
    pub fn feed(
        &mut self,
        alloc: Global,
        pad: u32,
        item: Item,
        out: &mut Outs,
    ) -> Result<Flow, ElementFault>
        requires pad { pad < sink_pads self.old }
        requires no_flush { is_flush_stop item ≡ false }
        ensures puts { OnOk result (SelectPuts self.old self.new pad item out.old out.new) }
        ensures flow { IfOk result (λ flow. (selections : List Selection) (took : List (List Call)) (put : List Item)
            → Selects self.old selections took put → flow ≡ flow_behind (calls_at pad took)) }
        ensures stays { OnErr result ((self.new ≡ self.old) × (out.new ≡ out.old)) }
        ensures fault { IfErr result (λ fault. fault ≡ Wanting) }
        ensures pads { sink_pads self.new ≡ sink_pads self.old }
    {
        let place = pad as usize;
        if self.pads[place].ended {
            return Ok(Flow::Eos);
        }
        if place != self.active {
            self.pads[place].take(item);
            return Ok(Flow::Ok);
        }
        self.pass(alloc, item, out)?;
        Ok(Flow::Ok)
    }

    /// Makes a sink pad the active one, and puts out copies of its sticky events in force, EOS among them. Where EOS was passed
    /// on since the last flush the answer is `AfterEos`, and the active pad stays.
    pub fn select(&mut self, alloc: Global, pad: u32, out: &mut Outs) -> Result<(), SelectFault>
        requires pad { pad < sink_pads self.old }
        ensures selects { OnOk result ((is_over self.old ≡ false) × SelectsPad self.old self.new pad out.old out.new) }
        ensures fault { IfErr result (λ fault. IsRefused (is_over self.old) fault) }
        ensures stays { OnErr result ((self.new ≡ self.old) × (out.new ≡ out.old)) }
        ensures pads { sink_pads self.new ≡ sink_pads self.old }
    {
        if self.is_over() {
            return Err(SelectFault::AfterEos);
        }
        let place = pad as usize;
        self.pads[place].put_events(alloc, out)?;
        self.active = place;
        Ok(())
    }

    /// Takes an event that only the next section has of it: STREAM_START, CAPS or TAG. It counts as the last item that the pad
    /// was given before the next flush.
    pub fn lay(&mut self, pad: u32, event: Event)
        requires pad { pad < sink_pads self.old }
        requires inherited { is_inherited event ≡ true }
        ensures laid { (selections : List Selection) (took : List (List Call)) → Remembers self.old selections took
            → Remembers self.new selections (push_calls pad (Feed (Ev event) ∷ []) took) }
        ensures pads { sink_pads self.new ≡ sink_pads self.old }
    {
        self.pads[pad as usize].lay(event);
    }

    /// Begins a new section, behind a FLUSH_STOP of any number that crosses its source pad. The active pad stays.
    pub fn flush(&mut self)
        ensures flushed { (selections : List Selection) (took : List (List Call)) (number : ℕ) → Remembers self.old selections took
            → Selects self.new selections (push_each (Feed (Ev (FlushStop number)) ∷ []) took) [] }
        ensures pads { sink_pads self.new ≡ sink_pads self.old }
    {
        clear_all(&mut self.pads);
    }

    /// Puts out what it holds back, which is nothing.
    pub fn drain(&mut self, _alloc: Global, _out: &mut Outs) -> Result<(), ElementFault>
        ensures ok { IsOk result }
        ensures same { self.new ≡ self.old }
        ensures out { _out.new ≡ _out.old }
    {
        Ok(())
    }

    /// How many sink pads it has.
    pub fn pad_count(&self) -> u32
        ensures { result ≡ sink_pads self.now }
    {
        self.pads.len() as u32
    }

    /// Whether a sink pad had EOS since the last flush.
    pub fn has_ended(&self, pad: u32) -> bool
        requires pad { pad < sink_pads self.now }
        ensures ended { result ≡ has_ended pad self.now }
        ensures told { (selections : List Selection) (took : List (List Call)) → Remembers self.now selections took → result ≡ has_eos (calls_at pad took) }
    {
        self.pads[pad as usize].ended
    }

    /// Whether EOS was passed on since the last flush.
    pub fn is_over(&self) -> bool
        ensures { result ≡ is_over self.now }
    {
        match self.pads.get(self.active) {
            Some(pad) => pad.ended,
            None => false,
        }
    }

    /// Puts an item of the active pad out. If it is sticky it is remembered.
    fn pass(&mut self, alloc: Global, item: Item, out: &mut Outs) -> Result<(), OutOfMemory>
        requires active { self.old.active < sink_pads self.old }
        requires open { is_over self.old ≡ false }
        requires no_flush { is_flush_stop item ≡ false }
        ensures puts { OnOk result (SelectPuts self.old self.new self.old.active item out.old out.new) }
        ensures stays { OnErr result ((self.new ≡ self.old) × (out.new ≡ out.old)) }
        ensures pads { sink_pads self.new ≡ sink_pads self.old }
    {
        match item {
            Item::Buffer(buffer) => put_out(alloc, Item::Buffer(buffer), out),
            Item::Event(event) => self.pass_event(alloc, event, out),
        }
    }

    /// Puts an event of the active pad out. If it is sticky a copy is remembered.
    fn pass_event(&mut self, alloc: Global, event: Event, out: &mut Outs) -> Result<(), OutOfMemory>
        requires active { self.old.active < sink_pads self.old }
        requires open { is_over self.old ≡ false }
        requires no_flush { is_flush_stop (Ev event) ≡ false }
        ensures puts { OnOk result (SelectPuts self.old self.new self.old.active (Ev event) out.old out.new) }
        ensures stays { OnErr result ((self.new ≡ self.old) × (out.new ≡ out.old)) }
        ensures pads { sink_pads self.new ≡ sink_pads self.old }
    {
        let copy = event.copy(alloc)?;
        put_out(alloc, Item::Event(event), out)?;
        self.pads[self.active].take(Item::Event(copy));
        Ok(())
    }
}
