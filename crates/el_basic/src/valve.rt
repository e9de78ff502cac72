//! The element that drops what it is fed while it is closed, as GStreamer's valve.
ghost use Rattle.std.specs.Prelude.{◌≡◌, ◌++◌, ◌∷◌, [], ℕ, Bool, List, false, filter, IfOk, IfErr, OnOk, OnErr};
ghost use Rattle.flow_model.specs.declared.fault.ElementFault.TheVariants.{OutOfMemory as Wanting};
ghost use Rattle.flow_model.specs.Item.{Item, Ev, FlushStop, is_eos, is_flush_stop};
ghost use Rattle.flow_model.specs.Sticky.{in_force, stickies};
ghost use Rattle.flow_model.specs.Call.{Call, Feed, Act, Drain, Set, Drops};
ghost use Rattle.flow_model.specs.Rule.{not_eos, only, owed_for, passes, single};
ghost use Rattle.flow_model.specs.Feeding.{flow_behind, on_pad};
ghost use Rattle.el_basic.specs.Valves.{GoOut, again, goes_out, let_through, sends_again, sent_again, sets_drop, valves};
ghost use Rattle.std.specs.List.{list_any};
ghost use Rattle.gst_item.specs.Item.{has_item};
ghost use Rattle.el_basic.specs.Valved.{Puts, Valved};

use crate::events::{events_on, is_gap, put_events};
use flow_model::{ElementFault, on_pad, put_out};
use gst_item::{Event, Flow, Item, Outs, Sticky};
use gst_value::OutOfMemory;
use std::alloc::Global;

/// Drops all but EOS where it is set to drop, and else puts each item out as it is. It has one sink pad and one source pad,
/// both of number 0.
#[derive(Drop)]
pub struct Valve {
    drops: bool,
    /// Whether it dropped at any time from the last item on.
    lately: bool,
    /// The sticky events in force of what it was fed, without EOS.
    sticky: Sticky,
    ended: bool,
}

impl Valve {
    /// An element that was fed nothing yet, and that drops at first or not.
    pub fn new(drop: bool) -> Valve
        ensures { Valved drop result [] [] }
    {
        Valve {
            drops: drop,
            lately: drop,
            sticky: Sticky::new(),
            ended: false,
        }
    }

    /// Takes an item. Behind EOS, up to the next flush, the answer is `Flow::Eos` and nothing is put out, and else it is
    /// `Flow::Ok`. An item is put out where the valve does not drop, or is EOS. Before the first item behind an opening the
    /// sticky events of all that was fed go out. The only fault is want of memory.
    #[inline(always)]
    pub fn feed(
        &mut self,
        alloc: Global,
        _pad: u32,
        item: Item,
        out: &mut Outs,
    ) -> Result<Flow, ElementFault>
        requires pad { _pad ≡ 0 }
        requires no_flush { is_flush_stop item ≡ false }
        ensures puts { IfOk result (λ flow. Puts self.old self.new (Feed item) out.old out.new) }
        ensures flow { IfOk result (λ flow. (first : Bool) (calls : List Call) (put : List Item) → Valved first self.old calls put
            → flow ≡ flow_behind calls) }
        ensures stays { OnErr result ((self.new ≡ self.old) × (out.new ≡ out.old)) }
        ensures fault { IfErr result (λ fault. fault ≡ Wanting) }
    {
        if self.ended {
            return Ok(Flow::Eos);
        }
        self.take(alloc, item, out)?;
        Ok(Flow::Ok)
    }

    /// Begins a new section, behind a FLUSH_STOP of any number that crosses its source pad. Sticky events that are still to go
    /// out do so in the new section.
    pub fn flush(&mut self)
        ensures { (first : Bool) (calls : List Call) (put : List Item) (number : ℕ) → Valved first self.old calls put
            → Valved first self.new (calls ++ Feed (Ev (FlushStop number)) ∷ []) (put ++ Ev (FlushStop number) ∷ []) }
    {
        self.sticky.clear_flush();
        self.ended = false;
    }

    /// Puts out what EOS would make it put out, without the EOS: the sticky events that are still to go out. The only fault is
    /// want of memory.
    pub fn drain(&mut self, alloc: Global, out: &mut Outs) -> Result<(), ElementFault>
        ensures puts { OnOk result (Puts self.old self.new (Act Drain) out.old out.new) }
        ensures stays { OnErr result ((self.new ≡ self.old) × (out.new ≡ out.old)) }
        ensures fault { IfErr result (λ fault. fault ≡ Wanting) }
    {
        if self.ended {
            return Ok(());
        }
        self.put_again(alloc, out)?;
        self.lately = self.drops;
        Ok(())
    }

    /// Whether it drops, from the next item on.
    pub fn set_drop(&mut self, drop: bool)
        ensures { (first : Bool) (calls : List Call) (put : List Item) → Valved first self.old calls put
            → Valved first self.new (calls ++ Act (Set (Drops drop)) ∷ []) put }
    {
        self.drops = drop;
        self.lately |= drop;
    }

    /// The same element once more.
    pub fn copy(&self, alloc: Global) -> Result<Valve, OutOfMemory>
        ensures { IfOk result (λ made. made ≡ self.now) }
    {
        Ok(Valve {
            drops: self.drops,
            lately: self.lately,
            sticky: self.sticky.copy(alloc)?,
            ended: self.ended,
        })
    }

    /// Takes an item in a section without EOS.
    fn take(&mut self, alloc: Global, item: Item, out: &mut Outs) -> Result<(), OutOfMemory>
        requires { is_flush_stop item ≡ false }
        ensures out { OnOk result (GoOut 0 self.old.sticky (λ h. goes_out self.old.drops self.old.lately (stickies h) item) out.old out.new) }
        ensures sticky { OnOk result ((h : List Item) → self.old.sticky ≡ in_force h
            → self.new.sticky ≡ in_force (h ++ filter not_eos (item ∷ []))) }
        ensures drops { self.new.drops ≡ self.old.drops }
        ensures lately { OnOk result (self.new.lately ≡ self.old.drops) }
        ensures ended { OnOk result (self.old.ended ≡ false → self.new.ended ≡ is_eos item) }
        ensures stays { OnErr result ((self.new ≡ self.old) × (out.new ≡ out.old)) }
    {
        match item {
            Item::Buffer(buffer) => self.pass(alloc, Item::Buffer(buffer), out),
            Item::Event(event) => self.take_event(alloc, event, out),
        }
    }

    /// Takes an event. It is in force then, if it is sticky.
    fn take_event(&mut self, alloc: Global, event: Event, out: &mut Outs) -> Result<(), OutOfMemory>
        requires { is_flush_stop (Ev event) ≡ false }
        ensures out { OnOk result (GoOut 0 self.old.sticky (λ h. goes_out self.old.drops self.old.lately (stickies h) (Ev event)) out.old out.new) }
        ensures sticky { OnOk result ((h : List Item) → self.old.sticky ≡ in_force h
            → self.new.sticky ≡ in_force (h ++ filter not_eos (Ev event ∷ []))) }
        ensures drops { self.new.drops ≡ self.old.drops }
        ensures lately { OnOk result (self.new.lately ≡ self.old.drops) }
        ensures ended { OnOk result (self.old.ended ≡ false → self.new.ended ≡ is_eos (Ev event)) }
        ensures stays { OnErr result ((self.new ≡ self.old) × (out.new ≡ out.old)) }
    {
        if is_gap(&event) {
            return self.pass(alloc, Item::Event(event), out);
        }
        if matches!(event, Event::Eos) {
            self.pass(alloc, Item::Event(event), out)?;
            self.ended = true;
            return Ok(());
        }
        let copy = event.copy(alloc)?;
        self.pass(alloc, Item::Event(event), out)?;
        self.sticky.set(copy);
        Ok(())
    }

    /// Puts an item out where it goes through, behind the sticky events that are still to go out.
    fn pass(&mut self, alloc: Global, item: Item, out: &mut Outs) -> Result<(), OutOfMemory>
        ensures out { OnOk result (GoOut 0 self.old.sticky (λ h. goes_out self.old.drops self.old.lately (stickies h) item) out.old out.new) }
        ensures same { OnOk result (self.new ≡ record self.old { lately = self.old.drops }) }
        ensures stays { OnErr result ((self.new ≡ self.old) × (out.new ≡ out.old)) }
    {
        if self.sends_again() {
            put_behind(alloc, &self.sticky, item, out)?;
        } else {
            self.let_through(alloc, item, out)?;
        }
        self.lately = self.drops;
        Ok(())
    }

    /// Puts an item out where it goes through.
    fn let_through(&self, alloc: Global, item: Item, out: &mut Outs) -> Result<(), OutOfMemory>
        ensures ok { OnOk result (out.new ≡ out.old ++ on_pad 0 (let_through self.now.drops item)) }
        ensures err { OnErr result (out.new ≡ out.old) }
    {
        if self.drops {
            if item.is_eos() {
                return put_out(alloc, item, out);
            }
            return Ok(());
        }
        put_out(alloc, item, out)
    }

    /// Puts out the sticky events that are still to go out.
    fn put_again(&self, alloc: Global, out: &mut Outs) -> Result<(), OutOfMemory>
        ensures ok { OnOk result (GoOut 0 self.now.sticky (λ h. sent_again self.now.drops self.now.lately (stickies h)) out.old out.new) }
        ensures err { OnErr result (out.new ≡ out.old) }
    {
        if self.sends_again() {
            return put_events(alloc, 0, &self.sticky, out);
        }
        Ok(())
    }

    /// Whether sticky events are still to go out: it drops no more, and dropped lately.
    fn sends_again(&self) -> bool
        ensures { result ≡ sends_again self.now.drops self.now.lately }
    {
        !self.drops && self.lately
    }
}

/// Puts copies of the events in force out, in the order STREAM_START, CAPS, SEGMENT, TAG, EOS, and then an item.
fn put_behind(alloc: Global, sticky: &Sticky, item: Item, out: &mut Outs) -> Result<(), OutOfMemory>
    ensures ok { OnOk result (GoOut 0 sticky.now (λ h. stickies h ++ item ∷ []) out.old out.new) }
    ensures err { OnErr result (out.new ≡ out.old) }
{
    let events = sticky.list(alloc)?;
    let mut queue = events_on(alloc, 0, events.as_slice())?;
    queue.push_back(on_pad(item))?;
    out.pour(alloc, &mut queue)
}

/// What goes out again where a valve is opened is all that is in force of what it was fed, where EOS is not.
#[tactic(auto, using(crate::proofs::Again::again_all))]
pub fn valves_send_all_again()
    ensures { (h : List Item) → has_item (in_force h).eos ≡ false → again h ≡ stickies h }
{}

/// A valve that is open from the start on, and of which nothing is set, passes all.
#[tactic(auto, using(crate::proofs::Valving::open_list, crate::proofs::Valving::open_section))]
pub fn open_valves_pass_all()
    ensures list { (calls : List Call) → list_any sets_drop calls ≡ false → owed_for (valves false) calls ≡ owed_for passes calls }
    ensures rule { (inputs : List (List Call)) (port j : ℕ) → list_any sets_drop (only inputs) ≡ false
        → single (valves false) inputs port j ≡ single passes inputs port j }
{}
