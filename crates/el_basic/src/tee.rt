//! The element that puts each item out on all its source pads, as GStreamer's tee.
ghost use Rattle.std.specs.Prelude.{◌≡◌, ◌≤◌, ◌<◌, ◌+◌, ◌++◌, ◌∷◌, [], ℕ, false, List, length, map, replicate, IfOk, OnOk, OnErr, IfErr, IsOk};
ghost use Rattle.flow_model.specs.declared.fault.ElementFault.TheVariants.{OutOfMemory as Wanting};
ghost use Rattle.flow_model.specs.Item.{Item, Ev, FlushStop, is_flush_stop};
ghost use Rattle.flow_model.specs.Sticky.{in_force, stickies};
ghost use Rattle.flow_model.specs.Section.{counted, section};
ghost use Rattle.flow_model.specs.Call.{Call, Feed, Act, Drain, items};
ghost use Rattle.flow_model.specs.Rule.{owed_for, only, passes, single};
ghost use Rattle.flow_model.specs.Feeding.{flow_behind, passed, on_pad};
ghost use Rattle.el_basic.specs.Spread.{Spread, has_ended, is_gap, pad_count, pad_list, on_pads};

use crate::events::{is_gap, put_events};
use flow_model::ElementFault;
use gst_item::{Event, Flow, Item, Out, Outs, Sticky};
use gst_value::OutOfMemory;
use std::alloc::Global;
use std::collections::VecDeque;

/// Puts each item out on every source pad, by number; the bodies of buffers are shared. It has one sink pad of
/// number 0, and source pads numbered from 0 on, at most 64 of them.
#[derive(Drop)]
pub struct Tee {
    pads: u32,
    sticky: Sticky,
    ended: bool,
}

impl Tee {
    /// An element with so many source pads that was fed nothing yet.
    pub fn new(pads: u32) -> Tee
        requires few { pads ≤ 64 }
        ensures spread { Spread result (replicate pads 0) [] (replicate pads []) }
        ensures pads { pad_count result ≡ pads }
    {
        Tee {
            pads,
            sticky: Sticky::new(),
            ended: false,
        }
    }

    /// Takes an item. Behind EOS, up to the next flush, the answer is `Flow::Eos` and nothing is put out, and
    /// else it is `Flow::Ok` and the item is put out on each source pad. The only fault is want of memory.
    pub fn feed(
        &mut self,
        alloc: Global,
        _pad: u32,
        item: Item,
        out: &mut Outs,
    ) -> Result<Flow, ElementFault>
        requires pad { _pad ≡ 0 }
        requires no_flush { is_flush_stop item ≡ false }
        ensures out { IfOk result (λ flow. out.new ≡ out.old ++ on_pads (pad_count self.old) (passed flow item)) }
        ensures fed { IfOk result (λ flow. (places : List ℕ) (calls : List Call) (puts : List (List Item)) → Spread self.old places calls puts
            → Spread self.new places (calls ++ Feed item ∷ []) (map (λ put. put ++ passed flow item) puts)) }
        ensures flow { IfOk result (λ flow. (places : List ℕ) (calls : List Call) (puts : List (List Item)) → Spread self.old places calls puts
            → flow ≡ flow_behind calls) }
        ensures pads { pad_count self.new ≡ pad_count self.old }
        ensures stays { OnErr result ((self.new ≡ self.old) × (out.new ≡ out.old)) }
        ensures fault { IfErr result (λ fault. fault ≡ Wanting) }
    {
        if self.ended {
            return Ok(Flow::Eos);
        }
        let ends = item.is_eos();
        self.pass(alloc, item, out)?;
        self.ended = ends;
        Ok(Flow::Ok)
    }

    /// Begins a new section, behind a FLUSH_STOP of any number that crosses each source pad.
    pub fn flush(&mut self)
        ensures pads { pad_count self.new ≡ pad_count self.old }
        ensures flushed { (places : List ℕ) (calls : List Call) (puts : List (List Item)) (number : ℕ) → Spread self.old places calls puts
            → Spread self.new places (calls ++ Feed (Ev (FlushStop number)) ∷ []) (map (λ put. put ++ Ev (FlushStop number) ∷ []) puts) }
    {
        self.sticky.clear_flush();
        self.ended = false;
    }

    /// Puts out what it holds back, which is nothing.
    pub fn drain(&mut self, _alloc: Global, _out: &mut Outs) -> Result<(), ElementFault>
        ensures ok { IsOk result }
        ensures out { _out.new ≡ _out.old }
        ensures pads { pad_count self.new ≡ pad_count self.old }
        ensures drained { (places : List ℕ) (calls : List Call) (puts : List (List Item)) → Spread self.old places calls puts
            → Spread self.new places (calls ++ Act Drain ∷ []) puts }
    {
        Ok(())
    }

    /// The same element once more.
    pub fn copy(&self, alloc: Global) -> Result<Tee, OutOfMemory>
        ensures { IfOk result (λ made. made ≡ self.now) }
    {
        Ok(Tee {
            pads: self.pads,
            sticky: self.sticky.copy(alloc)?,
            ended: self.ended,
        })
    }

    /// Makes the next source pad, and puts out on it the sticky events in force of what was fed. The answer is the
    /// number of the pad. The only fault is want of memory.
    pub fn add_pad(&mut self, alloc: Global, out: &mut Outs) -> Result<u32, ElementFault>
        requires room { pad_count self.old < 64 }
        ensures number { IfOk result (λ number. number ≡ pad_count self.old) }
        ensures pads { OnOk result (pad_count self.new ≡ pad_count self.old + 1) }
        ensures out { OnOk result ((places : List ℕ) (calls : List Call) (puts : List (List Item)) → Spread self.old places calls puts
            → out.new ≡ out.old ++ on_pad (pad_count self.old) (stickies (counted (items calls)))) }
        ensures made { OnOk result ((places : List ℕ) (calls : List Call) (puts : List (List Item)) → Spread self.old places calls puts
            → Spread self.new (places ++ length (items calls) ∷ []) calls (puts ++ stickies (counted (items calls)) ∷ [])) }
        ensures stays { OnErr result ((self.new ≡ self.old) × (out.new ≡ out.old)) }
        ensures fault { IfErr result (λ fault. fault ≡ Wanting) }
    {
        let pad = self.pads;
        put_events(alloc, pad, &self.sticky, out)?;
        self.pads = pad + 1;
        Ok(pad)
    }

    /// How many source pads it has.
    pub fn pad_count(&self) -> u32
        ensures { result ≡ pad_count self.now }
    {
        self.pads
    }

    /// Whether EOS was fed since the last flush.
    pub fn is_over(&self) -> bool
        ensures { result ≡ has_ended self.now }
    {
        self.ended
    }

    /// Puts an item out on each source pad.
    fn pass(&mut self, alloc: Global, item: Item, out: &mut Outs) -> Result<(), OutOfMemory>
        requires { is_flush_stop item ≡ false }
        ensures out { OnOk result (out.new ≡ out.old ++ on_pads self.old.pads (item ∷ [])) }
        ensures sticky { OnOk result ((h : List Item) → self.old.sticky ≡ in_force h → self.new.sticky ≡ in_force (h ++ item ∷ [])) }
        ensures pads { self.new.pads ≡ self.old.pads }
        ensures ended { self.new.ended ≡ self.old.ended }
        ensures stays { OnErr result ((self.new ≡ self.old) × (out.new ≡ out.old)) }
    {
        match item {
            Item::Buffer(buffer) => put_on_each(alloc, self.pads, Item::Buffer(buffer), out),
            Item::Event(event) => self.pass_event(alloc, event, out),
        }
    }

    /// Puts an event out on each source pad. It is in force then, if it is sticky.
    fn pass_event(&mut self, alloc: Global, event: Event, out: &mut Outs) -> Result<(), OutOfMemory>
        requires { is_flush_stop (Ev event) ≡ false }
        ensures out { OnOk result (out.new ≡ out.old ++ on_pads self.old.pads (Ev event ∷ [])) }
        ensures sticky { OnOk result ((h : List Item) → self.old.sticky ≡ in_force h → self.new.sticky ≡ in_force (h ++ Ev event ∷ [])) }
        ensures pads { self.new.pads ≡ self.old.pads }
        ensures ended { self.new.ended ≡ self.old.ended }
        ensures stays { OnErr result ((self.new ≡ self.old) × (out.new ≡ out.old)) }
    {
        if is_gap(&event) {
            return put_on_each(alloc, self.pads, Item::Event(event), out);
        }
        let copy = event.copy(alloc)?;
        put_on_each(alloc, self.pads, Item::Event(event), out)?;
        self.sticky.set(copy);
        Ok(())
    }
}

/// Puts an item out on each of the first `pads` source pads: copies, and the item itself on the last one. Where there
/// is no memory nothing is put out.
fn put_on_each(alloc: Global, pads: u32, item: Item, out: &mut Outs) -> Result<(), OutOfMemory>
    ensures ok { OnOk result (out.new ≡ out.old ++ on_pads pads (item ∷ [])) }
    ensures err { OnErr result (out.new ≡ out.old) }
{
    if pads == 0 {
        return Ok(());
    }
    let last = pads - 1;
    let mut queue = copies(alloc, last, &item)?;
    queue.push_back(Out { pad: last, item })?;
    out.pour(alloc, &mut queue)
}

/// A copy of an item for each of the first `pads` source pads.
fn copies(alloc: Global, pads: u32, item: &Item) -> Result<VecDeque<Out>, OutOfMemory>
    ensures { IfOk result (λ made. made.items ≡ on_pads pads (item.now ∷ [])) }
{
    let mut queue = VecDeque::new(alloc);
    for pad in 0..pads {
        queue.push_back(Out {
            pad,
            item: item.copy(alloc)?,
        })?;
    }
    Ok(queue)
}

/// What is owed to a source pad of the start is what an element that passes all owes, section by section.
#[tactic(auto, using(crate::proofs::Spreading::first_list, crate::proofs::Spreading::first_section))]
pub fn first_pads_pass_all()
    ensures list { (calls : List Call) → pad_list 0 (items calls) ≡ owed_for passes calls }
    ensures rule { (inputs : List (List Call)) (port j : ℕ) → section j (pad_list 0 (items (only inputs))) ≡ single passes inputs port j }
{}
