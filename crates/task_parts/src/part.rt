//! Elements of a task, with their source pads.
ghost use Rattle.std.specs.Prelude.{◌≡◌, true, false, List, vec_len, IfErr, OnOk, OnErr};
ghost use Rattle.flow_model.specs.Call.{Call};
ghost use Rattle.flow_model.specs.Item.{is_flush_stop};
ghost use Rattle.flow_model.specs.Moment.{Behavior};
ghost use Rattle.flow_model.specs.Failures.{IsWriteCause};
ghost use Rattle.gst_outside.specs.Causes.{NeverFalls};
ghost use Rattle.flow_model.specs.Refuses.{RefusesBy};
ghost use Rattle.flow_model.specs.Takes.{Takes};
ghost use Rattle.task_parts.specs.Gathered.{are_within, pads_idle_below};

use crate::gather::{first_out_is_buffer, first_waiting, gather, is_linked_else};
use flow_model::{Refused, TaskElement};
use gst_item::{Item, Outs};
use gst_value::{List, OutOfMemory};
use lane_core::Outlet;
use std::alloc::Global;
use task_pads::{Behind, Crossing, Pad};

/// An element of a task, the number that it has in the graph, and its source pads.
#[derive(Drop)]
pub struct Part<E: TaskElement, O> {
    pub(crate) number: u32,
    pub(crate) element: E,
    /// What it put out and is not at its pads yet: it comes behind what waits there.
    pub(crate) out: Outs,
    pub(crate) pads: Vec<Pad<O>>,
    /// Nothing waits at the pads below this port.
    pub(crate) first: usize,
    ghost ports: { E.ports element ≡ vec_len pads },
    ghost within: { are_within (vec_len pads) out ≡ true },
    ghost idle: { pads_idle_below first pads.items ≡ true },
}

impl<E: TaskElement, O: Outlet> Part<E, O> {
    ghost use Rattle.std.specs.Prelude.{◌<◌, ◌≤◌, ◌≢◌, [], None, Some, length, slice_get};
    ghost use Rattle.task_pads.specs.Pads.{first_is_buffer, waiting_of};
    ghost use Rattle.task_parts.specs.Gathered.{AreIdleBelow};
    ghost use Rattle.task_parts.specs.Part.{PartSettled, IsSettled, PartFed, PartFell, PartCrossed, PartGave, PartLed, PartProbed, PartTookBack, PartReady, CanTakeBackAt, waits_at};
    ghost use Rattle.task_parts.specs.Ends.{sent_from};
    ghost use Rattle.task_parts.specs.Idle.{part_idle};
    ghost use Rattle.task_parts.specs.Shape.{part_shape};

    /// An element of this number that took nothing, with its source pads, which nothing crossed.
    pub fn new(alloc: Global, number: u32, element: E, pads: Vec<Pad<O>>) -> Part<E, O>
        requires ports { E.ports element ≡ vec_len pads }
        ensures number { result.number ≡ number }
        ensures element { result.element ≡ element }
        ensures pads { result.pads ≡ pads }
        ensures out { result.out ≡ [] }
    {
        Part {
            number,
            element,
            out: List::new(alloc),
            pads,
            first: 0,
        }
    }

    /// Its number in the graph.
    pub fn number(&self) -> u32
        ensures { result ≡ self.now.number }
    {
        self.number
    }

    /// The element itself.
    pub fn element(&self) -> &E
        ensures { result.now ≡ self.now.element }
    {
        &self.element
    }

    /// Its source pads, by number.
    pub fn pads(&self) -> &[Pad<O>]
        ensures { result.now ≡ self.now.pads.items }
    {
        self.pads.as_slice()
    }

    /// How many items went into the lane of this number from its pads. None where none of them leads there.
    pub fn sent(&self, lane: u32) -> Option<u64>
        ensures { result ≡ sent_from O.Outlet lane self.now.pads.items }
    {
        for port in 0..self.pads.len() {
            if let Some(count) = self.pads[port].sent(lane) {
                return Some(count);
            }
        }
        None
    }

    /// The port of its first pad at which an item waits; the number of its pads where none waits at any.
    #[inline(always)]
    pub fn first_waiting(&self) -> usize
        ensures within { result ≤ length self.now.pads.items }
        ensures idle { AreIdleBelow result self.now.pads.items }
        ensures waits { (pad : _) → slice_get self.now.pads.items result ≡ Some pad → waiting_of pad ≢ [] }
    {
        first_waiting(self.pads.as_slice(), self.first)
    }

    /// Whether what waits first at the pad of a port, or is to wait there, is a buffer. None where there is nothing.
    pub fn first_is_buffer(&self, port: usize) -> Option<bool>
        requires port { port < vec_len self.now.pads }
        ensures { (pad : _) → slice_get self.now.pads.items port ≡ Some pad → result ≡ first_is_buffer (waits_at self.now port pad) }
    {
        match self.pads[port].first_is_buffer() {
            Some(is_buffer) => Some(is_buffer),
            None => first_out_is_buffer(self.out.as_slice(), port),
        }
    }

    /// Whether nothing waits at its pads, and nothing that it put out is to go there.
    #[inline(always)]
    pub(crate) fn is_idle(&self) -> bool
        ensures { result ≡ true → part_idle self.now ≡ true }
    {
        if !self.out.as_slice().is_empty() {
            return false;
        }
        self.first_waiting() >= self.pads.len()
    }

    /// The element. What waited at its pads is given up.
    pub fn into_element(self) -> E
        ensures { result ≡ self.element }
    {
        let Part { element, .. } = self;
        element
    }

    /// What was put out goes to its pads.
    #[inline(always)]
    pub(crate) fn settle(&mut self, alloc: Global) -> Result<(), OutOfMemory>
        ensures settled { PartSettled self.old self.new }
        ensures all { OnOk result (IsSettled self.new) }
        ensures shape { part_shape self.new ≡ part_shape self.old }
    {
        let settled = gather(alloc, &mut self.pads, &mut self.out, &mut self.first);
        self.first = self.first_waiting();
        settled
    }

    /// The element takes an item, and what it puts out waits at its pads.
    #[inline(always)]
    pub fn feed(&mut self, alloc: Global, pad: u32, item: Item) -> Result<(), Refused>
        requires no_flush { is_flush_stop item ≡ false }
        ensures fed { OnOk result (PartFed self.old self.new pad item) }
        ensures fell { IfErr result (PartFell self.old self.new pad item) }
        ensures shape { part_shape self.new ≡ part_shape self.old }
    {
        match eat(alloc, &mut self.element, &mut self.out, pad, item) {
            Ok(()) => {
                self.pour(alloc);
                Ok(())
            }
            Err(refusal) => Err(refusal),
        }
    }

    /// What was put out goes to its pads, as far as there is memory.
    #[inline(always)]
    fn pour(&mut self, alloc: Global)
        ensures settled { PartSettled self.old self.new }
        ensures shape { part_shape self.new ≡ part_shape self.old }
    {
        if gather(alloc, &mut self.pads, &mut self.out, &mut self.first).is_err() {}
    }

    /// The oldest item that waits at the pad of a port crosses it, if it can.
    #[inline(always)]
    pub(crate) fn cross(&mut self, alloc: Global, lanes: &mut O::Lanes, port: usize) -> Crossing
        requires port { port < vec_len self.old.pads }
        requires ready { PartReady O.Outlet (O.tells lanes.old) self.old }
        ensures { PartCrossed O.Outlet self.old self.new port (O.tells lanes.old) (O.tells lanes.new) result }
    {
        let sibling = is_linked_else(self.pads.as_slice(), port);
        self.pads[port].cross(alloc, lanes, sibling)
    }

    /// Takes the oldest item that waits at the pad of a port.
    #[inline(always)]
    pub(crate) fn take(&mut self, port: usize) -> Option<Item>
        requires port { port < vec_len self.old.pads }
        ensures { PartGave self.old self.new port result }
    {
        self.pads[port].take()
    }

    /// Takes the last crossing of the pad of a port back.
    #[inline(always)]
    pub(crate) fn take_back(&mut self, port: usize)
        requires port { port < vec_len self.old.pads }
        requires back { CanTakeBackAt self.old port }
        ensures { PartTookBack self.old self.new port }
    {
        self.pads[port].take_back();
    }

    /// Sets the probe of a command at the pad of a port, which stops the buffer behind so many.
    pub fn block(&mut self, port: usize, command: u32, buffers: u64)
        requires port { port < vec_len self.old.pads }
        ensures { PartProbed self.old self.new port (Some (record { command = command; buffers = buffers })) }
    {
        self.pads[port].block(command, buffers);
    }

    /// Takes the probe at the pad of a port away.
    pub fn unblock(&mut self, port: usize)
        requires port { port < vec_len self.old.pads }
        ensures { PartProbed self.old self.new port None }
    {
        self.pads[port].unblock();
    }

    /// The pad of a port leads elsewhere from now on. Where it led is given back; what waits at it stays.
    pub fn lead(&mut self, port: usize, behind: Behind<O>) -> Behind<O>
        requires port { port < vec_len self.old.pads }
        ensures { PartLed self.old self.new port behind result }
    {
        self.pads[port].lead(behind)
    }
}

/// An element takes an item, and what it puts out goes behind what it put out before.
#[inline(always)]
fn eat<E: TaskElement>(
    alloc: Global,
    element: &mut E,
    out: &mut Outs,
    pad: u32,
    item: Item,
) -> Result<(), Refused>
    requires within { are_within (E.ports element.old) out.old ≡ true }
    requires no_flush { is_flush_stop item ≡ false }
    ensures took { OnOk result (Takes (E.stands element.old) (E.stands element.new) (E.ports element.old) pad item out.old out.new) }
    ensures fell { OnErr result ((behavior : Behavior) (took : List (List Call)) → E.stands element.old behavior took
        → E.fell element.new behavior took pad item) }
    ensures refused { IfErr result (λ refusal. (behavior : Behavior) (took : List (List Call)) → E.stands element.old behavior took
        → RefusesBy behavior took pad item refusal) }
    ensures out { OnErr result (out.new ≡ out.old) }
    ensures cause { IfErr result (IsWriteCause (E.failures element.old) (E.failures element.new)) }
    ensures never_falls { NeverFalls (E.failures element.old) (E.failures element.new) }
    ensures ports { E.ports element.new ≡ E.ports element.old }
    ensures file { E.file element.new ≡ E.file element.old }
    ensures within { are_within (E.ports element.new) out.new ≡ true }
{
    element.feed(alloc, pad, item, out)
}
