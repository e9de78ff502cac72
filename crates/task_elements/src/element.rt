//! The elements of a stream that have a sink pad, by their role.
ghost use Rattle.std.specs.Prelude.{◌≡◌, ◌∷◌, [], false, List, None, option_map, IfErr, OnOk, OnErr};
ghost use Rattle.flow_model.specs.Item.{is_flush_stop};
ghost use Rattle.flow_model.specs.Call.{Call, Feed};
ghost use Rattle.flow_model.specs.Moment.{Behavior};
ghost use Rattle.flow_model.specs.SinkPads.{push_calls};
ghost use Rattle.flow_model.specs.Takes.{Takes};
ghost use Rattle.flow_model.specs.Refuses.{RefusesBy};
ghost use Rattle.flow_model.specs.Failures.{IsWriteCause};
ghost use Rattle.gst_outside.specs.Causes.{NeverFalls};
ghost use Rattle.el_basic.specs.Spread.{pad_count};
ghost use Rattle.el_set.specs.Holds.{sink_file, sink_faults};
ghost use Rattle.task_elements.specs.Stands.{FilterTook, TeeTook, first_unless, passing, SinkStands, SinkFell};

use crate::filter::StreamFilter;
use crate::join::StreamJoin;
use el_basic::{Identity, Tee};
use el_set::SinkElement;
use flow_model::{Refused, TaskElement};
use gst_item::{Item, Outs};
use gst_outside::Sink;
use std::alloc::Global;

/// An element with sink pads, by its role in a stream. It is fed and asked through `TaskElement`.
#[derive(Drop)]
pub enum StreamElement<K> {
    Filter(StreamFilter),
    /// The source side of a queue, which passes all. Its items stand in its lane.
    Queue(Identity),
    Tee(Tee),
    /// It has several sink pads, and is fed on the one that it wants.
    Join(StreamJoin),
    Sink(SinkElement<K>),
}

impl<K: Sink> TaskElement for StreamElement<K> {
    ghost use Rattle.task_elements.specs.Stands.{StreamStands, StreamFell, pads_of, wanted_of, location_in, faults_in};

    ghost stands = { StreamStands K.bytes };

    ghost fell = { StreamFell K.bytes };

    ghost ports = { pads_of };

    ghost wanted = { wanted_of };

    ghost file = { location_in K.location };

    ghost failures = { faults_in K.faults };

    #[inline(always)]
    fn feed(&mut self, alloc: Global, pad: u32, item: Item, out: &mut Outs) -> Result<(), Refused> {
        if let StreamElement::Join(join) = self {
            return join.feed(alloc, pad, item, out);
        }
        if pad != 0 {
            return Ok(());
        }
        match self {
            StreamElement::Filter(filter) => filter.feed(alloc, item, out),
            StreamElement::Queue(queue) => pass(queue, alloc, item, out),
            StreamElement::Tee(tee) => spread(tee, alloc, item, out),
            StreamElement::Join(_) => unreachable!(),
            StreamElement::Sink(sink) => render(sink, &item),
        }
    }

    fn wants(&self) -> Option<u32> {
        match self {
            StreamElement::Filter(filter) => first_unless(filter.filter.has_passed_eos()),
            StreamElement::Queue(queue) => first_unless(queue.is_over()),
            StreamElement::Tee(tee) => first_unless(tee.is_over()),
            StreamElement::Join(join) => join.join.wants(),
            StreamElement::Sink(_) => Some(0),
        }
    }
}

impl<K: Sink> StreamElement<K> {
    ghost use Rattle.task_elements.specs.Stands.{sink_in, len_in};

    /// The sink, where it is one.
    pub fn into_sink(self) -> Option<SinkElement<K>>
        ensures { result ≡ sink_in self }
    {
        let StreamElement::Sink(sink) = self else {
            return None;
        };
        Some(sink)
    }

    /// The length of the file as it stands, in bytes. None where it writes no file.
    pub fn len(&self) -> Option<u64>
        ensures { result ≡ len_in self.now }
    {
        match self {
            StreamElement::Sink(sink) => sink.len(),
            _ => None,
        }
    }
}

/// The only sink pad, unless all came to it.
#[inline(always)]
fn first_unless(over: bool) -> Option<u32>
    ensures { result ≡ first_unless over }
{
    if over { None } else { Some(0) }
}

/// A queue takes an item and puts it out. Where it refuses it, for want of memory, it is as before.
#[inline(always)]
fn pass(queue: &mut Identity, alloc: Global, item: Item, out: &mut Outs) -> Result<(), Refused>
    requires no_flush { is_flush_stop item ≡ false }
    ensures took { OnOk result (Takes (FilterTook (passing queue.old)) (FilterTook (passing queue.new)) 1 0 item out.old out.new) }
    ensures stays { OnErr result ((behavior : Behavior) (took : List (List Call)) → FilterTook (passing queue.old) behavior took
        → FilterTook (passing queue.new) behavior took) }
    ensures refused { IfErr result (λ refusal. (behavior : Behavior) (took : List (List Call)) → FilterTook (passing queue.old) behavior took
        → RefusesBy behavior took 0 item refusal) }
    ensures cause { IfErr result (IsWriteCause None None) }
    ensures out { OnErr result (out.new ≡ out.old) }
{
    match queue.feed(alloc, 0, item, out) {
        Ok(_) => Ok(()),
        Err(fault) => Err(Refused::fault(alloc, fault)),
    }
}

/// A tee takes an item and puts it out on each of its source pads. Where it refuses it, for want of memory, it is as before.
fn spread(tee: &mut Tee, alloc: Global, item: Item, out: &mut Outs) -> Result<(), Refused>
    requires no_flush { is_flush_stop item ≡ false }
    ensures took { OnOk result (Takes (TeeTook tee.old) (TeeTook tee.new) (pad_count tee.old) 0 item out.old out.new) }
    ensures stays { OnErr result ((behavior : Behavior) (took : List (List Call)) → TeeTook tee.old behavior took → TeeTook tee.new behavior took) }
    ensures refused { IfErr result (λ refusal. (behavior : Behavior) (took : List (List Call)) → TeeTook tee.old behavior took
        → RefusesBy behavior took 0 item refusal) }
    ensures cause { IfErr result (IsWriteCause None None) }
    ensures out { OnErr result (out.new ≡ out.old) }
    ensures pads { pad_count tee.new ≡ pad_count tee.old }
{
    match tee.feed(alloc, 0, item, out) {
        Ok(_) => Ok(()),
        Err(fault) => Err(Refused::fault(alloc, fault)),
    }
}

/// A sink takes an item. Where a write fails, its file holds a beginning of the item's bytes behind what it took.
#[inline(always)]
fn render<K: Sink>(sink: &mut SinkElement<K>, item: &Item) -> Result<(), Refused>
    ensures took { OnOk result ((behavior : Behavior) (took : List (List Call)) → SinkStands K.bytes sink.old behavior took
        → SinkStands K.bytes sink.new behavior (push_calls 0 (Feed item.now ∷ []) took)) }
    ensures fell { OnErr result ((behavior : Behavior) (took : List (List Call)) → SinkStands K.bytes sink.old behavior took
        → SinkFell K.bytes sink.new item.now behavior took) }
    ensures refused { IfErr result (λ refusal. (behavior : Behavior) (took : List (List Call)) → SinkStands K.bytes sink.old behavior took
        → RefusesBy behavior took 0 item.now refusal) }
    ensures cause { IfErr result (IsWriteCause (sink_faults K.faults sink.old) (sink_faults K.faults sink.new)) }
    ensures never_falls { NeverFalls (sink_faults K.faults sink.old) (sink_faults K.faults sink.new) }
    ensures location_stays { option_map K.location (sink_file sink.new) ≡ option_map K.location (sink_file sink.old) }
{
    match sink.render(item) {
        Ok(_) => Ok(()),
        Err(fault) => Err(Refused::unwritten(fault.before, fault.after)),
    }
}
