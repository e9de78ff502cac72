//! The plain evaluation of elements with several sink pads over whole lists.
ghost use Rattle.std.specs.Prelude.{◌≡◌, ◌≢◌, ◌≤◌, ◌<◌, ◌+◌, ◌++◌, ◌∷◌, [], ℕ, suc, Bool, true, false, if◌then◌else◌, List, map, take as taken, length, Option, None, Some, IfOk, IfErr, OnOk};
ghost use Rattle.gst_item.specs.declared.out.Out.{Out as Put};
ghost use Rattle.flow_model.specs.Item.{Item as PadItem, is_flush_stop, is_segment};
ghost use Rattle.flow_model.specs.Sticky.{has_flush_stop};
ghost use Rattle.flow_model.specs.Section.{section};
ghost use Rattle.flow_model.specs.Call.{Call};
ghost use Rattle.flow_model.specs.Feeding.{IsFaultOf};
ghost use Rattle.el_settings.specs.declared.settings.Settings.{Settings as OwnSettings};
ghost use Rattle.el_settings.specs.Asked.{makes_sinks, sink_pads};
ghost use Rattle.el_set.specs.Joins.{JoinPuts, JoinStands, join_answers, join_pads, may_take};
ghost use Rattle.el_denote.specs.Denoted.{answered};
ghost use Rattle.el_denote.specs.Joined.{IsJoined, first_fault_in};
ghost use Rattle.el_denote.specs.Near.{Mark, owed_count, restored as restored_fault, with_gap as gap_with};
ghost use Rattle.el_denote.specs.Running.{AtSection, IsFed, Runs, SectionDone};
ghost use Rattle.el_denote.specs.Turns.{Turn, Give, Flush, section_turns, turns_to};

use crate::denoting::items_of;
use crate::sections::{most_stops_of, part, stop_number};
use el_set::{JoinElement, join_of};
use el_settings::Settings;
use flow_model::ElementFault;
use gst_item::{Event, Item, Outs};
use gst_time::LIMIT;
use gst_value::{List, OutOfMemory};
use std::alloc::Global;
use std::collections::VecDeque;

/// What an element with several sink pads owes for whole lists, one for each of them.
pub(crate) fn joined(
    alloc: Global,
    settings: &Settings,
    inputs: &[List<Item>],
) -> Result<List<Item>, ElementFault>
    requires kind { makes_sinks settings.now ≡ true }
    requires some { sink_pads settings.now ≢ 0 }
    requires inputs { length inputs.now ≡ sink_pads settings.now }
    ensures { IsJoined settings.now inputs.now result }
{
    let Some(element) = join_of(alloc, settings)? else {
        unreachable!()
    };
    evaluated(alloc, element, inputs)
}

/// What an element that was fed nothing owes for whole lists: section by section.
fn evaluated(
    alloc: Global,
    element: JoinElement,
    inputs: &[List<Item>],
) -> Result<List<Item>, ElementFault>
    requires fed { IsFed element }
    requires pads { length inputs.now ≡ join_pads element }
    requires some { 0 < length inputs.now }
    requires few { length inputs.now ≤ 64 }
    ensures { (settings : OwnSettings) → makes_sinks settings ≡ true → AtSection settings inputs.now 0 element []
        → IsJoined settings inputs.now result }
{
    let mut running = element;
    let mut out = List::new(alloc);
    let last = most_stops_of(inputs);
    for number in 0..last {
        match take_flushed(alloc, &mut running, inputs, number, &mut out) {
            Ok(()) => {}
            Err(fault) => return Err(fault),
        }
    }
    match take_section(alloc, &mut running, inputs, last, &mut out) {
        Ok(()) => Ok(out),
        Err(fault) => Err(fault),
    }
}

/// Takes a section with the FLUSH_STOP that ends it.
fn take_flushed(
    alloc: Global,
    join: &mut JoinElement,
    inputs: &[List<Item>],
    number: usize,
    out: &mut List<Item>,
) -> Result<(), ElementFault>
    requires fed { IsFed join.old }
    requires pads { length inputs.now ≡ join_pads join.old }
    requires some { 0 < length inputs.now }
    requires few { length inputs.now ≤ 64 }
    ensures fed { OnOk result (IsFed join.new) }
    ensures pads { join_pads join.new ≡ join_pads join.old }
    ensures taken { OnOk result ((settings : OwnSettings) → AtSection settings inputs.now number join.old out.old
        → AtSection settings inputs.now (suc number) join.new out.new) }
    ensures fault { IfErr result (λ fault. (settings : OwnSettings) → AtSection settings inputs.now number join.old out.old
        → IsFaultOf (answered (first_fault_in settings (turns_to number inputs.now))) fault) }
{
    match take_section(alloc, join, inputs, number, out) {
        Ok(()) => {}
        Err(fault) => return Err(fault),
    }
    let stop = Event::FlushStop {
        number: stop_number(inputs, number),
    };
    out.push(alloc, Item::Event(stop))?;
    flush(join);
    Ok(())
}

/// Takes a section, and puts out what is owed there.
fn take_section(
    alloc: Global,
    join: &mut JoinElement,
    inputs: &[List<Item>],
    number: usize,
    out: &mut List<Item>,
) -> Result<(), ElementFault>
    requires fed { IsFed join.old }
    requires pads { length inputs.now ≡ join_pads join.old }
    requires some { 0 < length inputs.now }
    requires few { length inputs.now ≤ 64 }
    ensures fed { OnOk result (IsFed join.new) }
    ensures pads { join_pads join.new ≡ join_pads join.old }
    ensures taken { OnOk result ((settings : OwnSettings) → AtSection settings inputs.now number join.old out.old
        → SectionDone settings inputs.now number join.new out.new) }
    ensures fault { IfErr result (λ fault. (settings : OwnSettings) → AtSection settings inputs.now number join.old out.old
        → IsFaultOf (answered (first_fault_in settings (turns_to number inputs.now))) fault) }
{
    let mut put = List::new(alloc);
    match take_pads(alloc, join, inputs, number, &mut put) {
        Ok(gaps) => Ok(gather(alloc, put, gaps, out)?),
        Err(fault) => Err(fault),
    }
}

/// Feeds the items of a section, pad by pad.
fn take_pads(
    alloc: Global,
    join: &mut JoinElement,
    inputs: &[List<Item>],
    number: usize,
    put: &mut Outs,
) -> Result<Option<bool>, ElementFault>
    requires fed { IsFed join.old }
    requires pads { length inputs.now ≡ join_pads join.old }
    requires few { length inputs.now ≤ 64 }
    ensures fed { OnOk result (IsFed join.new) }
    ensures pads { join_pads join.new ≡ join_pads join.old }
    ensures taken { IfOk result (λ gaps. (settings : OwnSettings) (turns : List Turn) → Runs settings number None join.old [] false turns put.old
        → (marks : List Mark) × Runs settings number gaps join.new marks false (turns ++ section_turns number 0 inputs.now) put.new) }
    ensures fault { IfErr result (λ fault. (settings : OwnSettings) (turns : List Turn) → Runs settings number None join.old [] false turns put.old
        → IsFaultOf (answered (first_fault_in settings (turns ++ section_turns number 0 inputs.now))) fault) }
{
    let mut gaps = None;
    let mut pad = 0;
    for input in inputs {
        match take_pad(alloc, join, pad, input.as_slice(), number, gaps, put) {
            Ok(more) => gaps = more,
            Err(fault) => return Err(fault),
        }
        pad += 1;
    }
    Ok(gaps)
}

/// Feeds the items that a list has in a section.
fn take_pad(
    alloc: Global,
    join: &mut JoinElement,
    pad: u32,
    list: &[Item],
    number: usize,
    gaps: Option<bool>,
    put: &mut Outs,
) -> Result<Option<bool>, ElementFault>
    requires fed { IsFed join.old }
    requires pad { pad < join_pads join.old }
    requires few { pad < 64 }
    requires order { may_take pad join.old ≡ true }
    ensures fed { OnOk result (IsFed join.new) }
    ensures order { OnOk result (may_take (suc pad) join.new ≡ true) }
    ensures pads { join_pads join.new ≡ join_pads join.old }
    ensures taken { IfOk result (λ more. (settings : OwnSettings) (marks : List Mark) (turns : List Turn) → length marks ≡ pad
        → Runs settings number gaps join.old marks false turns put.old
        → (mark : Mark) × Runs settings number more join.new (marks ++ mark ∷ []) false (turns ++ map (Give pad) (section number list.now)) put.new) }
    ensures fault { IfErr result (λ fault. (settings : OwnSettings) (marks : List Mark) (turns : List Turn) → length marks ≡ pad
        → Runs settings number gaps join.old marks false turns put.old
        → IsFaultOf (answered (first_fault_in settings (turns ++ map (Give pad) (section number list.now)))) fault) }
{
    let items = part(alloc, list, number)?;
    match take_items(alloc, join, pad, items.as_slice(), gaps, put) {
        Ok(begun) => Ok(close(alloc, join, pad, begun, gaps, put)?),
        Err(fault) => Err(fault),
    }
}

/// Feeds copies of items on a sink pad, and answers whether there was a SEGMENT among them.
fn take_items(
    alloc: Global,
    join: &mut JoinElement,
    pad: u32,
    items: &[Item],
    gaps: Option<bool>,
    put: &mut Outs,
) -> Result<bool, ElementFault>
    requires fed { IsFed join.old }
    requires pad { pad < join_pads join.old }
    requires order { may_take pad join.old ≡ true }
    requires plain { has_flush_stop items.now ≡ false }
    ensures fed { OnOk result (IsFed join.new) }
    ensures order { OnOk result (may_take pad join.new ≡ true) }
    ensures pads { join_pads join.new ≡ join_pads join.old }
    ensures taken { IfOk result (λ begun. (settings : OwnSettings) (j : ℕ) (marks : List Mark) (turns : List Turn) → length marks ≡ pad
        → Runs settings j gaps join.old marks false turns put.old
        → Runs settings j gaps join.new marks begun (turns ++ map (Give pad) items.now) put.new) }
    ensures fault { IfErr result (λ fault. (settings : OwnSettings) (j : ℕ) (marks : List Mark) (turns : List Turn) → length marks ≡ pad
        → Runs settings j gaps join.old marks false turns put.old
        → IsFaultOf (answered (first_fault_in settings (turns ++ map (Give pad) items.now))) fault) }
{
    let mut begun = false;
    for item in items {
        match take(alloc, join, pad, item, gaps, put) {
            Ok(()) => {}
            Err(fault) => return Err(fault),
        }
        begun = or_segment(begun, item);
    }
    Ok(begun)
}

/// Feeds a copy of an item on a sink pad.
fn take(
    alloc: Global,
    join: &mut JoinElement,
    pad: u32,
    item: &Item,
    gaps: Option<bool>,
    put: &mut Outs,
) -> Result<(), ElementFault>
    requires fed { IsFed join.old }
    requires pad { pad < join_pads join.old }
    requires order { may_take pad join.old ≡ true }
    requires plain { is_flush_stop item.now ≡ false }
    ensures fed { OnOk result (IsFed join.new) }
    ensures order { OnOk result (may_take pad join.new ≡ true) }
    ensures pads { join_pads join.new ≡ join_pads join.old }
    ensures taken { OnOk result ((settings : OwnSettings) (j : ℕ) (marks : List Mark) (begun : Bool) (turns : List Turn) → length marks ≡ pad
        → Runs settings j gaps join.old marks begun turns put.old
        → Runs settings j gaps join.new marks (if begun then true else is_segment item.now) (turns ++ Give pad item.now ∷ []) put.new) }
    ensures fault { IfErr result (λ fault. (settings : OwnSettings) (j : ℕ) (marks : List Mark) (begun : Bool) (turns : List Turn) → length marks ≡ pad
        → Runs settings j gaps join.old marks begun turns put.old
        → IsFaultOf (answered (first_fault_in settings (turns ++ Give pad item.now ∷ []))) fault) }
{
    let copy = item.copy(alloc)?;
    match feed(alloc, join, pad, copy, put) {
        Ok(()) => Ok(()),
        Err(fault) => Err(restored(gaps, fault)),
    }
}

/// Feeds an item on a sink pad.
fn feed(
    alloc: Global,
    join: &mut JoinElement,
    pad: u32,
    item: Item,
    put: &mut Outs,
) -> Result<(), ElementFault>
    requires pad { pad < join_pads join.old }
    requires order { may_take pad join.old ≡ true }
    requires plain { is_flush_stop item ≡ false }
    ensures puts { OnOk result (JoinPuts join.old join.new pad item put.old put.new) }
    ensures pads { join_pads join.new ≡ join_pads join.old }
    ensures fault { IfErr result (λ fault. (took : List (List Call)) (given : List PadItem) → JoinStands join.old took given
        → IsFaultOf (join_answers join.old took pad item) fault) }
{
    match join.feed(alloc, pad, item, put) {
        Ok(_) => Ok(()),
        Err(fault) => Err(fault),
    }
}

/// Behind the items of a pad in a section. The pads above one of an interleave that has neither CAPS nor EOS could not be fed: it is
/// given an EOS, which its list has not. This can only be refused for want of memory.
fn close(
    alloc: Global,
    join: &mut JoinElement,
    pad: u32,
    begun: bool,
    gaps: Option<bool>,
    put: &mut Outs,
) -> Result<Option<bool>, OutOfMemory>
    requires fed { IsFed join.old }
    requires pad { pad < join_pads join.old }
    requires few { pad < 64 }
    requires order { may_take pad join.old ≡ true }
    ensures fed { OnOk result (IsFed join.new) }
    ensures order { OnOk result (may_take (suc pad) join.new ≡ true) }
    ensures pads { join_pads join.new ≡ join_pads join.old }
    ensures closed { IfOk result (λ more. (settings : OwnSettings) (j : ℕ) (marks : List Mark) (turns : List Turn) → length marks ≡ pad
        → Runs settings j gaps join.old marks begun turns put.old
        → (mark : Mark) × Runs settings j more join.new (marks ++ mark ∷ []) false turns put.new) }
{
    if is_in_order(join, pad + 1) {
        return Ok(gaps);
    }
    if feed(alloc, join, pad, Item::Event(Event::Eos), put).is_err() {
        return Err(OutOfMemory);
    }
    Ok(Some(with_gap(gaps, begun)))
}

/// Whether each pad without CAPS and EOS had SEGMENT, with one more.
fn with_gap(gaps: Option<bool>, begun: bool) -> bool
    ensures { Some result ≡ gap_with gaps begun }
{
    match gaps {
        Some(all) => all && begun,
        None => begun,
    }
}

/// Whether an item may be fed on a sink pad: on one of a concat always, and on one of an interleave where each lower pad has CAPS or
/// had EOS.
fn is_in_order(join: &JoinElement, pad: u32) -> bool
    ensures { result ≡ may_take pad join.now }
{
    match join {
        JoinElement::Concat(_) => true,
        JoinElement::Mix(mix) => mix.is_in_order(pad),
    }
}

/// Begins a new section.
fn flush(join: &mut JoinElement)
    ensures fed { IsFed join.old → IsFed join.new }
    ensures pads { join_pads join.new ≡ join_pads join.old }
    ensures flushed { (settings : OwnSettings) (j : ℕ) (gaps : Mark) (marks : List Mark) (turns : List Turn) (out : List Put) (number : ℕ)
        → Runs settings j gaps join.old marks false turns out
        → Runs settings (suc j) None join.new [] false (turns ++ Flush number ∷ []) [] }
{
    match join {
        JoinElement::Concat(concat) => concat.flush(),
        JoinElement::Mix(mix) => mix.flush(),
    }
}

/// The fault in truth: where a pad had neither CAPS nor EOS no buffers were put out.
fn restored(gaps: Option<bool>, fault: ElementFault) -> ElementFault
    ensures { result ≡ restored_fault gaps fault }
{
    match (gaps, fault) {
        (Some(_), ElementFault::TooLong { .. }) => ElementFault::TooLong { a: 0, b: LIMIT },
        (_, other) => other,
    }
}

/// Puts what is owed of what a section put out behind the other sections.
fn gather(
    alloc: Global,
    put: Outs,
    gaps: Option<bool>,
    out: &mut List<Item>,
) -> Result<(), OutOfMemory>
    ensures { OnOk result (out.new ≡ out.old ++ taken (owed_count (length put) gaps) (map (λ one. one.item) put)) }
{
    let count = count_of(put.as_slice().len(), gaps);
    let mut items = items_of(alloc, put)?.into_vec();
    items.truncate(count);
    out.pour(alloc, &mut VecDeque::from(items))
}

/// How many of these items are owed: all of them, and where a pad had neither CAPS nor EOS those that stand before any buffers, once
/// each such pad had SEGMENT.
fn count_of(count: usize, gaps: Option<bool>) -> usize
    ensures { result ≡ owed_count count gaps }
{
    match gaps {
        None => count,
        Some(true) => { if count >= 3 { 3 } else { 0 } }
        Some(false) => 0,
    }
}

fn or_segment(begun: bool, item: &Item) -> bool
    ensures { result ≡ (if begun then true else is_segment item.now) }
{
    begun || matches!(item, Item::Event(Event::Segment(_)))
}
