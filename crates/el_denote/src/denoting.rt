//! The plain evaluation of elements over whole lists.
ghost use Rattle.std.specs.Prelude.{◌≡◌, ◌≢◌, true, false, ◌++◌, ◌∷◌, [], List, map, replicate, length, IfOk, IfErr, OnOk};
ghost use Rattle.flow_model.specs.Item.{Item as PadItem, is_flush_stop};
ghost use Rattle.flow_model.specs.Feeding.{IsFaultOf};
ghost use Rattle.flow_model.specs.Rule.{Response};
ghost use Rattle.el_settings.specs.Asked.{makes_sinks, sink_pads, source_pads, with_allowed};
ghost use Rattle.el_denote.specs.Denoted.{IsDenoted, IsOwed, answered, next_fault};
ghost use Rattle.el_denote.specs.Joined.{AreJoined};
ghost use Rattle.el_set.specs.Denoted.{response_of};
ghost use Rattle.el_set.specs.Stands.{Stands};
ghost use Rattle.el_denote.specs.Stepping.{TookAll};

use crate::joined::joined;
use el_basic::Identity;
use el_set::{FilterElement, filter_of};
use el_settings::Settings;
use flow_model::ElementFault;
use gst_caps::Caps;
use gst_item::{Item, Out, Outs};
use gst_value::{List, OutOfMemory};
use std::alloc::Global;
use std::collections::VecDeque;

/// What an element with these settings owes for whole lists, one for each sink pad: a list for each of its source
/// pads, which a tee owes all the same. A converter may put out the allowed caps. The fault is the first of the element's
/// rule. An element with several sink pads is given the lists section by section, and in each pad by pad.
pub fn denote(
    alloc: Global,
    settings: &Settings,
    _pads: u32,
    allowed: &Caps,
    inputs: &List<List<Item>>,
) -> Result<List<List<Item>>, ElementFault>
    requires no_source { sink_pads settings.now ≢ 0 }
    requires inputs { length inputs.now ≡ sink_pads settings.now }
    requires pads { _pads ≡ source_pads settings.now }
    ensures single { makes_sinks settings.now ≡ false → IsDenoted (with_allowed allowed.now settings.now) inputs.now result }
    ensures joined { makes_sinks settings.now ≡ true → AreJoined settings.now inputs.now result }
{
    if settings.makes_sinks() {
        denote_join(alloc, settings, inputs.as_slice())
    } else {
        denote_single(alloc, settings, allowed, inputs)
    }
}

/// What an element with several sink pads owes.
fn denote_join(
    alloc: Global,
    settings: &Settings,
    inputs: &[List<Item>],
) -> Result<List<List<Item>>, ElementFault>
    requires kind { makes_sinks settings.now ≡ true }
    requires some { sink_pads settings.now ≢ 0 }
    requires inputs { length inputs.now ≡ sink_pads settings.now }
    ensures { AreJoined settings.now inputs.now result }
{
    match joined(alloc, settings, inputs) {
        Ok(output) => Ok(alone(alloc, output)?),
        Err(fault) => Err(fault),
    }
}

/// The output on the only source pad.
fn alone(alloc: Global, output: List<Item>) -> Result<List<List<Item>>, OutOfMemory>
    ensures { IfOk result (λ made. made ≡ output ∷ []) }
{
    let mut outputs = List::new(alloc);
    outputs.push(alloc, output)?;
    Ok(outputs)
}

/// What an element with one sink pad owes.
fn denote_single(
    alloc: Global,
    settings: &Settings,
    allowed: &Caps,
    inputs: &List<List<Item>>,
) -> Result<List<List<Item>>, ElementFault>
    requires no_source { sink_pads settings.now ≢ 0 }
    requires no_join { makes_sinks settings.now ≡ false }
    requires inputs { length inputs.now ≡ sink_pads settings.now }
    ensures { IsDenoted (with_allowed allowed.now settings.now) inputs.now result }
{
    let element = element_of(alloc, settings, allowed)?;
    let Some(input) = inputs.as_slice().first() else {
        unreachable!()
    };
    match evaluated(alloc, element, input.as_slice()) {
        Ok(output) => Ok(on_pads(alloc, settings, output)?),
        Err(fault) => Err(fault),
    }
}

/// An element of the settings' rule, which was fed nothing yet.
fn element_of(
    alloc: Global,
    settings: &Settings,
    allowed: &Caps,
) -> Result<FilterElement, OutOfMemory>
    ensures { IfOk result (λ made. Stands (response_of (with_allowed allowed.now settings.now)) made [] []) }
{
    let mut own = settings.copy(alloc)?;
    own.set_allowed(allowed.copy(alloc)?);
    match filter_of(alloc, &own)? {
        Some(element) => Ok(element),
        None => Ok(FilterElement::Identity(Identity::new())),
    }
}

/// The output on each source pad.
fn on_pads(
    alloc: Global,
    settings: &Settings,
    output: List<Item>,
) -> Result<List<List<Item>>, OutOfMemory>
    ensures { IfOk result (λ made. made ≡ replicate (source_pads settings.now) output) }
{
    let pads = settings.source_pads();
    if pads == 0 {
        return Ok(List::new(alloc));
    }
    let mut outputs = copies(alloc, pads - 1, output.as_slice())?;
    outputs.push(alloc, output)?;
    Ok(outputs)
}

/// So many copies of items; the bodies of buffers are shared.
fn copies(alloc: Global, count: u32, items: &[Item]) -> Result<List<List<Item>>, OutOfMemory>
    ensures { IfOk result (λ made. made ≡ replicate count items.now) }
{
    let mut lists = List::new(alloc);
    for _pad in 0..count {
        let copy = items_again(alloc, items)?;
        lists.push(alloc, copy)?;
    }
    Ok(lists)
}

/// The same items once more.
fn items_again(alloc: Global, items: &[Item]) -> Result<List<Item>, OutOfMemory>
    ensures { IfOk result (λ made. made ≡ items.now) }
{
    let mut copies = List::new(alloc);
    for item in items {
        copies.push(alloc, item.copy(alloc)?)?;
    }
    Ok(copies)
}

/// What an element that was fed nothing owes for a whole list.
fn evaluated(
    alloc: Global,
    element: FilterElement,
    items: &[Item],
) -> Result<List<Item>, ElementFault>
    ensures { (respond : Response) → Stands respond element [] [] → IsOwed respond items.now result }
{
    let mut running = element;
    let mut out = List::new(alloc);
    for item in items {
        match take(alloc, &mut running, item, &mut out) {
            Ok(()) => {}
            Err(fault) => return Err(fault),
        }
    }
    Ok(items_of(alloc, out)?)
}

/// Feeds a copy of an item, or flushes the element.
fn take(
    alloc: Global,
    element: &mut FilterElement,
    item: &Item,
    out: &mut Outs,
) -> Result<(), ElementFault>
    ensures taken { OnOk result ((respond : Response) (items : List PadItem) → TookAll respond element.old items out.old
        → TookAll respond element.new (items ++ item.now ∷ []) out.new) }
    ensures fault { IfErr result (λ fault. (respond : Response) (items : List PadItem) → TookAll respond element.old items out.old
        → IsFaultOf (answered (next_fault respond items item.now)) fault) }
{
    if item.is_flush_stop() {
        Ok(flush(alloc, element, item, out)?)
    } else {
        feed(alloc, element, item, out)
    }
}

/// Begins a new section behind a FLUSH_STOP.
fn flush(
    alloc: Global,
    element: &mut FilterElement,
    item: &Item,
    out: &mut Outs,
) -> Result<(), OutOfMemory>
    requires { is_flush_stop item.now ≡ true }
    ensures { OnOk result ((respond : Response) (items : List PadItem) → TookAll respond element.old items out.old
        → TookAll respond element.new (items ++ item.now ∷ []) out.new) }
{
    let item = item.copy(alloc)?;
    out.push(alloc, Out { pad: 0, item })?;
    element.flush();
    Ok(())
}

/// Feeds a copy of an item.
fn feed(
    alloc: Global,
    element: &mut FilterElement,
    item: &Item,
    out: &mut Outs,
) -> Result<(), ElementFault>
    requires { is_flush_stop item.now ≡ false }
    ensures taken { OnOk result ((respond : Response) (items : List PadItem) → TookAll respond element.old items out.old
        → TookAll respond element.new (items ++ item.now ∷ []) out.new) }
    ensures fault { IfErr result (λ fault. (respond : Response) (items : List PadItem) → TookAll respond element.old items out.old
        → IsFaultOf (answered (next_fault respond items item.now)) fault) }
{
    let copy = item.copy(alloc)?;
    match element.feed(alloc, 0, copy, out) {
        Ok(_) => Ok(()),
        Err(fault) => Err(fault),
    }
}

/// The items that were put out.
pub(crate) fn items_of(alloc: Global, out: Outs) -> Result<List<Item>, OutOfMemory>
    ensures { IfOk result (λ made. made ≡ map (λ one. one.item) out) }
{
    let mut items = List::new(alloc);
    let mut rest = VecDeque::from(out.into_vec());
    while let Some(one) = rest.pop_front() {
        items.push(alloc, one.item)?;
    }
    Ok(items)
}
