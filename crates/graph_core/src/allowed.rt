//! The caps that converters are allowed to put out: those that are taken behind them.
ghost use Rattle.std.specs.Prelude.{◌≡◌, ◌<◌, ◌≤◌, ◌+◌, ℕ, All, Option, None, Some, IfErr, IfSome, OnOk, length, slice_get};
ghost use Rattle.std.specs.Option.{option_map};
ghost use Rattle.el_settings.specs.Asked.{sink_pads};
ghost use Rattle.graph_core.specs.Allowed.{Allows, Answers, AreAllowed, AreAllowedBelow, AreCounted, Falls, IsWideFault, all_allowed, all_common, allowed_before};
ghost use Rattle.graph_core.specs.Elements.{Made, all_made};
ghost use Rattle.graph_core.specs.Ends.{pads_at};
ghost use Rattle.graph_core.specs.Links.{AreOrdered, HasPads, all_links};
ghost use Rattle.graph_pads.specs.declared.pad.Direction.TheVariants.{Sink};
ghost use Rattle.gst_caps.specs.declared.caps.Caps.{Caps as ACaps};

use crate::elements::Elements;
use crate::fault::BuildFault;
use crate::links::Links;
use el_settings::{Settings, template};
use graph_pads::{PadLink, PadPlace, sink_behind};
use gst_caps::Caps;
use gst_value::CapsFault;
use std::alloc::Global;

/// Sets each converter to what its source pad is allowed, in the order of the line.
///
/// Answers `TooMany` with a count of 65 at the first of them for which these are too many caps.
pub(crate) fn allow(alloc: Global, elements: &mut Elements, links: &Links) -> Result<(), BuildFault>
    requires ordered { AreOrdered (all_made elements.old) links.now }
    requires pads { All (HasPads (all_made elements.old)) (all_links links.now) }
    requires counted { AreCounted (all_made elements.old) (all_links links.now) }
    ensures stay { OnOk result (all_allowed (all_made elements.new) ≡ all_allowed (all_made elements.old)) }
    ensures allowed { OnOk result (AreAllowed (all_made elements.new) (all_links links.now)) }
    ensures fault { IfErr result (IsWideFault (all_made elements.old) (all_links links.now)) }
{
    for element in 0..elements.count() {
        allow_one(alloc, elements, links, element)?;
    }
    Ok(())
}

/// Sets an element to what its first source pad is allowed, if it is a converter.
fn allow_one(
    alloc: Global,
    elements: &mut Elements,
    links: &Links,
    element: u32,
) -> Result<(), BuildFault>
    requires there { element < length (all_made elements.old) }
    requires ordered { AreOrdered (all_made elements.old) links.now }
    requires pads { All (HasPads (all_made elements.old)) (all_links links.now) }
    requires counted { AreCounted (all_made elements.old) (all_links links.now) }
    ensures stay { OnOk result (all_allowed (all_made elements.new) ≡ all_allowed (all_made elements.old)) }
    ensures allowed { OnOk result (AreAllowedBelow element (all_made elements.old) (all_links links.now)
        → AreAllowedBelow (element + 1) (all_made elements.new) (all_links links.now)) }
    ensures fault { IfErr result (IsWideFault (all_made elements.old) (all_links links.now)) }
{
    if !elements.settings(element).is_converter() {
        return Ok(());
    }
    let caps = allowed_caps(alloc, elements, links, PadPlace { element, pad: 0 })?;
    elements.set_allowed(element, caps);
    Ok(())
}

/// The caps that a source pad is allowed to have: all where it is not linked, those of the next source pad through an
/// identity, a valve or a queue, through a capsfilter those of them that are its own too, in the order of its own, and through a tee
/// those that all its pads are allowed, in the order of its first pad. Before any other element they are what the sink pad
/// takes.
///
/// Answers `TooMany` where a capsfilter and what is allowed behind it, or the pads of a tee, have too many caps in common.
pub(crate) fn allowed_caps(
    alloc: Global,
    elements: &Elements,
    links: &Links,
    source: PadPlace,
) -> Result<Caps, CapsFault>
    requires { source.element < length (all_made elements.now) }
    ensures { AreOrdered (all_made elements.now) links.now → All (HasPads (all_made elements.now)) (all_links links.now)
        → AreCounted (all_made elements.now) (all_links links.now) → Answers (Allows (all_made elements.now) (all_links links.now) source) result }
{
    let links = links.made.as_slice();
    allowed_within(alloc, elements, links, source, elements.count())
}

/// The caps that a source pad is allowed to have, where fewer than `limit` elements come one behind the other from it.
/// In a graph whose links lead from pads that are there to pads that are there, and round in no circle, the limit is
/// not reached, and each sink pad is that of an element.
#[cycle(allowed)]
fn allowed_within(
    alloc: Global,
    elements: &Elements,
    links: &[PadLink],
    source: PadPlace,
    limit: u32,
) -> Result<Caps, CapsFault>
    ensures { (rank : ℕ → ℕ) → All (HasPads (all_made elements.now)) links.now → AreCounted (all_made elements.now) links.now → Falls links.now rank
        → rank source.element < limit → Answers (Allows (all_made elements.now) links.now source) result }
{
    if limit == 0 {
        return Ok(Caps::Any);
    }
    let Some(sink) = sink_behind(links, source) else {
        return Ok(Caps::Any);
    };
    let Some(settings) = taker(elements, sink) else {
        return Ok(Caps::Any);
    };
    if settings.makes_sources() {
        let pads = settings.source_pads();
        return common_caps(alloc, elements, links, sink.element, pads, limit - 1);
    }
    if !settings.hands_on() {
        return Ok(template(alloc, settings, true, sink.pad)?);
    }
    let next = PadPlace {
        element: sink.element,
        pad: 0,
    };
    let behind = allowed_within(alloc, elements, links, next, limit - 1)?;
    allowed_before(alloc, settings, behind)
}

/// The caps that all source pads of an element below a number are allowed to have, in the order of the first, where fewer than
/// `limit` elements come one behind the other from it.
#[cycle(allowed)]
fn common_caps(
    alloc: Global,
    elements: &Elements,
    links: &[PadLink],
    element: u32,
    pads: u32,
    limit: u32,
) -> Result<Caps, CapsFault>
    ensures { (rank : ℕ → ℕ) → All (HasPads (all_made elements.now)) links.now → AreCounted (all_made elements.now) links.now → Falls links.now rank
        → rank element < limit → (each : ℕ → Option ACaps)
        → ((k : ℕ) → k < pads → Allows (all_made elements.now) links.now (record { element = element; pad = k }) (each k))
        → Answers (λ answer. answer ≡ all_common each pads) result }
{
    let mut common = Caps::Any;
    for pad in 0..pads {
        let behind = allowed_within(alloc, elements, links, PadPlace { element, pad }, limit)?;
        common = common.intersect(alloc, &behind)?;
    }
    Ok(common)
}

/// What the element of a sink pad is set to, where the pad is there.
fn taker(elements: &Elements, sink: PadPlace) -> Option<&Settings>
    ensures there { IfSome result (λ settings.
        (option_map (λ (m : Made). m.settings) (slice_get (all_made elements.now) sink.element) ≡ Some settings.now) × (sink.pad < sink_pads settings.now)) }
    ensures none { result ≡ None → pads_at (all_made elements.now) Sink sink.element ≤ sink.pad }
{
    if sink.element >= elements.count() {
        return None;
    }
    let settings = elements.settings(sink.element);
    if sink.pad >= settings.sink_pads() {
        return None;
    }
    Some(settings)
}

/// What is allowed before an element, by what is allowed behind it.
fn allowed_before(alloc: Global, settings: &Settings, behind: Caps) -> Result<Caps, CapsFault>
    ensures { Answers (λ answer. answer ≡ allowed_before settings.now (Some behind)) result }
{
    match settings.filter_caps() {
        Some(caps) => caps.intersect(alloc, &behind),
        None => Ok(behind),
    }
}
