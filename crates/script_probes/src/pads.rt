//! The probes that wait at the pads of each element.
ghost use Rattle.std.specs.Prelude.{◌≡◌, ◌<◌, ◌++◌, [], ◌∷◌, ℕ, All, List, cond, filter, length, slice_get, IfOk, OnOk};
ghost use Rattle.std.specs.Str.{bytes_eq};
ghost use Rattle.gst_value.specs.declared.name.PadName.{PadName as Name};
ghost use Rattle.script_probes.specs.Queues.{is_at, is_pad, queue_at, queue_in, unanswered, waits_at};

use gst_value::{OutOfMemory, PadName};
use indexmap::IndexMap;
use pad_core::Probe;
use script_text::{Command, When};
use std::alloc::Global;
use std::collections::VecDeque;

/// The probes that wait at the pads of one element, by the names of the pads.
pub(crate) type Pads = IndexMap<String, VecDeque<Probe>>;

/// The same of all elements, by their names.
pub(crate) type Elements = IndexMap<String, Pads>;

/// Puts a probe behind the others of a pad of the element.
fn put_in(alloc: Global, pads: &mut Pads, pad: &str, stop: Probe) -> Result<(), OutOfMemory>
    ensures { OnOk result ((other : List ℕ) → queue_in pads.new other
        ≡ queue_in pads.old other ++ cond (bytes_eq pad.now other) (stop ∷ []) []) }
{
    if let Some(queue) = pads.get_mut(pad) {
        queue.push_back(stop)?;
        return Ok(());
    }
    let mut queue = VecDeque::new(alloc);
    queue.push_back(stop)?;
    pads.insert(String::from_str(alloc, pad)?, queue)?;
    Ok(())
}

/// Puts a probe behind the others of a pad.
fn put_at(
    alloc: Global,
    elements: &mut Elements,
    pad: &PadName,
    stop: Probe,
) -> Result<(), OutOfMemory>
    ensures { OnOk result ((other : Name) → queue_at elements.new other
        ≡ queue_at elements.old other ++ cond (is_pad pad.now other) (stop ∷ []) []) }
{
    if let Some(pads) = elements.get_mut(pad.element.as_str()) {
        return put_in(alloc, pads, pad.pad.as_str(), stop);
    }
    let mut pads = IndexMap::new(alloc);
    put_in(alloc, &mut pads, pad.pad.as_str(), stop)?;
    elements.insert(String::from_str(alloc, pad.element.as_str())?, pads)?;
    Ok(())
}

/// Puts a probe behind the others of the pad at which its command waits, where it waits at one.
fn put_stop(
    alloc: Global,
    elements: &mut Elements,
    when: &When,
    stop: Probe,
) -> Result<(), OutOfMemory>
    ensures { OnOk result ((other : Name) → queue_at elements.new other
        ≡ queue_at elements.old other ++ cond (waits_at other (Some when.now)) (stop ∷ []) []) }
{
    match when {
        When::At { pad, .. } => put_at(alloc, elements, pad, stop),
        When::NowPad { .. } => Ok(()),
        When::Now => Ok(()),
    }
}

/// These probes, in their order, at the pads at which their commands wait.
pub(crate) fn at_pads(
    alloc: Global,
    commands: &[Command],
    stops: &[Probe],
) -> Result<Elements, OutOfMemory>
    requires { All (λ stop. stop.command < length commands.now) stops.now }
    ensures { IfOk result (λ elements. (pad : Name) → queue_at elements pad ≡ filter (is_at commands.now pad) stops.now) }
{
    let mut elements = IndexMap::new(alloc);
    for stop in stops {
        let command = &commands[stop.command as usize];
        put_stop(alloc, &mut elements, &command.when, *stop)?;
    }
    Ok(elements)
}

/// Takes the probes of answered commands off the front. The first of the others.
fn first_unanswered(queue: &mut VecDeque<Probe>, answered: u32) -> Option<Probe>
    ensures first { result ≡ slice_get queue.new.items 0 }
    ensures rest { queue.new.items ≡ unanswered answered queue.old.items }
{
    while let Some(stop) = queue.front() {
        if stop.command >= answered {
            return Some(*stop);
        }
        queue.pop_front();
    }
    None
}

/// The same at one of the pads of an element.
fn next_in(pads: &mut Pads, pad: &str, answered: u32) -> Option<Probe>
    ensures next { result ≡ slice_get (queue_in pads.new pad.now) 0 }
    ensures rest { (other : List ℕ) → queue_in pads.new other
        ≡ cond (bytes_eq pad.now other) (unanswered answered (queue_in pads.old other)) (queue_in pads.old other) }
{
    match pads.get_mut(pad) {
        Some(queue) => first_unanswered(queue, answered),
        None => None,
    }
}

/// The same at a pad.
pub(crate) fn next_at(elements: &mut Elements, pad: &PadName, answered: u32) -> Option<Probe>
    ensures next { result ≡ slice_get (queue_at elements.new pad.now) 0 }
    ensures rest { (other : Name) → queue_at elements.new other
        ≡ cond (is_pad pad.now other) (unanswered answered (queue_at elements.old other)) (queue_at elements.old other) }
{
    match elements.get_mut(pad.element.as_str()) {
        Some(pads) => next_in(pads, pad.pad.as_str(), answered),
        None => None,
    }
}
