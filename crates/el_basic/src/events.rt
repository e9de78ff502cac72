//! Events that go out on a source pad.
ghost use Rattle.std.specs.Prelude.{◌≡◌, ◌++◌, List, map, IfOk, OnOk, OnErr};
ghost use Rattle.flow_model.specs.Item.{Item, Ev};
ghost use Rattle.flow_model.specs.Sticky.{in_force, stickies};
ghost use Rattle.flow_model.specs.Feeding.{on_pad};
ghost use Rattle.el_basic.specs.Spread.{is_gap};
ghost use Rattle.el_basic.specs.Valves.{GoOut};

use gst_item::{Event, Item, Out, Outs, Sticky};
use gst_value::OutOfMemory;
use std::alloc::Global;
use std::collections::VecDeque;

/// Whether an event is a GAP.
pub(crate) fn is_gap(event: &Event) -> bool
    ensures { result ≡ is_gap event.now }
{
    matches!(event, Event::Gap { .. })
}

/// Puts copies of the events in force out on a source pad, in the order STREAM_START, CAPS, SEGMENT, TAG, EOS.
pub(crate) fn put_events(
    alloc: Global,
    pad: u32,
    sticky: &Sticky,
    out: &mut Outs,
) -> Result<(), OutOfMemory>
    ensures ok { OnOk result ((h : List Item) → sticky.now ≡ in_force h → out.new ≡ out.old ++ on_pad pad (stickies h)) }
    ensures puts { OnOk result (GoOut pad sticky.now stickies out.old out.new) }
    ensures err { OnErr result (out.new ≡ out.old) }
{
    let events = sticky.list(alloc)?;
    let mut queue = events_on(alloc, pad, events.as_slice())?;
    out.pour(alloc, &mut queue)
}

/// Copies of events, for a source pad.
pub(crate) fn events_on(
    alloc: Global,
    pad: u32,
    events: &[Event],
) -> Result<VecDeque<Out>, OutOfMemory>
    ensures { IfOk result (λ made. made.items ≡ on_pad pad (map Ev events.now)) }
{
    let mut queue = VecDeque::new(alloc);
    for event in events {
        queue.push_back(Out {
            pad,
            item: Item::Event(event.copy(alloc)?),
        })?;
    }
    Ok(queue)
}
