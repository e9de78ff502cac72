//! Sink pads.
ghost use Rattle.std.specs.Prelude.{◌≡◌, ◌++◌, ◌∷◌, [], ℕ, true, false, List, map, IfOk, OnOk, OnErr};
ghost use Rattle.flow_model.specs.Item.{Item, Ev, FlushStop, is_flush_stop};
ghost use Rattle.flow_model.specs.Sticky.{in_force};
ghost use Rattle.flow_model.specs.Call.{Call, Feed};
ghost use Rattle.flow_model.specs.Feeding.{on_pad};
ghost use Rattle.flow_model.specs.Inherited.{is_inherited};
ghost use Rattle.el_select.specs.Kept.{IsLeft};

use flow_model::on_pad;
use gst_item::{Event, Item, Out, Outs, Sticky};
use gst_value::OutOfMemory;
use std::alloc::Global;
use std::collections::VecDeque;

/// What the selector knows of a sink pad.
#[derive(Drop)]
pub(crate) struct Pad {
    /// The sticky events in force of what it was given.
    sticky: Sticky,
    /// Whether it had EOS since the last flush.
    pub(crate) ended: bool,
    ghost left: { ∥ IsLeft sticky ∥₁ },
}

impl Pad {
    ghost use Rattle.el_select.specs.Selects.{Knows, PutsSticky};

    /// A pad that was given nothing.
    pub(crate) fn new() -> Pad
        ensures { Knows result [] }
    {
        Pad {
            sticky: Sticky::new(),
            ended: false,
        }
    }

    /// Takes an item and gives it up. If it is sticky it is remembered.
    pub(crate) fn take(&mut self, item: Item)
        requires no_flush { is_flush_stop item ≡ false }
        requires open { self.old.ended ≡ false }
        ensures { (calls : List Call) → Knows self.old calls → Knows self.new (calls ++ Feed item ∷ []) }
    {
        self.ended = item.is_eos();
        match item {
            Item::Buffer(_buffer) => {}
            Item::Event(event) => self.remember(event),
        }
    }

    /// Takes an event that only the next section has of it. Behind EOS it does not count.
    pub(crate) fn lay(&mut self, event: Event)
        requires { is_inherited event ≡ true }
        ensures { (calls : List Call) → Knows self.old calls → Knows self.new (calls ++ Feed (Ev event) ∷ []) }
    {
        if self.ended {
            return;
        }
        self.remember(event);
    }

    /// Begins a new section.
    pub(crate) fn clear(&mut self)
        ensures { (calls : List Call) (number : ℕ) → Knows self.old calls → Knows self.new (calls ++ Feed (Ev (FlushStop number)) ∷ []) }
    {
        self.sticky.clear_flush();
        self.ended = false;
    }

    /// Puts copies of its sticky events in force out, in the order STREAM_START, CAPS, SEGMENT, TAG, EOS.
    pub(crate) fn put_events(&self, alloc: Global, out: &mut Outs) -> Result<(), OutOfMemory>
        ensures ok { OnOk result (PutsSticky self.now out.old out.new) }
        ensures err { OnErr result (out.new ≡ out.old) }
    {
        let events = self.sticky.list(alloc)?;
        let mut queue = copies(alloc, events.as_slice())?;
        out.pour(alloc, &mut queue)
    }

    /// Remembers an event, if it is sticky.
    fn remember(&mut self, event: Event)
        requires { is_flush_stop (Ev event) ≡ false }
        ensures sticky { (h : List Item) → self.old.sticky ≡ in_force h → self.new.sticky ≡ in_force (h ++ Ev event ∷ []) }
        ensures ended { self.new.ended ≡ self.old.ended }
    {
        if event.is_sticky() {
            self.sticky.set(event);
        }
    }
}

/// Copies of events, for the only source pad.
fn copies(alloc: Global, events: &[Event]) -> Result<VecDeque<Out>, OutOfMemory>
    ensures { IfOk result (λ made. made.items ≡ on_pad 0 (map Ev events.now)) }
{
    let mut queue = VecDeque::new(alloc);
    for event in events {
        queue.push_back(on_pad(Item::Event(event.copy(alloc)?)))?;
    }
    Ok(queue)
}
