//! What the next section of a pad inherits.
ghost use Rattle.std.specs.Prelude.{◌≡◌, ◌++◌, ◌∷◌, [], IfOk, OnOk};
ghost use Rattle.flow_model.specs.Item.{Ev};
ghost use Rattle.flow_model.specs.Feeding.{on_pad};
ghost use Rattle.flow_model.specs.Inherited.{tag_event};
ghost use Rattle.flow_model.specs.Inherited.{caps_event};
ghost use Rattle.flow_model.specs.Inherited.{start_event};

use gst_item::{Event, Item, Out};
use gst_value::{Fixed, OutOfMemory, Text};
use std::alloc::Global;
use std::collections::VecDeque;

/// The STREAM_START, CAPS and TAG in force on a pad.
#[derive(Drop)]
pub(crate) struct Inherited {
    pub(crate) stream_start: Option<u32>,
    pub(crate) caps: Option<Fixed>,
    pub(crate) tag: Option<Text>,
}

impl Inherited {
    ghost use Rattle.el_join.specs.Pads.{kept, no_inherited};

    /// Those of a pad that was given nothing.
    pub(crate) fn new() -> Inherited
        ensures { result ≡ no_inherited }
    {
        Inherited {
            stream_start: None,
            caps: None,
            tag: None,
        }
    }

    /// Copies of the events in force, for the only source pad, in the order STREAM_START, CAPS, TAG.
    pub(crate) fn events(&self, alloc: Global) -> Result<VecDeque<Out>, OutOfMemory>
        ensures { IfOk result (λ made. made.items ≡ on_pad 0 (kept self.now)) }
    {
        let mut events = VecDeque::with_capacity(alloc, 4)?;
        push_start(&mut events, self.stream_start)?;
        push_caps(alloc, &mut events, &self.caps)?;
        push_tag(alloc, &mut events, &self.tag)?;
        Ok(events)
    }
}

fn push_start(events: &mut VecDeque<Out>, id: Option<u32>) -> Result<(), OutOfMemory>
    ensures { OnOk result (events.new.items ≡ events.old.items ++ on_pad 0 (start_event id)) }
{
    match id {
        None => Ok(()),
        Some(id) => push(events, Event::StreamStart { id }),
    }
}

fn push_caps(
    alloc: Global,
    events: &mut VecDeque<Out>,
    caps: &Option<Fixed>,
) -> Result<(), OutOfMemory>
    ensures { OnOk result (events.new.items ≡ events.old.items ++ on_pad 0 (caps_event caps.now)) }
{
    match caps {
        None => Ok(()),
        Some(caps) => push(events, Event::Caps(caps.copy(alloc)?)),
    }
}

fn push_tag(
    alloc: Global,
    events: &mut VecDeque<Out>,
    title: &Option<Text>,
) -> Result<(), OutOfMemory>
    ensures { OnOk result (events.new.items ≡ events.old.items ++ on_pad 0 (tag_event title.now)) }
{
    match title {
        None => Ok(()),
        Some(title) => push(
            events,
            Event::Tag {
                title: title.copy(alloc)?,
            },
        ),
    }
}

/// Puts an event for the only source pad behind others.
fn push(events: &mut VecDeque<Out>, event: Event) -> Result<(), OutOfMemory>
    ensures { OnOk result (events.new.items ≡ events.old.items ++ on_pad 0 (Ev event ∷ [])) }
{
    events.push_back(Out {
        pad: 0,
        item: Item::Event(event),
    })?;
    Ok(())
}
