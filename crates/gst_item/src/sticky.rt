//! The sticky events of a pad.
ghost use Rattle.std.specs.Prelude.{◌≡◌, ◌++◌, ◌∷◌, [], ℕ, List, map, IfOk, IsTrue, OnOk};
ghost use Rattle.gst_item.specs.Item.{Item, Buf, Ev, Buffer, Gap, FlushStop, is_sticky};
ghost use Rattle.gst_item.specs.Sticky.{held, in_force, stickies};

use crate::item::Event;
use gst_value::{List, OutOfMemory};
use std::alloc::Global;
use std::marker::Model;

/// The sticky events in force on a pad, as in GStreamer's design document on events: the last STREAM_START,
/// CAPS, SEGMENT, TAG and EOS that it had, where a FLUSH_STOP ends a SEGMENT and an EOS.
#[derive(Drop)]
pub struct Sticky {
    stream_start: Option<Event>,
    caps: Option<Event>,
    segment: Option<Event>,
    tag: Option<Event>,
    eos: Option<Event>,
}

impl Model for Sticky {
    ghost use Rattle.gst_item.specs.Sticky.{InForce, held};

    ghost Value = { InForce };

    ghost view = { λ s. record { stream_start = held s.stream_start; caps = held s.caps; segment = held s.segment; tag = held s.tag; eos = held s.eos } };
}

impl Sticky {
    /// The sticky events of a pad that nothing crossed.
    pub fn new() -> Sticky
        ensures { result ≡ in_force [] }
    {
        Sticky {
            stream_start: None,
            caps: None,
            segment: None,
            tag: None,
            eos: None,
        }
    }

    #[tactic(auto, using(crate::proofs::Kept::in_force_push))]
    /// Takes the place of the event of its kind.
    pub fn set(&mut self, event: Event)
        requires { IsTrue (is_sticky event) }
        ensures { (h : List Item) → self.old ≡ in_force h → self.new ≡ in_force (h ++ Ev event ∷ []) }
    {
        match event {
            Event::StreamStart { .. } => fill(&mut self.stream_start, Some(event)),
            Event::Caps(_) => fill(&mut self.caps, Some(event)),
            Event::Segment(_) => fill(&mut self.segment, Some(event)),
            Event::Tag { .. } => fill(&mut self.tag, Some(event)),
            Event::Eos => fill(&mut self.eos, Some(event)),
            Event::Gap { .. } | Event::FlushStop { .. } => unreachable!(),
        }
    }

    #[tactic(auto, using(crate::proofs::Kept::in_force_push))]
    /// Ends what a FLUSH_STOP ends.
    pub fn clear_flush(&mut self)
        ensures { (h : List Item) (number : ℕ) → self.old ≡ in_force h → self.new ≡ in_force (h ++ Ev (FlushStop number) ∷ []) }
    {
        fill(&mut self.segment, None);
        fill(&mut self.eos, None);
    }

    /// Copies of the events in force, in the order STREAM_START, CAPS, SEGMENT, TAG, EOS.
    pub fn list(&self, alloc: Global) -> Result<List<Event>, OutOfMemory>
        ensures { IfOk result (λ events. (h : List Item) → self.now ≡ in_force h → map Ev events ≡ stickies h) }
    {
        let mut events = List::new(alloc);
        add_copy(alloc, &mut events, &self.stream_start)?;
        add_copy(alloc, &mut events, &self.caps)?;
        add_copy(alloc, &mut events, &self.segment)?;
        add_copy(alloc, &mut events, &self.tag)?;
        add_copy(alloc, &mut events, &self.eos)?;
        Ok(events)
    }

    /// The same events once more.
    pub fn copy(&self, alloc: Global) -> Result<Sticky, OutOfMemory>
        ensures { IfOk result (λ made. made ≡ self.now) }
    {
        Ok(Sticky {
            stream_start: copy_slot(alloc, &self.stream_start)?,
            caps: copy_slot(alloc, &self.caps)?,
            segment: copy_slot(alloc, &self.segment)?,
            tag: copy_slot(alloc, &self.tag)?,
            eos: copy_slot(alloc, &self.eos)?,
        })
    }
}

/// Buffers and GAPs leave what is in force as it is.
#[tactic(auto, using(crate::proofs::Kept::buffer_passes, crate::proofs::Kept::gap_passes))]
pub fn in_force_stays()
    ensures buffer { (h : List Item) (b : Buffer) → in_force (h ++ Buf b ∷ []) ≡ in_force h }
    ensures gap { (h : List Item) (pts duration : ℕ) → in_force (h ++ Ev (Gap pts duration) ∷ []) ≡ in_force h }
{}

/// Gives up what a slot holds for something else.
fn fill(slot: &mut Option<Event>, event: Option<Event>)
    ensures { slot.new ≡ event }
{
    *slot = event;
}

/// Puts a copy of what a slot holds behind the events.
fn add_copy(
    alloc: Global,
    events: &mut List<Event>,
    slot: &Option<Event>,
) -> Result<(), OutOfMemory>
    ensures { OnOk result (map Ev events.new ≡ map Ev events.old ++ held slot.now) }
{
    match slot {
        None => Ok(()),
        Some(event) => events.push(alloc, event.copy(alloc)?),
    }
}

/// What a slot holds, once more.
fn copy_slot(alloc: Global, slot: &Option<Event>) -> Result<Option<Event>, OutOfMemory>
    ensures { IfOk result (λ made. made ≡ slot.now) }
{
    match slot {
        None => Ok(None),
        Some(event) => Ok(Some(event.copy(alloc)?)),
    }
}
