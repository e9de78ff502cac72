//! Source pads.
ghost use Rattle.std.specs.Prelude.{◌≡◌, ◌+◌, ◌<◌, ◌≤◌, ◌^◌, ◌++◌, ◌∷◌, [], ℕ, List, Bool, false, true, map, Some, None, IsSome, IsTrue, IfOk, OnErr, length};
ghost use Rattle.pad_core.specs.Item.{Item, Buf, Ev, Buffer, Event as PadEvent, Gap, FlushStop, is_sticky, is_flush_stop, buffers};
ghost use Rattle.gst_item.specs.Sticky.{in_force, stickies};
ghost use Rattle.pad_core.specs.declared.last.Last.TheVariants.{Nothing as NotAny, Buffer as BufferLast};
ghost use Rattle.pad_core.specs.Counts.{last_buffers, last_events, is_apart, IsStickyKept, AreSticky};

use crate::crossing::Crossing;
use crate::last::{Last, replace_last, take};
use crate::probe::Probe;
use gst_item::{Event, Item, Sticky};
use gst_value::{List, OutOfMemory};
use std::alloc::Global;
use std::collections::VecDeque;

/// A source pad of an element: it counts what crosses it, keeps the sticky events of that, and says where an
/// item goes.
#[derive(Drop)]
pub struct SrcPad {
    number: u32,
    peer: Option<u32>,
    active: bool,
    flushing: bool,
    probe: Option<Probe>,
    /// A copy of the sticky event that is to cross next.
    kept: Option<Event>,
    /// How many items crossed.
    crossed: u64,
    /// How many of them were buffers.
    buffers: u64,
    /// Whether EOS crossed since the last FLUSH_STOP.
    ended: bool,
    /// The item that crossed last, if its crossing can be taken back.
    last: Last,
    /// The sticky events of all that crossed before that item.
    settled: Sticky,
    ghost last_buffer: { last_buffers last ≤ buffers },
    ghost among: { buffers + last_events last ≤ crossed },
    ghost apart: { IsTrue (is_apart last) },
}

impl SrcPad {
    ghost use Rattle.pad_core.specs.Crossing.{WasKept, crossing, crossing_for, counted_of, state_behind, behind_item, has_ended, stopped_by, goes_to, unless_stopped};
    ghost use Rattle.pad_core.specs.SrcPad.{CrossedBy, state_of, crossed_of, before};
    ghost use Rattle.pad_core.specs.Linking.{has_peer};

    /// The pad of this number that nothing crossed. It has no link and no probe, and it is not flushing.
    pub fn new(number: u32, active: bool) -> SrcPad
        ensures history { CrossedBy result [] }
        ensures state { state_of result ≡ record { number = number; peer = None; active = active; flushing = false; probe = None; kept = None } }
        ensures crossed { crossed_of result ≡ 0 }
    {
        SrcPad {
            number,
            peer: None,
            active,
            flushing: false,
            probe: None,
            kept: None,
            crossed: 0,
            buffers: 0,
            ended: false,
            last: Last::Nothing,
            settled: Sticky::new(),
        }
    }

    /// Lays by a copy of a sticky event that is to cross next.
    pub fn keep(&mut self, alloc: Global, event: &Event) -> Result<(), OutOfMemory>
        ensures ok { IfOk result (λ _. state_of self.new ≡ record (state_of self.old) { kept = Some event.now }) }
        ensures history { (h : List Item) → CrossedBy self.old h → CrossedBy self.new h }
        ensures crossed { crossed_of self.new ≡ crossed_of self.old }
        ensures stays { OnErr result (self.new ≡ self.old) }
    {
        let copy = event.copy(alloc)?;
        self.kept = Some(copy);
        Ok(())
    }

    /// Whether an item crosses, and where it goes; `sibling` says whether another pad of the element is linked.
    /// An item that crosses is counted. A FLUSH_STOP that crosses ends flushing and EOS. A sticky event stays in
    /// force.
    #[inline(always)]
    pub fn cross(&mut self, item: &Item, sibling: bool) -> Crossing
        requires kept { WasKept (state_of self.old).kept item.now }
        requires few { crossed_of self.old < 2 ^ 41 }
        ensures answer { (h : List Item) → CrossedBy self.old h → result ≡ crossing (state_of self.old) h sibling item.now }
        ensures history { (h : List Item) → CrossedBy self.old h → CrossedBy self.new (h ++ counted_of result item.now) }
        ensures state { state_of self.new ≡ state_behind result item.now (state_of self.old) }
        ensures crossed { crossed_of self.new ≡ crossed_of self.old + length (counted_of result item.now) }
        ensures stays { counted_of result item.now ≡ [] → self.new ≡ self.old }
        ensures back { counted_of result item.now ≡ item.now ∷ [] → is_flush_stop item.now ≡ false → before self.new ≡ Some (state_of self.old) }
    {
        let answer = self.answer(item, sibling);
        if matches!(answer, Crossing::Alone | Crossing::Go(_)) {
            self.count(item);
        }
        answer
    }

    /// Takes the last crossing back, where the last call was a `cross` that counted an item other than
    /// FLUSH_STOP. The pad is then as before it.
    pub fn take_back(&mut self)
        requires { IsSome (before self.old) }
        ensures state { before self.old ≡ Some (state_of self.new) }
        ensures history { (h : List Item) (x : Item) → CrossedBy self.old (h ++ x ∷ []) → CrossedBy self.new h }
        ensures crossed { crossed_of self.new + 1 ≡ crossed_of self.old }
    {
        self.crossed -= 1;
        self.ended = false;
        match take(&mut self.last) {
            Last::Buffer => self.buffers -= 1,
            Last::Sticky(event) => self.kept = Some(event),
            Last::Nothing | Last::Gap => {}
        }
    }

    /// Sets the probe of a command, which stops the buffer behind so many.
    pub fn block(&mut self, command: u32, buffers: u64)
        ensures state { state_of self.new ≡ record (state_of self.old) { probe = Some (record { command = command; buffers = buffers }) } }
        ensures history { (h : List Item) → CrossedBy self.old h → CrossedBy self.new h }
        ensures crossed { crossed_of self.new ≡ crossed_of self.old }
    {
        self.probe = Some(Probe { command, buffers });
    }

    /// Takes the probe away.
    pub fn unblock(&mut self)
        ensures state { state_of self.new ≡ record (state_of self.old) { probe = None } }
        ensures history { (h : List Item) → CrossedBy self.old h → CrossedBy self.new h }
        ensures crossed { crossed_of self.new ≡ crossed_of self.old }
    {
        self.probe = None;
    }

    /// Takes or gives back what makes the pad let items pass.
    pub fn set_active(&mut self, active: bool)
        ensures state { state_of self.new ≡ record (state_of self.old) { active = active } }
        ensures history { (h : List Item) → CrossedBy self.old h → CrossedBy self.new h }
        ensures crossed { crossed_of self.new ≡ crossed_of self.old }
    {
        self.active = active;
    }

    /// Begins a flush, which the next FLUSH_STOP ends, or ends it.
    pub fn set_flushing(&mut self, flushing: bool)
        ensures state { state_of self.new ≡ record (state_of self.old) { flushing = flushing } }
        ensures history { (h : List Item) → CrossedBy self.old h → CrossedBy self.new h }
        ensures crossed { crossed_of self.new ≡ crossed_of self.old }
    {
        self.flushing = flushing;
    }

    /// Undoes its link. The sink pad is to be told too.
    pub fn unlink(&mut self)
        ensures state { state_of self.new ≡ record (state_of self.old) { peer = None } }
        ensures history { (h : List Item) → CrossedBy self.old h → CrossedBy self.new h }
        ensures crossed { crossed_of self.new ≡ crossed_of self.old }
    {
        self.peer = None;
    }

    /// Its number.
    pub fn number(&self) -> u32
        ensures { result ≡ (state_of self.now).number }
    {
        self.number
    }

    /// The number of the sink pad that it is linked to.
    pub fn peer(&self) -> Option<u32>
        ensures { result ≡ (state_of self.now).peer }
    {
        self.peer
    }

    /// Whether it is linked.
    pub fn is_linked(&self) -> bool
        ensures { result ≡ has_peer (state_of self.now).peer }
    {
        self.peer.is_some()
    }

    /// Whether it is active.
    pub fn is_active(&self) -> bool
        ensures { result ≡ (state_of self.now).active }
    {
        self.active
    }

    /// Whether it is flushing.
    pub fn is_flushing(&self) -> bool
        ensures { result ≡ (state_of self.now).flushing }
    {
        self.flushing
    }

    /// Its probe.
    pub fn probe(&self) -> Option<Probe>
        ensures { result ≡ (state_of self.now).probe }
    {
        self.probe
    }

    /// How many items crossed it, events counted: the place that it has reached.
    pub fn crossed(&self) -> u64
        ensures number { result ≡ crossed_of self.now }
        ensures history { (h : List Item) → CrossedBy self.now h → result ≡ length h }
    {
        self.crossed
    }

    /// How many buffers crossed it.
    pub fn buffers(&self) -> u64
        ensures { (h : List Item) → CrossedBy self.now h → result ≡ buffers h }
    {
        self.buffers
    }

    /// Whether EOS crossed it since the last FLUSH_STOP.
    pub fn has_ended(&self) -> bool
        ensures { (h : List Item) → CrossedBy self.now h → result ≡ has_ended h }
    {
        self.ended
    }

    /// Copies of the sticky events in force, in the order STREAM_START, CAPS, SEGMENT, TAG, EOS: what a sink pad
    /// gets first on a new link.
    pub fn stickies(&self, alloc: Global) -> Result<List<Event>, OutOfMemory>
        ensures { IfOk result (λ events. (h : List Item) → CrossedBy self.now h → map Ev events ≡ stickies h) }
    {
        let settled = self.settled.list(alloc)?;
        match &self.last {
            Last::Sticky(event) => with_one(alloc, settled, event.copy(alloc)?),
            Last::Nothing | Last::Buffer | Last::Gap => Ok(settled),
        }
    }

    /// The answer to an item.
    #[inline(always)]
    fn answer(&self, item: &Item, sibling: bool) -> Crossing
        ensures { result ≡ crossing_for (state_of self.now) self.now.ended self.now.buffers sibling item.now }
    {
        let flush_stop = item.is_flush_stop();
        if !self.active || (self.flushing && !flush_stop) {
            return Crossing::Flushing;
        }
        if self.ended && !flush_stop {
            return Crossing::Eos;
        }
        match item {
            Item::Buffer(_) => self.answer_buffer(sibling),
            Item::Event(_) => self.answer_event(),
        }
    }

    /// The answer to a buffer, where the pad is open.
    #[inline(always)]
    fn answer_buffer(&self, sibling: bool) -> Crossing
        ensures { (b : Buffer) → result ≡ unless_stopped (stopped_by self.now.probe self.now.buffers (Buf b)) (goes_to self.now.peer sibling (Buf b)) }
    {
        if let Some(probe) = self.probe {
            if probe.buffers == self.buffers {
                return Crossing::AtProbe(probe.command);
            }
        }
        match self.peer {
            Some(peer) => Crossing::Go(peer),
            None if sibling => Crossing::Alone,
            None => Crossing::NotLinked,
        }
    }

    /// The answer to an event, where the pad is open.
    #[inline(always)]
    fn answer_event(&self) -> Crossing
        ensures { (e : PadEvent) (sibling : Bool) → result ≡ goes_to self.now.peer sibling (Ev e) }
    {
        match self.peer {
            Some(peer) => Crossing::Go(peer),
            None => Crossing::Alone,
        }
    }

    /// Counts an item that crosses.
    #[inline(always)]
    fn count(&mut self, item: &Item)
        requires kept { WasKept (state_of self.old).kept item.now }
        requires few { crossed_of self.old < 2 ^ 41 }
        requires not_ended { is_flush_stop item.now ≡ false → self.old.ended ≡ false }
        ensures history { (h : List Item) → CrossedBy self.old h → CrossedBy self.new (h ++ item.now ∷ []) }
        ensures state { state_of self.new ≡ behind_item item.now (state_of self.old) }
        ensures crossed { crossed_of self.new ≡ crossed_of self.old + 1 }
        ensures back { is_flush_stop item.now ≡ false → before self.new ≡ Some (state_of self.old) }
    {
        if matches!(item, Item::Buffer(_)) && self.is_behind_buffer() {
            return self.count_next_buffer();
        }
        self.settle();
        match item {
            Item::Buffer(_) => self.count_buffer(),
            Item::Event(event) => self.count_event(event),
        }
    }

    /// Whether a buffer crossed last, and can be taken back.
    #[inline(always)]
    fn is_behind_buffer(&self) -> bool
        ensures { result ≡ true → self.now.last ≡ BufferLast }
    {
        matches!(self.last, Last::Buffer)
    }

    /// Counts a buffer behind a buffer: what can be taken back is one buffer again.
    #[inline(always)]
    fn count_next_buffer(&mut self)
        requires few { self.old.crossed < 2 ^ 41 }
        requires behind { self.old.last ≡ BufferLast }
        requires not_ended { self.old.ended ≡ false }
        ensures history { (h : List Item) (b : Buffer) → CrossedBy self.old h → CrossedBy self.new (h ++ Buf b ∷ []) }
        ensures state { state_of self.new ≡ state_of self.old }
        ensures back { before self.new ≡ Some (state_of self.old) }
        ensures crossed { self.new.crossed ≡ self.old.crossed + 1 }
    {
        self.crossed += 1;
        self.buffers += 1;
    }

    /// Counts a buffer.
    fn count_buffer(&mut self)
        requires few { self.old.crossed < 2 ^ 41 }
        requires settled { self.old.last ≡ NotAny }
        requires not_ended { self.old.ended ≡ false }
        ensures history { (h : List Item) (b : Buffer) → CrossedBy self.old h → CrossedBy self.new (h ++ Buf b ∷ []) }
        ensures state { state_of self.new ≡ state_of self.old }
        ensures back { before self.new ≡ Some (state_of self.old) }
        ensures crossed { self.new.crossed ≡ self.old.crossed + 1 }
    {
        self.crossed += 1;
        self.buffers += 1;
        replace_last(&mut self.last, Last::Buffer);
    }

    /// Counts an event.
    fn count_event(&mut self, event: &Event)
        requires kept { WasKept self.old.kept (Ev event.now) }
        requires few { self.old.crossed < 2 ^ 41 }
        requires settled { self.old.last ≡ NotAny }
        requires not_ended { is_flush_stop (Ev event.now) ≡ false → self.old.ended ≡ false }
        ensures history { (h : List Item) → CrossedBy self.old h → CrossedBy self.new (h ++ Ev event.now ∷ []) }
        ensures state { state_of self.new ≡ behind_item (Ev event.now) (state_of self.old) }
        ensures crossed { self.new.crossed ≡ self.old.crossed + 1 }
        ensures back { is_flush_stop (Ev event.now) ≡ false → before self.new ≡ Some (state_of self.old) }
    {
        match event {
            Event::FlushStop { .. } => self.count_flush_stop(),
            Event::Gap { .. } => self.count_gap(),
            _ => self.count_sticky(matches!(event, Event::Eos)),
        }
    }

    /// Counts a FLUSH_STOP.
    fn count_flush_stop(&mut self)
        requires few { self.old.crossed < 2 ^ 41 }
        requires settled { self.old.last ≡ NotAny }
        ensures history { (h : List Item) (number : ℕ) → CrossedBy self.old h → CrossedBy self.new (h ++ Ev (FlushStop number) ∷ []) }
        ensures state { state_of self.new ≡ record (state_of self.old) { flushing = false } }
        ensures crossed { self.new.crossed ≡ self.old.crossed + 1 }
    {
        self.crossed += 1;
        self.flushing = false;
        self.ended = false;
        self.settled.clear_flush();
    }

    /// Counts a GAP.
    fn count_gap(&mut self)
        requires few { self.old.crossed < 2 ^ 41 }
        requires settled { self.old.last ≡ NotAny }
        requires not_ended { self.old.ended ≡ false }
        ensures history { (h : List Item) (pts duration : ℕ) → CrossedBy self.old h → CrossedBy self.new (h ++ Ev (Gap pts duration) ∷ []) }
        ensures state { state_of self.new ≡ state_of self.old }
        ensures back { before self.new ≡ Some (state_of self.old) }
        ensures crossed { self.new.crossed ≡ self.old.crossed + 1 }
    {
        self.crossed += 1;
        replace_last(&mut self.last, Last::Gap);
    }

    /// Counts the sticky event of which a copy was laid by; `ends` says whether it is EOS.
    fn count_sticky(&mut self, ends: bool)
        requires kept { IsStickyKept ends self.old.kept }
        requires few { self.old.crossed < 2 ^ 41 }
        requires settled { self.old.last ≡ NotAny }
        requires not_ended { self.old.ended ≡ false }
        ensures history { (h : List Item) (e : PadEvent) → self.old.kept ≡ Some e → CrossedBy self.old h → CrossedBy self.new (h ++ Ev e ∷ []) }
        ensures state { state_of self.new ≡ record (state_of self.old) { kept = None } }
        ensures back { before self.new ≡ Some (state_of self.old) }
        ensures crossed { self.new.crossed ≡ self.old.crossed + 1 }
    {
        let Some(event) = self.kept.take() else {
            unreachable!()
        };
        self.crossed += 1;
        self.ended = ends;
        replace_last(&mut self.last, Last::Sticky(event));
    }

    /// Puts the sticky event that crossed last among the settled ones.
    fn settle(&mut self)
        ensures settled { self.new.last ≡ NotAny }
        ensures history { (h : List Item) → CrossedBy self.old h → CrossedBy self.new h }
        ensures state { state_of self.new ≡ state_of self.old }
        ensures crossed { self.new.crossed ≡ self.old.crossed }
        ensures ended { self.new.ended ≡ self.old.ended }
    {
        match take(&mut self.last) {
            Last::Sticky(event) => self.settled.set(event),
            Last::Nothing | Last::Buffer | Last::Gap => {}
        }
    }

    /// Links it to the sink pad of this number.
    pub(crate) fn set_peer(&mut self, peer: u32)
        ensures state { state_of self.new ≡ record (state_of self.old) { peer = Some peer } }
        ensures history { (h : List Item) → CrossedBy self.old h → CrossedBy self.new h }
        ensures crossed { crossed_of self.new ≡ crossed_of self.old }
    {
        self.peer = Some(peer);
    }
}

/// The events in force behind one more.
fn with_one(alloc: Global, events: List<Event>, one: Event) -> Result<List<Event>, OutOfMemory>
    requires { IsTrue (is_sticky one) }
    ensures { IfOk result (λ made. AreSticky events → map Ev made ≡ stickies (map Ev events ++ Ev one ∷ [])) }
{
    let mut sticky = Sticky::new();
    let mut rest = VecDeque::from(events.into_vec());
    set_all(&mut sticky, &mut rest);
    sticky.set(one);
    sticky.list(alloc)
}

/// Sets those of the events that are sticky, in their order.
fn set_all(sticky: &mut Sticky, events: &mut VecDeque<Event>)
    ensures { (h : List Item) → sticky.old ≡ in_force h → AreSticky events.old.items → sticky.new ≡ in_force (h ++ map Ev events.old.items) }
{
    while let Some(event) = events.pop_front() {
        if event.is_sticky() {
            sticky.set(event);
        }
    }
}
