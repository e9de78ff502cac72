//! Sink pads.
ghost use Rattle.std.specs.Prelude.{◌≡◌, ◌++◌, ◌∷◌, [], List, Option, None, Some, min, length, false};
ghost use Rattle.pad_core.specs.Item.{Item};

use gst_item::{Flow, Item};

/// A sink pad of an element: it says whether an item is accepted.
#[derive(Drop)]
pub struct SinkPad {
    number: u32,
    peer: Option<u32>,
    active: bool,
    flushing: bool,
    /// How many items were accepted, up to the largest number of 64 bits.
    accepted: u64,
    /// Whether EOS was accepted since the last FLUSH_STOP.
    ended: bool,
}

impl SinkPad {
    ghost use Rattle.pad_core.specs.SinkPad.{AcceptedBy, sink_state, sink_behind, accepted_of, flow, flow_for};
    ghost use Rattle.pad_core.specs.Linking.{has_peer};
    ghost use Rattle.pad_core.specs.Crossing.{has_ended};

    /// The pad of this number that accepted nothing. It has no link, and it is not flushing.
    pub fn new(number: u32, active: bool) -> SinkPad
        ensures history { AcceptedBy result [] }
        ensures state { sink_state result ≡ record { number = number; peer = None; active = active; flushing = false } }
    {
        SinkPad {
            number,
            peer: None,
            active,
            flushing: false,
            accepted: 0,
            ended: false,
        }
    }

    /// Whether an item is accepted: not where the pad is not active, or where it is flushing and the item is no
    /// FLUSH_STOP (`Flow::Flushing`), nor behind EOS up to the next FLUSH_STOP (`Flow::Eos`). A FLUSH_STOP that is
    /// accepted ends flushing.
    pub fn accept(&mut self, item: &Item) -> Flow
        ensures answer { (h : List Item) → AcceptedBy self.old h → result ≡ flow (sink_state self.old) h item.now }
        ensures history { (h : List Item) → AcceptedBy self.old h → AcceptedBy self.new (h ++ accepted_of result item.now) }
        ensures state { sink_state self.new ≡ sink_behind result item.now (sink_state self.old) }
        ensures stays { accepted_of result item.now ≡ [] → self.new ≡ self.old }
    {
        let flow = self.flow(item);
        if flow == Flow::Ok {
            self.take(item);
        }
        flow
    }

    /// Takes or gives back what makes the pad let items pass.
    pub fn set_active(&mut self, active: bool)
        ensures state { sink_state self.new ≡ record (sink_state self.old) { active = active } }
        ensures history { (h : List Item) → AcceptedBy self.old h → AcceptedBy self.new h }
    {
        self.active = active;
    }

    /// Begins a flush, which the next FLUSH_STOP ends, or ends it.
    pub fn set_flushing(&mut self, flushing: bool)
        ensures state { sink_state self.new ≡ record (sink_state self.old) { flushing = flushing } }
        ensures history { (h : List Item) → AcceptedBy self.old h → AcceptedBy self.new h }
    {
        self.flushing = flushing;
    }

    /// Undoes its link. The source pad is to be told too.
    pub fn unlink(&mut self)
        ensures state { sink_state self.new ≡ record (sink_state self.old) { peer = None } }
        ensures history { (h : List Item) → AcceptedBy self.old h → AcceptedBy self.new h }
    {
        self.peer = None;
    }

    /// Its number.
    pub fn number(&self) -> u32
        ensures { result ≡ (sink_state self.now).number }
    {
        self.number
    }

    /// The number of the source pad that it is linked to.
    pub fn peer(&self) -> Option<u32>
        ensures { result ≡ (sink_state self.now).peer }
    {
        self.peer
    }

    /// Whether it is linked.
    pub fn is_linked(&self) -> bool
        ensures { result ≡ has_peer (sink_state self.now).peer }
    {
        self.peer.is_some()
    }

    /// Whether it is active.
    pub fn is_active(&self) -> bool
        ensures { result ≡ (sink_state self.now).active }
    {
        self.active
    }

    /// Whether it is flushing.
    pub fn is_flushing(&self) -> bool
        ensures { result ≡ (sink_state self.now).flushing }
    {
        self.flushing
    }

    /// How many items it accepted, up to the largest number of 64 bits.
    pub fn accepted(&self) -> u64
        ensures { (h : List Item) → AcceptedBy self.now h → result ≡ min (length h) 18446744073709551615 }
    {
        self.accepted
    }

    /// Whether it accepted EOS since the last FLUSH_STOP.
    pub fn has_ended(&self) -> bool
        ensures { (h : List Item) → AcceptedBy self.now h → result ≡ has_ended h }
    {
        self.ended
    }

    /// The answer to an item.
    fn flow(&self, item: &Item) -> Flow
        ensures { result ≡ flow_for (sink_state self.now) self.now.ended item.now }
    {
        let flush_stop = item.is_flush_stop();
        if !self.active || (self.flushing && !flush_stop) {
            return Flow::Flushing;
        }
        if self.ended && !flush_stop {
            return Flow::Eos;
        }
        Flow::Ok
    }

    /// Counts an item that is accepted.
    fn take(&mut self, item: &Item)
        ensures history { (h : List Item) → AcceptedBy self.old h → AcceptedBy self.new (h ++ item.now ∷ []) }
        ensures state { sink_state self.new ≡ sink_behind Flow.Ok item.now (sink_state self.old) }
    {
        self.accepted = self.accepted.saturating_add(1);
        if item.is_flush_stop() {
            self.flushing = false;
            self.ended = false;
        } else if item.is_eos() {
            self.ended = true;
        }
    }

    /// Links it to the source pad of this number.
    pub(crate) fn set_peer(&mut self, peer: u32)
        ensures state { sink_state self.new ≡ record (sink_state self.old) { peer = Some peer } }
        ensures history { (h : List Item) → AcceptedBy self.old h → AcceptedBy self.new h }
    {
        self.peer = Some(peer);
    }
}
