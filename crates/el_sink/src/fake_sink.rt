//! The sink that passes over all, as GStreamer's fakesink.
ghost use Rattle.std.specs.Prelude.{◌≡◌, List, [], ◌∷◌, ◌++◌};
ghost use Rattle.flow_model.specs.Item.{Item};
ghost use Rattle.el_sink.specs.Ended.{flow_behind};
ghost use Rattle.el_sink.specs.Passed.{Passed};

use gst_item::{Event, Flow, Item};

/// Takes each item and does nothing with it, but that it knows whether the stream has ended.
#[derive(Drop)]
pub struct FakeSink {
    ended: bool,
}

impl FakeSink {
    /// A sink that was given nothing yet.
    pub fn new() -> FakeSink
        ensures { Passed result [] }
    {
        FakeSink { ended: false }
    }

    /// Takes an item. Behind EOS, up to the next FLUSH_STOP, the answer is `Flow::Eos`, and else `Flow::Ok`.
    pub fn render(&mut self, item: &Item) -> Flow
        ensures passed { (h : List Item) → Passed self.old h → Passed self.new (h ++ item.now ∷ []) }
        ensures flow { (h : List Item) → Passed self.old h → result ≡ flow_behind h item.now }
    {
        match item {
            Item::Event(Event::FlushStop { .. }) => {
                self.ended = false;
                Flow::Ok
            }
            _ if self.ended => Flow::Eos,
            Item::Event(Event::Eos) => {
                self.ended = true;
                Flow::Ok
            }
            _ => Flow::Ok,
        }
    }
}
