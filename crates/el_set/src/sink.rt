//! The elements in which a stream ends.
ghost use Rattle.std.specs.Prelude.{◌≡◌, Bool, List, [], ◌∷◌, ◌++◌, IfOk, OnOk, OnErr, IfErr};
ghost use Rattle.flow_model.specs.Item.{Item as PadItem};

use el_sink::{FakeSink, FileSink, WriteFault};
use gst_item::{Flow, Item};
use gst_outside::Sink;

/// An element with one sink pad and no source pad.
#[derive(Drop)]
pub enum SinkElement<K> {
    File(FileSink<K>),
    Fake(FakeSink),
}

impl<K: Sink> SinkElement<K> {
    ghost use Rattle.el_sink.specs.Ended.{flow_behind};
    ghost use Rattle.gst_outside.specs.Causes.{NeverFalls};
    ghost use Rattle.el_set.specs.Holds.{SinkHeld, SinkPart, SinkCause, sink_len, sink_file, sink_faults, sink_location};

    /// Takes an item. Behind EOS, up to the next FLUSH_STOP, the answer is `Flow::Eos` and nothing is written, and
    /// else it is `Flow::Ok`. Where a write failed the bytes that were written before it stand. Takes no memory.
    pub fn render(&mut self, item: &Item) -> Result<Flow, WriteFault>
        ensures held { OnOk result ((keep : Bool) (list : List PadItem) → SinkHeld K.bytes keep self.old list
            → SinkHeld K.bytes keep self.new (list ++ item.now ∷ [])) }
        ensures flow { IfOk result (λ flow. (keep : Bool) (list : List PadItem) → SinkHeld K.bytes keep self.old list → flow ≡ flow_behind list item.now) }
        ensures part { OnErr result ((keep : Bool) (list : List PadItem) → SinkHeld K.bytes keep self.old list → SinkPart K.bytes keep self.new list item.now) }
        ensures cause { IfErr result (λ fault. SinkCause (sink_faults K.faults self.old) (sink_faults K.faults self.new) fault) }
        ensures location_stays { sink_location K.location self.new ≡ sink_location K.location self.old }
        ensures never_falls { NeverFalls (sink_faults K.faults self.old) (sink_faults K.faults self.new) }
    {
        match self {
            SinkElement::File(file) => file.render(item),
            SinkElement::Fake(fake) => Ok(fake.render(item)),
        }
    }

    /// The length of the file as it stands, in bytes. None where it writes no file.
    pub fn len(&self) -> Option<u64>
        ensures { result ≡ sink_len self.now }
    {
        match self {
            SinkElement::File(file) => Some(file.len()),
            SinkElement::Fake(_) => None,
        }
    }

    /// What was written to, where it writes a file.
    pub fn into_sink(self) -> Option<K>
        ensures { result ≡ sink_file self }
    {
        let SinkElement::File(file) = self else {
            return None;
        };
        Some(file.into_sink())
    }
}
