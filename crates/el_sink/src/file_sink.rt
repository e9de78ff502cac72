//! The sink that writes a file, as GStreamer's filesink.
ghost use Rattle.std.specs.Prelude.{◌≡◌, ◌≤◌, Bool, List, [], ◌∷◌, ◌++◌, IfOk, OnOk, OnErr, IfErr};
ghost use Rattle.flow_model.specs.SinkBytes.{Disk, at_segment};

use crate::fault::WriteFault;
use crate::writing::{length_behind, write_body};
use gst_item::{Event, Flow, Item};
use gst_outside::{Failed, Sink};
use gst_time::{Format, Segment};

/// Writes each body at its place, which a SEGMENT in bytes sets. A FLUSH_STOP empties the file, unless it is
/// kept.
#[derive(Drop)]
pub struct FileSink<K> {
    sink: K,
    keep: bool,
    place: u64,
    len: u64,
    ended: bool,
}

impl<K: Sink> FileSink<K> {
    ghost use Rattle.std.specs.Option.{ForSome};
    ghost use Rattle.flow_model.specs.Item.{Item, body_of};
    ghost use Rattle.flow_model.specs.SinkBytes.{reopened, next_disk};
    ghost use Rattle.el_sink.specs.Cause.{IsWriteCause};
    ghost use Rattle.el_sink.specs.Ended.{flow_for, flow_behind};
    ghost use Rattle.el_sink.specs.Held.{IsDisk, IsPartOf, Held, HeldPart, sink_of, length_of, wrote};

    /// A sink that was given nothing yet, over an empty file; `keep` says whether a flush keeps the bytes.
    pub fn new(sink: K, keep: bool) -> FileSink<K>
        ensures held { ForSome (K.bytes sink) (λ b. b ≡ []) → Held K.bytes keep result [] }
        ensures sink { sink_of result ≡ sink }
        ensures empty { length_of result ≡ 0 }
    {
        FileSink {
            sink,
            keep,
            place: 0,
            len: 0,
            ended: false,
        }
    }

    /// Takes an item. Behind EOS, up to the next FLUSH_STOP, the answer is `Flow::Eos` and nothing is written,
    /// and else it is `Flow::Ok`. Where a write failed the bytes that were written before it stand.
    pub fn render(&mut self, item: &Item) -> Result<Flow, WriteFault>
        ensures held { OnOk result ((keep : Bool) (h : List Item) → Held K.bytes keep self.old h → Held K.bytes keep self.new (h ++ item.now ∷ [])) }
        ensures flow { IfOk result (λ flow. (keep : Bool) (h : List Item) → Held K.bytes keep self.old h → flow ≡ flow_behind h item.now) }
        ensures part { OnErr result ((keep : Bool) (h : List Item) → Held K.bytes keep self.old h → HeldPart K.bytes keep self.new h item.now) }
        ensures cause { IfErr result (λ fault. IsWriteCause fault (K.faults (sink_of self.old)) (K.faults (sink_of self.new))) }
        ensures location_stays { K.location (sink_of self.new) ≡ K.location (sink_of self.old) }
        ensures never_falls { K.faults (sink_of self.old) ≤ K.faults (sink_of self.new) }
    {
        self.take_item(item)
    }

    /// The length of the file as it stands, in bytes.
    pub fn len(&self) -> u64
        ensures { result ≡ length_of self.now }
    {
        self.len
    }

    /// What was written to.
    pub fn into_sink(self) -> K
        ensures { result ≡ sink_of self }
    {
        let FileSink { sink, .. } = self;
        sink
    }

    /// Takes an item.
    fn take_item(&mut self, item: &Item) -> Result<Flow, WriteFault>
        ensures keep_stays { self.new.keep ≡ self.old.keep }
        ensures disk { OnOk result ((d : Disk) → IsDisk K.bytes self.old d → IsDisk K.bytes self.new (next_disk self.old.keep d item.now)) }
        ensures flow { IfOk result (λ flow. flow ≡ flow_for self.old.ended item.now) }
        ensures part { OnErr result ((d : Disk) → IsDisk K.bytes self.old d → IsPartOf K.bytes self.new d (body_of item.now)) }
        ensures cause { IfErr result (λ fault. IsWriteCause fault (K.faults self.old.sink) (K.faults self.new.sink)) }
        ensures location_stays { K.location self.new.sink ≡ K.location self.old.sink }
        ensures never_falls { K.faults self.old.sink ≤ K.faults self.new.sink }
    {
        match item {
            Item::Event(Event::FlushStop { .. }) => {
                self.reopen()?;
                Ok(Flow::Ok)
            }
            _ if self.ended => Ok(Flow::Eos),
            Item::Buffer(buffer) => {
                self.write(buffer.body.as_slice())?;
                Ok(Flow::Ok)
            }
            Item::Event(Event::Segment(segment)) => {
                self.place = place_behind(self.place, segment);
                Ok(Flow::Ok)
            }
            Item::Event(Event::Eos) => {
                self.ended = true;
                Ok(Flow::Ok)
            }
            Item::Event(_) => Ok(Flow::Ok),
        }
    }

    /// Opens the stream again, behind a flush.
    fn reopen(&mut self) -> Result<(), WriteFault>
        ensures keep_stays { self.new.keep ≡ self.old.keep }
        ensures disk { OnOk result ((d : Disk) → IsDisk K.bytes self.old d → IsDisk K.bytes self.new (reopened self.old.keep d)) }
        ensures stays { OnErr result ((d : Disk) → IsDisk K.bytes self.old d → IsDisk K.bytes self.new d) }
        ensures cause { IfErr result (λ fault. IsWriteCause fault (K.faults self.old.sink) (K.faults self.new.sink)) }
        ensures location_stays { K.location self.new.sink ≡ K.location self.old.sink }
        ensures never_falls { K.faults self.old.sink ≤ K.faults self.new.sink }
    {
        if self.keep {
            self.ended = false;
            return Ok(());
        }
        let before = self.sink.faults();
        match self.sink.cut(0) {
            Ok(()) => {
                self.place = 0;
                self.len = 0;
                self.ended = false;
                Ok(())
            }
            Err(Failed) => Err(WriteFault {
                before,
                after: self.sink.faults(),
            }),
        }
    }

    /// Writes a body at the place.
    fn write(&mut self, body: &[u8]) -> Result<(), WriteFault>
        ensures keep_stays { self.new.keep ≡ self.old.keep }
        ensures disk { OnOk result ((d : Disk) → IsDisk K.bytes self.old d → IsDisk K.bytes self.new (wrote d body.now)) }
        ensures part { OnErr result ((d : Disk) → IsDisk K.bytes self.old d → IsPartOf K.bytes self.new d body.now) }
        ensures cause { IfErr result (λ fault. IsWriteCause fault (K.faults self.old.sink) (K.faults self.new.sink)) }
        ensures location_stays { K.location self.new.sink ≡ K.location self.old.sink }
        ensures never_falls { K.faults self.old.sink ≤ K.faults self.new.sink }
    {
        let before = self.sink.faults();
        let count = write_body(&mut self.sink, self.place, body);
        self.len = length_behind(self.len, self.place, count);
        if count < body.len() {
            return Err(WriteFault {
                before,
                after: self.sink.faults(),
            });
        }
        self.place += count as u64;
        Ok(())
    }
}

/// The place of the next body behind a segment.
fn place_behind(place: u64, segment: &Segment) -> u64
    ensures { (d : Disk) → place ≡ d.place → result ≡ (at_segment d segment.now segment.now.format).place }
{
    match segment.format {
        Format::Bytes => segment.start,
        Format::Time => place,
    }
}
