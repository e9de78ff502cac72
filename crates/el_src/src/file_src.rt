//! The source that reads a file in blocks, as GStreamer's filesrc.
ghost use Rattle.std.specs.Prelude.{◌≡◌, ◌≤◌, ◌<◌, ◌^◌, ◌+◌, ◌*◌, ℕ, List, [], ◌∷◌, length, Some, None, Ok, take, drop, false, IsOk, IfOk, OnOk, OnErr, IfErr};
ghost use Rattle.flow_model.specs.Source.{bytes_segment};

use crate::answer::Next;
use crate::block::read_block;
use crate::fault::{SizeFault, SrcFault};
use gst_item::{Body, Buffer, Event, Item};
use gst_outside::{Failed, Source};
use gst_time::{Format, Segment};
use std::alloc::Global;

/// The largest size of a block, in bytes.
pub const LARGEST_BLOCKSIZE: u32 = 1_048_576;

/// What a source gives next.
#[derive(Clone, Copy)]
enum Phase {
    Start,
    Segment,
    Blocks,
    Eos,
    Ended,
}

/// Gives STREAM_START, a SEGMENT in bytes, what is read in blocks of a size in bytes, the last of which may be
/// shorter, and EOS.
#[derive(Drop)]
pub struct FileSrc<S> {
    source: S,
    id: u32,
    blocksize: u32,
    place: u64,
    items: u64,
    phase: Phase,
    ghost some: { 1 ≤ blocksize },
    ghost small: { blocksize ≤ 2 ^ 20 },
    ghost reach: { place ≤ 2 ^ 62 + items * 2 ^ 20 },
}

impl<S: Source> FileSrc<S> {
    ghost use Rattle.flow_model.specs.Item.{Item, is_eos, eos_among};
    ghost use Rattle.flow_model.specs.Source.{file_list};
    ghost use Rattle.el_src.specs.Cause.{IsSrcCause, IsSizeCause};
    ghost use Rattle.el_src.specs.Gave.{Gave, AfterNext, source_of, items_given, items_after, is_ended, is_over, still_to_come, ended_at};
    ghost use Rattle.el_src.specs.Short.{StopsShort};
    ghost use Rattle.el_src.specs.declared.fault.SrcFault.TheVariants.{OutOfMemory as Wanting};
    ghost use Rattle.el_src.specs.declared.file_src.Phase.TheVariants.{Blocks as InBlocks};
    ghost use Rattle.std.specs.Option.{ForSome};

    /// A source that was asked for nothing yet, of the number `id`, over what it reads.
    pub fn new(source: S, blocksize: u32, id: u32) -> FileSrc<S>
        requires some { 1 ≤ blocksize }
        requires small { blocksize ≤ 2 ^ 20 }
        ensures gave { Gave S.content result (file_list id blocksize) [] }
        ensures source { source_of result ≡ source }
        ensures none { items_given result ≡ 0 }
    {
        FileSrc {
            source,
            id,
            blocksize,
            place: 0,
            items: 0,
            phase: Phase::Start,
        }
    }

    /// The next item. Where it fails nothing was given, and a later call tries once more; a read that failed is never tried
    /// again within a call, nor passed over: it was one of a block, and EOS was not given before.
    #[tactic(auto, using(crate::proofs::Answering::never_err))]
    pub fn next(&mut self, alloc: Global) -> Result<Next, SrcFault>
        requires few { items_given self.old < 2 ^ 41 }
        ensures gave { IfOk result (λ n. (owed : List ℕ → List Item) (h : List Item) → Gave S.content self.old owed h → AfterNext S.content self.new owed h n) }
        ensures ended { IfOk result (λ n. (owed : List ℕ → List Item) (h : List Item) → Gave S.content self.old owed h → is_ended n ≡ eos_among h) }
        ensures kept { OnErr result ((owed : List ℕ → List Item) (h : List Item) → Gave S.content self.old owed h → Gave S.content self.new owed h) }
        ensures counted { items_given self.new ≡ items_after result (items_given self.old) }
        ensures cause { IfErr result (λ fault. IsSrcCause fault (S.faults (source_of self.old)) (S.faults (source_of self.new))) }
        ensures faults_stay { OnOk result (S.faults (source_of self.new) ≡ S.faults (source_of self.old)) }
        ensures short { IfErr result (λ fault. (owed : List ℕ → List Item) (h : List Item) → Gave S.content self.old owed h
            → StopsShort (S.content (source_of self.old)) owed h fault) }
        ensures content_stays { S.content (source_of self.new) ≡ S.content (source_of self.old) }
        ensures location_stays { S.location (source_of self.new) ≡ S.location (source_of self.old) }
        ensures never_falls { S.faults (source_of self.old) ≤ S.faults (source_of self.new) }
    {
        match self.phase {
            Phase::Start => {
                let event = Event::StreamStart { id: self.id };
                self.give(Item::Event(event), self.place, Phase::Segment)
            }
            Phase::Segment => {
                let event = Event::Segment(bytes_from(self.place));
                self.give(Item::Event(event), self.place, Phase::Blocks)
            }
            Phase::Blocks => self.next_block(alloc),
            Phase::Eos => self.give(Item::Event(Event::Eos), self.place, Phase::Ended),
            Phase::Ended => Ok(Next::Ended),
        }
    }

    /// From now on EOS comes next, unless it was given. Takes no memory.
    pub fn end(&mut self)
        ensures gave { (owed : List ℕ → List Item) (h : List Item) → Gave S.content self.old owed h → Gave S.content self.new (ended_at h owed) h }
        ensures count_stays { items_given self.new ≡ items_given self.old }
        ensures source_stays { source_of self.new ≡ source_of self.old }
    {
        if self.is_over() {
            return;
        }
        self.phase = Phase::Eos;
    }

    /// How many bytes there are to read. What comes next stays.
    pub fn size(&mut self) -> Result<u64, SizeFault>
        ensures size { IfOk result (λ n. ForSome (S.content (source_of self.old)) (λ c. n ≡ length c)) }
        ensures gave_stays { (owed : List ℕ → List Item) (h : List Item) → Gave S.content self.old owed h → Gave S.content self.new owed h }
        ensures count_stays { items_given self.new ≡ items_given self.old }
        ensures cause { IfErr result (λ fault. IsSizeCause fault (S.faults (source_of self.old)) (S.faults (source_of self.new))) }
        ensures content_stays { S.content (source_of self.new) ≡ S.content (source_of self.old) }
        ensures location_stays { S.location (source_of self.new) ≡ S.location (source_of self.old) }
        ensures never_falls { S.faults (source_of self.old) ≤ S.faults (source_of self.new) }
    {
        let before = self.source.faults();
        match self.source.size() {
            Ok(size) => Ok(size),
            Err(Failed) => Err(SizeFault {
                before,
                after: self.source.faults(),
            }),
        }
    }

    /// How many items were given since the start or the last seek.
    pub fn items(&self) -> u64
        ensures { result ≡ items_given self.now }
    {
        self.items
    }

    /// What was read.
    pub fn into_source(self) -> S
        ensures { result ≡ source_of self }
    {
        let FileSrc { source, .. } = self;
        source
    }

    /// Whether EOS was given.
    fn is_over(&self) -> bool
        ensures { result ≡ is_over self.now.phase }
    {
        matches!(self.phase, Phase::Ended)
    }

    /// The next block, or EOS where the input ended with the block before.
    fn next_block(&mut self, alloc: Global) -> Result<Next, SrcFault>
        requires few { self.old.items < 2 ^ 41 }
        requires blocks { self.old.phase ≡ InBlocks }
        ensures gave { IfOk result (λ n. (owed : List ℕ → List Item) (h : List Item) → Gave S.content self.old owed h → AfterNext S.content self.new owed h n) }
        ensures ended { IfOk result (λ n. (owed : List ℕ → List Item) (h : List Item) → Gave S.content self.old owed h → is_ended n ≡ eos_among h) }
        ensures kept { OnErr result ((owed : List ℕ → List Item) (h : List Item) → Gave S.content self.old owed h → Gave S.content self.new owed h) }
        ensures counted { items_given self.new ≡ items_after result (items_given self.old) }
        ensures cause { IfErr result (λ fault. IsSrcCause fault (S.faults (source_of self.old)) (S.faults (source_of self.new))) }
        ensures faults_stay { OnOk result (S.faults (source_of self.new) ≡ S.faults (source_of self.old)) }
        ensures short { IfErr result (λ fault. (owed : List ℕ → List Item) (h : List Item) → Gave S.content self.old owed h
            → StopsShort (S.content (source_of self.old)) owed h fault) }
        ensures content_stays { S.content (source_of self.new) ≡ S.content (source_of self.old) }
        ensures location_stays { S.location (source_of self.new) ≡ S.location (source_of self.old) }
        ensures never_falls { S.faults (source_of self.old) ≤ S.faults (source_of self.new) }
    {
        let bytes = read_block(alloc, &mut self.source, self.place, self.blocksize)?;
        self.give_block(alloc, bytes)
    }

    /// Gives what was read as the next block, or EOS where the input ended before it. Where there is no memory
    /// nothing was given.
    #[tactic(auto, using(crate::proofs::Answering::never_err))]
    fn give_block(&mut self, alloc: Global, bytes: Vec<u8>) -> Result<Next, SrcFault>
        requires few { self.old.items < 2 ^ 41 }
        requires blocks { self.old.phase ≡ InBlocks }
        requires read { ForSome (S.content self.old.source) (λ c. bytes.items ≡ take self.old.blocksize (drop self.old.place c)) }
        ensures gave { IfOk result (λ n. (owed : List ℕ → List Item) (h : List Item) → Gave S.content self.old owed h → AfterNext S.content self.new owed h n) }
        ensures ended { IfOk result (λ n. (owed : List ℕ → List Item) (h : List Item) → Gave S.content self.old owed h → is_ended n ≡ eos_among h) }
        ensures stays { OnErr result (self.new ≡ self.old) }
        ensures fault { IfErr result (λ fault. fault ≡ Wanting) }
        ensures counted { items_given self.new ≡ items_after result (items_given self.old) }
        ensures source_stays { source_of self.new ≡ source_of self.old }
    {
        let size = bytes.len();
        if size == 0 {
            return self.give(Item::Event(Event::Eos), self.place, Phase::Ended);
        }
        let body = Body::from_vec(alloc, bytes)?;
        let block = Item::Buffer(block_at(body, self.place));
        let behind = self.place + u64::from(self.blocksize);
        if size < self.blocksize as usize {
            self.give(block, behind, Phase::Eos)
        } else {
            self.give(block, behind, Phase::Blocks)
        }
    }

    /// Gives the item that is due; what comes next is of the phase, at the place.
    fn give(&mut self, item: Item, place: u64, phase: Phase) -> Result<Next, SrcFault>
        requires few { self.old.items < 2 ^ 41 }
        requires reach { place ≤ self.old.place + 2 ^ 20 }
        requires running { is_over self.old.phase ≡ false }
        requires eos { is_over phase ≡ is_eos item }
        requires due { (c : List ℕ) → S.content self.old.source ≡ Some c
            → still_to_come self.old.phase self.old.id self.old.blocksize self.old.place c ≡ item ∷ still_to_come phase self.old.id self.old.blocksize place c }
        ensures ok { IsOk result }
        ensures gave { IfOk result (λ n. (owed : List ℕ → List Item) (h : List Item) → Gave S.content self.old owed h → AfterNext S.content self.new owed h n) }
        ensures ended { IfOk result (λ n. (owed : List ℕ → List Item) (h : List Item) → Gave S.content self.old owed h → is_ended n ≡ eos_among h) }
        ensures counted { items_given self.new ≡ items_after result (items_given self.old) }
        ensures source_stays { source_of self.new ≡ source_of self.old }
    {
        self.items += 1;
        self.place = place;
        self.phase = phase;
        Ok(Next::Item(item))
    }
}

/// The segment in bytes from a place on.
fn bytes_from(place: u64) -> Segment
    ensures { result ≡ bytes_segment place }
{
    Segment {
        format: Format::Bytes,
        start: place,
        stop: None,
        time: place,
        base: 0,
        position: place,
    }
}

/// The buffer of a block that was read at a place.
fn block_at(body: Body, place: u64) -> Buffer
    ensures { result ≡ record { body = body; pts = None; duration = None; offset = Some place; discont = false } }
{
    Buffer {
        body,
        pts: None,
        duration: None,
        offset: Some(place),
        discont: false,
    }
}
