//! The elements that make a stream.
ghost use Rattle.std.specs.Prelude.{◌≡◌, ◌<◌, ◌^◌, ℕ, List, IfOk, OnOk, OnErr, IfErr, is_some};
ghost use Rattle.flow_model.specs.Item.{Item as PadItem, eos_among};

use el_src::{FileSrc, Next, RampSrc, SrcFault};
use gst_outside::Source;
use std::alloc::Global;

/// An element with one source pad and no sink pad.
#[derive(Drop)]
pub enum SourceElement<S> {
    /// It reads a file in blocks.
    File(FileSrc<S>),
    /// It makes audio, and reads nothing.
    Ramp(RampSrc),
}

impl<S: Source> SourceElement<S> {
    ghost use Rattle.el_src.specs.Gave.{items_after, is_ended, ended_at};
    ghost use Rattle.el_src.specs.Short.{StopsShort};
    ghost use Rattle.gst_outside.specs.Causes.{NeverFalls};
    ghost use Rattle.el_set.specs.Gives.{SourceGave, SourceAfter, SourceCause, source_items, source_file, source_faults, source_location, source_content};

    /// The next item. Where it fails nothing was given, and a later call tries once more. Each read that failed is told in its
    /// call, which is one for a block: EOS was not given before.
    pub fn next(&mut self, alloc: Global) -> Result<Next, SrcFault>
        requires few { source_items self.old < 2 ^ 41 }
        ensures gave { IfOk result (λ n. (owed : List ℕ → List PadItem) (given : List PadItem) → SourceGave S.content self.old owed given
            → SourceAfter S.content self.new owed given n) }
        ensures ended { IfOk result (λ n. (owed : List ℕ → List PadItem) (given : List PadItem) → SourceGave S.content self.old owed given
            → is_ended n ≡ eos_among given) }
        ensures kept { OnErr result ((owed : List ℕ → List PadItem) (given : List PadItem) → SourceGave S.content self.old owed given
            → SourceGave S.content self.new owed given) }
        ensures counted { source_items self.new ≡ items_after result (source_items self.old) }
        ensures cause { IfErr result (λ fault. SourceCause (source_faults S.faults self.old) (source_faults S.faults self.new) fault) }
        ensures faults_stay { OnOk result (source_faults S.faults self.new ≡ source_faults S.faults self.old) }
        ensures short { IfErr result (λ fault. (owed : List ℕ → List PadItem) (given : List PadItem) → SourceGave S.content self.old owed given
            → StopsShort (source_content S.content self.old) owed given fault) }
        ensures content_stays { source_content S.content self.new ≡ source_content S.content self.old }
        ensures location_stays { source_location S.location self.new ≡ source_location S.location self.old }
        ensures reading_stays { is_some (source_file self.new) ≡ is_some (source_file self.old) }
        ensures never_falls { NeverFalls (source_faults S.faults self.old) (source_faults S.faults self.new) }
    {
        match self {
            SourceElement::File(file) => file.next(alloc),
            SourceElement::Ramp(ramp) => ramp.next(alloc),
        }
    }

    /// From now on EOS comes next, unless it was given. Takes no memory.
    pub fn end(&mut self)
        ensures gave { (owed : List ℕ → List PadItem) (given : List PadItem) → SourceGave S.content self.old owed given
            → SourceGave S.content self.new (ended_at given owed) given }
        ensures count_stays { source_items self.new ≡ source_items self.old }
        ensures file_stays { source_file self.new ≡ source_file self.old }
    {
        match self {
            SourceElement::File(file) => file.end(),
            SourceElement::Ramp(ramp) => ramp.end(),
        }
    }

    /// How many items were given since the start or the last seek.
    pub fn items(&self) -> u64
        ensures { result ≡ source_items self.now }
    {
        match self {
            SourceElement::File(file) => file.items(),
            SourceElement::Ramp(ramp) => ramp.items(),
        }
    }

    /// What was read, where it reads a file.
    pub fn into_source(self) -> Option<S>
        ensures { result ≡ source_file self }
    {
        match self {
            SourceElement::File(file) => Some(file.into_source()),
            SourceElement::Ramp(_) => None,
        }
    }
}
