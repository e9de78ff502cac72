//! The sources of a stream.
ghost use Rattle.std.specs.Prelude.{◌≡◌, ℕ, List, Some};
ghost use Rattle.flow_model.specs.Item.{Item as PadItem};
ghost use Rattle.task_elements.specs.Owes.{Owes, answer_of};

use el_set::SourceElement;
use el_src::{Next, SrcFault};
use flow_model::{TaskSource, Unread};
use gst_item::Item;
use gst_outside::Source;
use std::alloc::Global;

/// An element with one source pad and no sink pad.
#[derive(Drop)]
pub struct StreamSource<S> {
    pub source: SourceElement<S>,
}

impl<S: Source> StreamSource<S> {
    ghost use Rattle.std.specs.Prelude.{[]};
    ghost use Rattle.el_set.specs.Gives.{SourceGave, source_content};

    /// A source that gave nothing yet.
    pub fn new(source: SourceElement<S>) -> StreamSource<S>
        ensures source { result.source ≡ source }
        ensures opens { (content : List ℕ) (list : List ℕ → List PadItem) → source_content S.content source ≡ Some content
            → SourceGave S.content source list [] → Owes S.content result.source (list content) [] }
    {
        StreamSource { source }
    }

    /// The source, with what it read.
    pub fn into_source(self) -> SourceElement<S>
        ensures { result ≡ self.source }
    {
        self.source
    }
}

impl<S: Source> TaskSource for StreamSource<S> {
    ghost use Rattle.el_set.specs.Gives.{source_items, source_faults};
    ghost use Rattle.task_elements.specs.Owes.{owes_more, location_read};

    ghost gave = { λ s. Owes S.content s.source };

    ghost count = { λ s. source_items s.source };

    ghost file = { λ s. location_read S.location s.source };

    ghost failures = { λ s. source_faults S.faults s.source };

    fn next(&mut self, alloc: Global) -> Result<Option<Item>, Unread> {
        answer(self.source.next(alloc))
    }

    ghost begins = { λ s. owes_more S.content s.source };
}

/// A source's answer as a task's.
fn answer(next: Result<Next, SrcFault>) -> Result<Option<Item>, Unread>
    ensures { result ≡ answer_of next }
{
    match next {
        Ok(Next::Item(item)) => Ok(Some(item)),
        Ok(Next::Ended) => Ok(None),
        Err(SrcFault::ReadFault { before, after }) => Err(Unread::Failed { before, after }),
        Err(SrcFault::OutOfMemory) => Err(Unread::OutOfMemory),
    }
}
