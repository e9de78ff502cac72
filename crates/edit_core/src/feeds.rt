//! What control keeps of what each element was given.
ghost use Rattle.std.specs.Prelude.{◌≡◌, ◌==◌, None, if◌then◌else◌, slice_get};
ghost use Rattle.edit_core.specs.Feeds.{given_by, has_given, no_feed};

use graph_core::PadPlace;
use gst_value::OutOfMemory;
use std::alloc::Global;

/// What is kept of an element: of the links to its first sink pad that were undone, and of the one that stands.
#[derive(Clone, Copy)]
pub(crate) struct Feed {
    /// The source pad of the first link that was undone and gave an item.
    pub(crate) first: Option<u32>,
    /// The place at which the link was made that stands.
    pub(crate) from: u64,
    /// Whether the link that stands began with sticky events.
    pub(crate) opened: bool,
}

impl Feed {
    /// Nothing was given.
    fn none() -> Feed
        ensures { result ≡ no_feed }
    {
        Feed {
            first: None,
            from: 0,
            opened: false,
        }
    }

    /// Whether the link that stands has given something, where so many items crossed its source pad.
    pub(crate) fn has_given(self, items: u64) -> bool
        ensures { result ≡ has_given self items }
    {
        self.opened || self.from < items
    }
}

/// The first giver, where one more source pad may have given something behind those before.
pub(crate) fn given_by(first: Option<u32>, pad: u32, gave: bool) -> Option<u32>
    ensures { result ≡ given_by first pad gave }
{
    if first.is_some() {
        return first;
    }
    if gave {
        return Some(pad);
    }
    None
}

/// What control keeps of what was given to each element that is fed by one link at a time, by its number: which source pad gave it
/// something first.
///
/// `AreFeeds feeds g history` says that it stands for an edited graph and for what crossed the source pads.
#[derive(Drop)]
pub struct Feeds {
    pub(crate) feeds: Vec<Feed>,
}

impl Feeds {
    ghost use Rattle.std.specs.Prelude.{ℕ, List, false, length, take, IfOk, OnErr, OnOk};
    ghost use Rattle.flow_model.specs.Item.{Item};
    ghost use Rattle.flow_model.specs.Sticky.{stickies};
    ghost use Rattle.gst_item.specs.Item.{has_item};
    ghost use Rattle.graph_core.specs.Elements.{Made};
    ghost use Rattle.graph_core.specs.GraphPlan.{pad_id};
    ghost use Rattle.graph_pads.specs.declared.pad.PadLink.{PadLink as Links};
    ghost use Rattle.graph_pads.specs.declared.pad.PadPlace.{PadPlace as Places};
    ghost use Rattle.flow_model.specs.Standing.{is_linked};
    ghost use Rattle.graph_edits.specs.Edited.{Edited, added, linked_at, spans_at, unedited, unlinked_at};
    ghost use Rattle.graph_edits.specs.Growing.{IsKept};
    ghost use Rattle.edit_core.specs.Feeds.{AreFeeds, IsTheLink};

    /// What is kept of so many elements to which nothing was done yet.
    pub fn new(alloc: Global, elements: u32) -> Result<Feeds, OutOfMemory>
        ensures { IfOk result (λ feeds. (made : List Made) (links : List Links) (h : ℕ → List Item) → length made ≡ elements
            → AreFeeds feeds (unedited made links) h) }
    {
        let feeds = vec![in alloc; Feed::none(); elements as usize]?;
        Ok(Feeds { feeds })
    }

    /// The link of a source pad to a sink pad is undone, with EOS or without, when so many items have crossed the source pad.
    pub fn undone(&mut self, sink: PadPlace, pad: u32, items: u64, eos: bool)
        ensures { (g : Edited) (h : ℕ → List Item) (source : Places) → AreFeeds self.old g h → IsKept h g → pad ≡ pad_id source
            → items ≡ length (h pad) → IsTheLink g source sink
            → AreFeeds self.new (unlinked_at source items eos g) h }
    {
        if let Some(feed) = self.first_of(sink) {
            let gave = feed.has_given(items) | eos;
            let first = given_by(feed.first, pad, gave);
            self.feeds[sink.element as usize] = Feed { first, ..feed };
        }
    }

    /// A source pad is linked to a sink pad that is not linked, when so many items have crossed the source pad; sticky events are in
    /// force there, or none are.
    pub fn linked(&mut self, sink: PadPlace, items: u64, opened: bool)
        ensures { (g : Edited) (h : ℕ → List Item) (source : Places) → AreFeeds self.old g h → is_linked (spans_at g sink) ≡ false
            → opened ≡ has_item (stickies (take items (h (pad_id source))))
            → AreFeeds self.new (linked_at source items sink g) h }
    {
        if let Some(feed) = self.first_of(sink) {
            self.feeds[sink.element as usize] = Feed {
                from: items,
                opened,
                ..feed
            };
        }
    }

    /// An element is added behind the others. Memory is found before anything changes.
    pub fn added(&mut self) -> Result<(), OutOfMemory>
        ensures more { OnOk result ((g : Edited) (h : ℕ → List Item) (m : Made) → AreFeeds self.old g h → AreFeeds self.new (added m g) h) }
        ensures stays { OnErr result ((g : Edited) (h : ℕ → List Item) → AreFeeds self.old g h → AreFeeds self.new g h) }
    {
        self.feeds.push(Feed::none())?;
        Ok(())
    }

    /// What is kept of an element, where it is there and this is its first sink pad.
    fn first_of(&self, sink: PadPlace) -> Option<Feed>
        ensures { result ≡ (if sink.pad == 0 then slice_get self.now.feeds.items sink.element else None) }
    {
        if sink.pad != 0 {
            return None;
        }
        self.of(sink.element)
    }

    /// What is kept of an element, where it is there.
    pub(crate) fn of(&self, element: u32) -> Option<Feed>
        ensures { result ≡ slice_get self.now.feeds.items element }
    {
        self.feeds.get(element as usize).copied()
    }
}
