//! What is made of elements before a file is open.
ghost use Rattle.std.specs.Prelude.{◌≡◌, IfOk};
ghost use Rattle.el_settings.specs.Asked.{title_of};
ghost use Rattle.graph_core.specs.Graph.{made as made_in};
ghost use Rattle.graph_parts.specs.Blanks.{AreBlanks, IsBlankFor};

use el_set::{FilterElement, JoinElement, filter_of, join_of};
use el_settings::Settings;
use graph_core::Graph;
use gst_value::{OutOfMemory, Text};
use std::alloc::Global;
use std::collections::VecDeque;

/// What is made of an element before its file is open.
#[derive(Drop)]
pub struct Blank {
    /// The element between one sink pad and one source pad. None for another, and for a queue.
    pub filter: Option<FilterElement>,
    /// The element with several sink pads. None for another.
    pub join: Option<JoinElement>,
    /// What a source says that its stream is called.
    pub title: Option<Text>,
}

/// What is made of the elements of a graph before their files are open, by number.
pub(crate) fn each_blank(alloc: Global, graph: &Graph) -> Result<VecDeque<Blank>, OutOfMemory>
    ensures { IfOk result (λ blanks. AreBlanks (made_in graph.now) blanks.items) }
{
    let mut blanks = VecDeque::new(alloc);
    for number in 0..graph.count() {
        let blank = blank_of(alloc, graph.settings(number))?;
        blanks.push_back(blank)?;
    }
    Ok(blanks)
}

/// What is made of an element of these settings before its file is open.
fn blank_of(alloc: Global, settings: &Settings) -> Result<Blank, OutOfMemory>
    ensures { IfOk result (IsBlankFor settings.now) }
{
    let title = title_of(alloc, settings)?;
    let filter = filter_of(alloc, settings)?;
    let join = join_of(alloc, settings)?;
    Ok(Blank {
        filter,
        join,
        title,
    })
}

/// What an element of these settings says that its stream is called.
fn title_of(alloc: Global, settings: &Settings) -> Result<Option<Text>, OutOfMemory>
    ensures { IfOk result (λ title. title ≡ title_of settings.now) }
{
    match settings.title() {
        Some(title) => Ok(Some(Text::from_str(alloc, title)?)),
        None => Ok(None),
    }
}
