//! What commands name.
ghost use Rattle.std.specs.Prelude.{◌≡◌, IfOk, bytes_eq, position};
ghost use Rattle.std.specs.List.{range_with_len};
ghost use Rattle.graph_pads.specs.Pads.{pad_count, pad_text};

use crate::graph::EditedGraph;
use crate::properties::is_kind_there;
use el_settings::Settings;
use graph_core::PadPlace;
use graph_pads::Direction;
use gst_value::{OutOfMemory, PadName};
use script_text::{Act, Command, When};
use std::alloc::Global;

impl EditedGraph {
    ghost use Rattle.std.specs.Prelude.{◌<◌, IfSome, length};
    ghost use Rattle.graph_edits.specs.Edited.{Edited};
    ghost use Rattle.graph_edits.specs.Lawful.{is_all_there};
    ghost use Rattle.graph_edits.specs.Names.{is_act_there, is_linked_when, is_when_there, pad_named, source_when};
    ghost use Rattle.graph_edits.specs.Graph.{IsEdited, IsPad, made};

    /// The pad of this name and direction, where it is there.
    pub fn pad(
        &self,
        alloc: Global,
        direction: Direction,
        name: &PadName,
    ) -> Result<Option<PadPlace>, OutOfMemory>
        ensures found { (g : Edited) → IsEdited self.now g → IfOk result (λ found. found ≡ pad_named direction g name.now) }
        ensures there { IfOk result (λ found. IfSome found (IsPad self.now direction)) }
        ensures made { IfOk result (λ found. IfSome found (λ pad. pad.element < length (made self.now))) }
    {
        let Some(element) = self.find(name.element.as_str()) else {
            return Ok(None);
        };
        let settings = self.elements.settings(element);
        let Some(pad) = pad_number(alloc, direction, settings, name.pad.as_str())? else {
            return Ok(None);
        };
        Ok(Some(PadPlace { element, pad }))
    }

    /// The source pad that a command names for its place, where it is there.
    pub fn source(&self, alloc: Global, when: &When) -> Result<Option<PadPlace>, OutOfMemory>
        ensures found { (g : Edited) → IsEdited self.now g → IfOk result (λ found. found ≡ source_when g when.now) }
        ensures there { IfOk result (λ found. IfSome found (IsPad self.now Direction.Source)) }
        ensures made { IfOk result (λ found. IfSome found (λ pad. pad.element < length (made self.now))) }
    {
        match when {
            When::At { pad, .. } => self.pad(alloc, Direction::Source, pad),
            When::NowPad { pad } => self.pad(alloc, Direction::Source, pad),
            When::Now => Ok(None),
        }
    }

    /// Whether all that a command names is there: its pads and its element, the link that it undoes, and the kind and the properties
    /// of the element that it adds, whatever their values are.
    pub fn has_all(&self, alloc: Global, command: &Command) -> Result<bool, OutOfMemory>
        ensures { (g : Edited) → IsEdited self.now g → IfOk result (λ there. there ≡ is_all_there g command.now) }
    {
        if !self.has_place(alloc, &command.when)? {
            return Ok(false);
        }
        self.has_named(alloc, &command.when, &command.act)
    }

    /// Whether the source pad is there that a command names for its place, where it names one.
    fn has_place(&self, alloc: Global, when: &When) -> Result<bool, OutOfMemory>
        ensures { (g : Edited) → IsEdited self.now g → IfOk result (λ there. there ≡ is_when_there g when.now) }
    {
        if let When::Now = when {
            return Ok(true);
        }
        Ok(self.source(alloc, when)?.is_some())
    }

    /// Whether that is there which an act names.
    fn has_named(&self, alloc: Global, when: &When, act: &Act) -> Result<bool, OutOfMemory>
        ensures { (g : Edited) → IsEdited self.now g → IfOk result (λ there. there ≡ is_act_there g when.now act.now) }
    {
        match act {
            Act::Relink { sink } => Ok(self.pad(alloc, Direction::Sink, sink)?.is_some()),
            Act::Unlink { .. } => self.is_linked(alloc, when),
            Act::Add { kind, props } => is_kind_there(alloc, kind.as_str(), props.as_slice()),
            Act::Remove { element } => Ok(self.find(element.as_str()).is_some()),
        }
    }

    /// Whether the source pad that a command names for its place has a link.
    fn is_linked(&self, alloc: Global, when: &When) -> Result<bool, OutOfMemory>
        ensures { (g : Edited) → IsEdited self.now g → IfOk result (λ linked. linked ≡ is_linked_when g when.now) }
    {
        let Some(source) = self.source(alloc, when)? else {
            return Ok(false);
        };
        Ok(self.sink_behind(source).is_some())
    }
}

/// How many pads of a direction an element has.
fn pad_count(direction: Direction, settings: &Settings) -> u32
    ensures { result ≡ pad_count direction settings.now }
{
    match direction {
        Direction::Source => settings.source_pads(),
        Direction::Sink => settings.sink_pads(),
    }
}

/// The number of the pad of this name among those of a direction that an element has.
fn pad_number(
    alloc: Global,
    direction: Direction,
    settings: &Settings,
    name: &str,
) -> Result<Option<u32>, OutOfMemory>
    ensures { IfOk result (λ found. found
        ≡ position (λ n. bytes_eq name.now (pad_text direction settings.now n)) (range_with_len 0 (pad_count direction settings.now))) }
{
    for number in 0..pad_count(direction, settings) {
        let text = direction.pad_text(alloc, settings, number as usize)?;
        if name == text.as_str() {
            return Ok(Some(number));
        }
    }
    Ok(None)
}
