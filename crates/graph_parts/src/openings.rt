//! What the elements of a graph open.
ghost use Rattle.std.specs.Prelude.{◌≡◌, IfOk, map};
ghost use Rattle.graph_core.specs.Graph.{made as made_in};
ghost use Rattle.graph_parts.specs.Files.{made_opening, opening_of};

use el_settings::Settings;
use graph_core::Graph;
use gst_value::{OutOfMemory, Text};
use run_files::Opening;
use std::alloc::Global;

/// What each element of a graph opens, in the order of its line: a source that has a location reads it, a sink writes
/// its own, and the others open nothing.
pub fn openings_of(alloc: Global, graph: &Graph) -> Result<Vec<Option<Opening>>, OutOfMemory>
    ensures { IfOk result (λ openings. openings.items ≡ map made_opening (made_in graph.now)) }
{
    let mut openings = Vec::new(alloc);
    for element in 0..graph.count() {
        openings.push(opening_of(alloc, graph.settings(element))?)?;
    }
    Ok(openings)
}

/// What an element opens that is set to this.
fn opening_of(alloc: Global, settings: &Settings) -> Result<Option<Opening>, OutOfMemory>
    ensures { IfOk result (λ opening. opening ≡ opening_of settings.now) }
{
    let Some(location) = settings.location() else {
        return Ok(None);
    };
    let location = Text::from_str(alloc, location)?;
    if settings.is_source() {
        return Ok(Some(Opening::Read(location)));
    }
    Ok(Some(Opening::Write(location)))
}
