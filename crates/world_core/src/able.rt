//! What control can do of what commands ask for.
ghost use Rattle.std.specs.Prelude.{◌≡◌, ◌↔◌, None, Some, IfSome, IsTrue};
ghost use Rattle.graph_edits.specs.Edited.{Edited};
ghost use Rattle.graph_edits.specs.Plans.{is_asleep};
ghost use Rattle.graph_edits.specs.Graph.{IsEdited};
ghost use Rattle.edit_core.specs.declared.deciding.Deed.TheVariants.{Relink};
ghost use Rattle.world_core.specs.Answering.{CanBeAnswered, room_for, room_into};

use edit_core::Deed;
use graph_core::PadPlace;
use graph_edits::EditedGraph;
use graph_parts::room_by;

/// A link over a new lane, which a command asks for.
#[derive(Clone, Copy)]
pub(crate) struct AskedLane {
    pub(crate) source: PadPlace,
    pub(crate) sink: PadPlace,
    /// How many items the lane holds.
    pub(crate) room: u32,
}

/// Whether control can do what a command asks for.
pub(crate) fn can_do(graph: &EditedGraph, deed: Deed) -> bool
    ensures { (g : Edited) → IsEdited graph.now g → IsTrue result ↔ CanBeAnswered g deed }
{
    match deed {
        Deed::Relink { source, .. } => !is_asleep(graph, source.element),
        Deed::Unlink { .. } | Deed::Remove { .. } => true,
        Deed::Add => false,
    }
}

/// The link over a new lane that a command asks for: that to an element that lanes feed.
pub(crate) fn asked_lane(graph: &EditedGraph, deed: Deed) -> Option<AskedLane>
    ensures asked { IfSome result (λ asked. deed ≡ Relink asked.source asked.sink) }
    ensures room { (g : Edited) → IsEdited graph.now g → IfSome result (λ asked. room_into g asked.sink.element ≡ Some asked.room) }
    ensures none { result ≡ None → (g : Edited) → IsEdited graph.now g → room_for g deed ≡ None }
{
    match deed {
        Deed::Relink { source, sink } => {
            let room = room_into(graph, sink.element)?;
            Some(AskedLane { source, sink, room })
        }
        Deed::Unlink { .. } | Deed::Add | Deed::Remove { .. } => None,
    }
}

/// Whether an element is a source that was never linked since it was added.
fn is_asleep(graph: &EditedGraph, element: u32) -> bool
    ensures { (g : Edited) → IsEdited graph.now g → result ≡ is_asleep g element }
{
    if element >= graph.count() {
        return false;
    }
    graph.settings(element).is_source() && !graph.is_active(element)
}

/// How many items a lane to an element holds, where lanes feed it.
fn room_into(graph: &EditedGraph, element: u32) -> Option<u32>
    ensures { (g : Edited) → IsEdited graph.now g → result ≡ room_into g element }
{
    if element >= graph.count() {
        return None;
    }
    room_by(graph.settings(element))
}
