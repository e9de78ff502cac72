//! Which elements are live as commands leave the graph.
ghost use Rattle.std.specs.Prelude.{◌≡◌, ◌<◌, true, ℕ, length, vec_len, IfOk};
ghost use Rattle.graph_order.specs.Marks.{is_marked};

use crate::graph::EditedGraph;
use graph_core::spread_marks;
use gst_value::OutOfMemory;
use std::alloc::Global;

impl EditedGraph {
    ghost use Rattle.std.specs.Prelude.{◌↔◌};
    ghost use Rattle.graph_edits.specs.Edited.{Edited};
    ghost use Rattle.graph_edits.specs.Graph.{IsEdited, made};
    ghost use Rattle.graph_edits.specs.Live.{IsLive, is_active_source};

    /// Marks each live element: an active source, and what links that stand lead to from live elements.
    pub fn live_elements(&self, alloc: Global) -> Result<Vec<bool>, OutOfMemory>
        ensures { (g : Edited) → IsEdited self.now g → IfOk result (λ live. (e : ℕ) → (is_marked live.items e ≡ true) ↔ IsLive g e) }
    {
        let mut live = self.active_sources(alloc)?;
        spread_marks(&mut live, &self.links);
        Ok(live)
    }

    /// Marks each active source.
    fn active_sources(&self, alloc: Global) -> Result<Vec<bool>, OutOfMemory>
        ensures size { IfOk result (λ marks. vec_len marks ≡ length (made self.now)) }
        ensures marked { (g : Edited) → IsEdited self.now g
            → IfOk result (λ marks. (e : ℕ) → e < length (made self.now) → is_marked marks.items e ≡ is_active_source g e) }
    {
        let mut marks = Vec::new(alloc);
        for element in 0..self.count() {
            marks.push(self.is_active_source(element))?;
        }
        Ok(marks)
    }

    /// Whether an element is a source and is active.
    fn is_active_source(&self, element: u32) -> bool
        requires { element < length (made self.now) }
        ensures { (g : Edited) → IsEdited self.now g → result ≡ is_active_source g element }
    {
        let is_source = self.settings(element).is_source();
        self.is_active(element) & is_source
    }
}
