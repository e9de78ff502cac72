//! A line has one graph, or one fault, and each pad of a graph is linked once.
ghost use Rattle.graph_core.specs.Laws.{NeverBoth, OneFault, OneGraph};
ghost use Rattle.graph_core.specs.LinkedOnce.{PadsAreLinkedOnce};

/// A line has a graph or a fault and not both, and of either it has one. So `build` gives a graph exactly where the
/// line has one, and a fault exactly where it is the line's, unless memory is wanting.
pub fn one_answer()
    ensures both { NeverBoth }
    ensures fault { OneFault }
    ensures graph { OneGraph }
{
    el_settings::laws::one_answer();
}

/// Each pad of a launch line's graph is linked once at the most.
#[tactic(auto, using(crate::proofs::LinkedOnce::linked_once))]
pub fn pads_are_linked_once()
    ensures { PadsAreLinkedOnce }
{}
