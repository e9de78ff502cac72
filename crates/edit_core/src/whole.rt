//! What crossed the pads of a graph that commands edited, by its evaluation on the whole inputs.

ghost use Rattle.edit_core.specs.Whole.{EditedIsEval, EditedIsWhole, StaysMade};

/// What a graph is given comes from links that were made, from the start and behind each answer.
#[tactic(auto, using(crate::proofs::Made::stays_made))]
pub fn stays_made()
    ensures { StaysMade }
{}

/// At each moment of a run what crossed the pads is what the evaluation of the edited graph gives them, cut at these counts.
#[tactic(auto, using(crate::proofs::Evaluated::edited_is_eval))]
pub fn edited_is_eval()
    ensures { EditedIsEval }
{}

/// Where nothing waits and nothing stands in an inlet all that is owed has crossed.
#[tactic(auto, using(crate::proofs::Evaluated::edited_is_whole))]
pub fn edited_is_whole()
    ensures { EditedIsWhole }
{}
