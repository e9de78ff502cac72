//! What stays of a run of a script to its end. The function's contract is the law.
ghost use Rattle.std.specs.Prelude.{◌≡◌, ℕ, List, All, true};
ghost use Rattle.script_text.specs.declared.command.Command.{Command};
ghost use Rattle.turn_order.specs.declared.order.Order.{Order};
ghost use Rattle.turn_order.specs.declared.turns.Turns.{Turns};
ghost use Rattle.turn_loop.specs.Turns.{HasEnded};
ghost use Rattle.graph_edits.specs.Edited.{Edited};
ghost use Rattle.edit_core.specs.Deciding.{names_its_pad};
ghost use Rattle.edit_acts.specs.Scripted.{IsScripted};
ghost use Rattle.world_core.specs.Running.{view_of};
ghost use Rattle.world_core.specs.Evaluated.{RunsAreEvaluated};
ghost use Rattle.world_core.specs.Scripts.{RunsAnswer, RunsKeep};

use crate::running::Running;
use edit_acts::removing::unlinked_is_alone;
use edit_acts::scripts::{
    acts_keep_evaluated, acts_keep_scripts, turns_keep_evaluated, turns_keep_scripts,
};
use flow_model::{TaskElement, TaskSource};
use lane_core::{MemInlet, MemOutlet};
use turn_loop::TakesTurns;

/// Where a run by turns has ended, and each command of its script that acts on a pad names one, its entries answer the first commands
/// lawfully and no place that they name falls, where that was so at first.
pub fn runs_keep_scripts<S: TaskSource, E: TaskElement>()
    ensures { (order : Order) (start : ℕ) (was is : _) (next : Turns) (script : List Command) (first : Edited)
        → HasEnded ⟦<Running<S, E, MemInlet, MemOutlet> as TakesTurns>⟧ order start was next is → All (λ c. names_its_pad c ≡ true) script
        → IsScripted script first (view_of was) → IsScripted script first (view_of is) }
{
    acts_keep_scripts::<S, E, MemInlet, MemOutlet>();
    turns_keep_scripts::<S, E, MemInlet, MemOutlet>();
}

/// Where such a run has ended, or a task met a fault or an element in an edit, its entries answer the first commands of its script lawfully,
/// one after the other, and no place that they name falls.
pub fn runs_answer<S: TaskSource, E: TaskElement>()
    ensures { RunsAnswer ⟦<Running<S, E, MemInlet, MemOutlet> as TakesTurns>⟧ }
{
    acts_keep_scripts::<S, E, MemInlet, MemOutlet>();
    turns_keep_scripts::<S, E, MemInlet, MemOutlet>();
}

/// Where such a run has ended or met a fault, its elements and sources are those that it had, each with its file.
pub fn runs_keep<S: TaskSource, E: TaskElement>()
    ensures { RunsKeep ⟦<Running<S, E, MemInlet, MemOutlet> as TakesTurns>⟧ }
{}

/// Where such a run has ended or met a fault, what crossed its pads is what they counted, at a moment at which the run fits the evaluation of its graph.
pub fn runs_are_evaluated<S: TaskSource, E: TaskElement>()
    ensures { RunsAreEvaluated ⟦<Running<S, E, MemInlet, MemOutlet> as TakesTurns>⟧ }
{
    unlinked_is_alone::<S, E, MemInlet, MemOutlet>();
    acts_keep_evaluated::<S, E, MemInlet, MemOutlet>();
    turns_keep_evaluated::<S, E, MemInlet, MemOutlet>();
}
