//! Laws of nets whose graph commands edit.
ghost use Rattle.edit_core.specs.Deciding.{DeedsAreAnswers};
ghost use Rattle.edit_core.specs.Feeds.{FeedsStay, TheLinkStands};
ghost use Rattle.edit_core.specs.Marks.{StaysUnmarked};
ghost use Rattle.edit_core.specs.Notes.{StaysNamed};
ghost use Rattle.edit_core.specs.Tasks.{StepsKeepTasks};
ghost use Rattle.edit_core.specs.Trees.{TreesStand};
ghost use Rattle.edit_core.specs.Ways.{FreeIsLoose, InnerPadsAreFirst, JoinsApart};

use flow_model::{TaskElement, TaskSource};
use lane_core::{Inlet, Outlet};

/// What stands behind an element inside of a task is a tree, where the element's first sink pad is free: each sink pad has one link at
/// the most.
pub fn trees_stand<S: TaskSource, E: TaskElement, I: Inlet<Out = O>, O: Outlet<Lanes = I::Lanes>>()
    ensures { TreesStand S.TaskSource E.TaskElement I.Inlet O.Outlet }
{}

/// A step of a task leaves the tasks with the elements of the edited graph as they had them.
pub fn steps_keep_tasks<
    S: TaskSource,
    E: TaskElement,
    I: Inlet<Out = O>,
    O: Outlet<Lanes = I::Lanes>,
>()
    ensures { StepsKeepTasks S.TaskSource E.TaskElement I.Inlet O.Outlet }
{}

/// The spans of sink pads have no marks, from the start and behind each answer.
#[tactic(auto, using(crate::proofs::Marks::stays_unmarked))]
pub fn stays_unmarked()
    ensures { StaysUnmarked }
{}

/// Inside of a task of an edited graph pads lead to the first sink pads of elements that have no others.
pub fn inner_pads_are_first<
    S: TaskSource,
    E: TaskElement,
    I: Inlet<Out = O>,
    O: Outlet<Lanes = I::Lanes>,
>()
    ensures { InnerPadsAreFirst S.TaskSource E.TaskElement I.Inlet O.Outlet }
{}

/// An element without lanes whose sink pad is free is what the head of a task feeds, from nothing.
pub fn free_is_loose<
    S: TaskSource,
    E: TaskElement,
    I: Inlet<Out = O>,
    O: Outlet<Lanes = I::Lanes>,
>()
    ensures { FreeIsLoose S.TaskSource E.TaskElement I.Inlet O.Outlet }
{}

/// Its task may be joined to that of a source pad where no links that ever were made lead from it to the element of that pad.
pub fn joins_apart<S: TaskSource, E: TaskElement, I: Inlet<Out = O>, O: Outlet<Lanes = I::Lanes>>()
    ensures { JoinsApart S.TaskSource E.TaskElement I.Inlet O.Outlet }
{}

/// What is kept of the elements' feeders stays so while more crosses the pads.
#[tactic(auto, using(crate::proofs::Staying::feeds_stay))]
pub fn feeds_stay()
    ensures { FeedsStay }
{}

/// The link of a source pad that the graph has stands at its sink pad, and at no other.
#[tactic(auto, using(crate::proofs::Standing::the_link))]
pub fn the_link_stands()
    ensures { TheLinkStands }
{}

/// The source pad of each link has a name by which it is found, from the start and behind each answer.
#[tactic(auto, using(crate::proofs::Named::stays_named))]
pub fn stays_named()
    ensures { StaysNamed }
{}

/// A command that is done so, but for one that adds an element, is answered by its places, and the graph is what the deed makes of it.
#[tactic(auto, using(crate::proofs::Decided::deeds_are_answers))]
pub fn deeds_are_answers()
    ensures { DeedsAreAnswers }
{}
