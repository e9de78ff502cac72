//! Laws of what speaks against a split and against a join.
ghost use Rattle.net_groups.specs.Told.{TreesSplit, UnfedJoin};

use flow_model::{TaskElement, TaskSource};
use lane_core::{Inlet, Outlet};

/// Where what is behind an element is a tree, a task that has it is split, unless what its head names is behind it.
pub fn trees_split<S: TaskSource, E: TaskElement, I: Inlet<Out = O>, O: Outlet<Lanes = I::Lanes>>()
    ensures { TreesSplit S.TaskSource E.TaskElement I.Inlet O.Outlet }
{}

/// Where tasks are ready and no lane leads from the one to the other, a task whose head feeds an element from nothing is joined to another
/// that has the pad.
pub fn unfed_join<S: TaskSource, E: TaskElement, I: Inlet<Out = O>, O: Outlet<Lanes = I::Lanes>>()
    ensures { UnfedJoin S.TaskSource E.TaskElement I.Inlet O.Outlet }
{}
