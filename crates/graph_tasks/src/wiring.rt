//! The tasks of a graph, without their elements.
ghost use Rattle.std.specs.Prelude.{◌≡◌, ℕ, List, [], IfOk};
ghost use Rattle.graph_core.specs.Graph.{IsSound, made as made_in, links as links_in};
ghost use Rattle.graph_core.specs.LinkedOnce.{AreOnce};
ghost use Rattle.graph_parts.specs.Bags.{AreBags};
ghost use Rattle.graph_tasks.specs.Wired.{AreWired, IsAllWired, IsWired};
ghost use Rattle.graph_tasks.specs.Wiring.{BagGiven, BagMade, BagsGiven, BagsMade, CellsGiven, HeadGiven, HeadMade, InletsLeft, OutletsLeft, PartsMade, first_link};

use crate::rows::rows_of;
use crate::source_pads::{pad_of, pads_of, place_of};
use crate::wired_task::{WiredHead, WiredPart, WiredTask, WiredTasks};
use graph_core::Graph;
use graph_parts::{Bag, BagElement, BagHead, BagLink, Lanes, all_bags_of, bags_of, lanes_of};
use gst_value::OutOfMemory;
use lane_core::{Inlet, MemInlet, MemOutlet, Outlet};
use std::alloc::Global;
use std::collections::VecDeque;

/// The tasks of a graph without their elements, in the order of its bags, and the lanes between them.
pub fn wire(alloc: Global, graph: &Graph) -> Result<WiredTasks<MemInlet, MemOutlet>, OutOfMemory>
    ensures { IfOk result (λ wired. IsSound graph.now → AreOnce (links_in graph.now)
        → IsWired ⟦<MemInlet as Inlet>⟧ ⟦<MemOutlet as Outlet>⟧ (made_in graph.now) (links_in graph.now) wired) }
{
    let bags = bags_of(alloc, graph)?;
    wire_bags(alloc, graph, bags.as_slice())
}

/// The same, and behind the tasks of heads those of loose elements, so that each element of the graph is of a task.
pub fn wire_all(
    alloc: Global,
    graph: &Graph,
) -> Result<WiredTasks<MemInlet, MemOutlet>, OutOfMemory>
    ensures { IfOk result (λ wired. IsSound graph.now → AreOnce (links_in graph.now)
        → IsAllWired ⟦<MemInlet as Inlet>⟧ ⟦<MemOutlet as Outlet>⟧ (made_in graph.now) (links_in graph.now) wired) }
{
    let bags = all_bags_of(alloc, graph)?;
    wire_bags(alloc, graph, bags.as_slice())
}

/// The tasks of these bags without their elements, in their order, and the lanes between them.
fn wire_bags(
    alloc: Global,
    graph: &Graph,
    bags: &[Bag],
) -> Result<WiredTasks<MemInlet, MemOutlet>, OutOfMemory>
    ensures { IfOk result (λ wired. IsSound graph.now → AreOnce (links_in graph.now) → AreBags (made_in graph.now) (links_in graph.now) bags.now
        → AreWired ⟦<MemInlet as Inlet>⟧ ⟦<MemOutlet as Outlet>⟧ (made_in graph.now) (links_in graph.now) bags.now wired.tasks.items wired.lanes) }
{
    let Lanes {
        table,
        mut inlets,
        mut outlets,
    } = lanes_of(alloc, graph)?;
    let tasks = tasks_of(alloc, graph, bags, &mut inlets, &mut outlets)?;
    Ok(WiredTasks {
        tasks,
        lanes: table,
    })
}

/// A task for each bag, in their order. The ends of lanes are taken.
fn tasks_of<I: Inlet<Out = O>, O: Outlet<Lanes = I::Lanes>>(
    alloc: Global,
    graph: &Graph,
    bags: &[Bag],
    inlets: &mut Vec<Option<I>>,
    outlets: &mut Vec<Option<O>>,
) -> Result<VecDeque<WiredTask<I, O>>, OutOfMemory>
    ensures { IfOk result (λ tasks. OutletsLeft O.Outlet (made_in graph.now) (links_in graph.now) [] outlets.old.items
        → InletsLeft I.Inlet (made_in graph.now) (links_in graph.now) [] inlets.old.items
        → BagsGiven (made_in graph.now) (links_in graph.now) bags.now
        → BagsMade I.Inlet O.Outlet (made_in graph.now) (links_in graph.now) bags.now tasks.items) }
{
    let mut tasks = VecDeque::with_capacity(alloc, bags.len())?;
    for bag in bags {
        let task = task_of(alloc, graph, bag, inlets, outlets)?;
        tasks.push_back_reserved(task);
    }
    Ok(tasks)
}

/// The task of a bag.
fn task_of<I: Inlet<Out = O>, O: Outlet<Lanes = I::Lanes>>(
    alloc: Global,
    graph: &Graph,
    bag: &Bag,
    inlets: &mut Vec<Option<I>>,
    outlets: &mut Vec<Option<O>>,
) -> Result<WiredTask<I, O>, OutOfMemory>
    ensures { IfOk result (λ task. (gone heads : List ℕ) → OutletsLeft O.Outlet (made_in graph.now) (links_in graph.now) gone outlets.old.items
        → InletsLeft I.Inlet (made_in graph.now) (links_in graph.now) heads inlets.old.items
        → BagGiven (made_in graph.now) (links_in graph.now) bag.now gone heads
        → BagMade I.Inlet O.Outlet (made_in graph.now) (links_in graph.now) bag.now gone heads task outlets.new.items inlets.new.items) }
{
    let parts = parts_of(alloc, graph, bag.elements.as_slice(), outlets)?;
    let head = head_of(
        alloc,
        graph,
        bag.elements.as_slice(),
        &bag.head,
        inlets,
        outlets,
    )?;
    Ok(WiredTask { head, parts })
}

/// The elements of a bag, in their order.
fn parts_of<O: Outlet>(
    alloc: Global,
    graph: &Graph,
    order: &[BagElement],
    outlets: &mut Vec<Option<O>>,
) -> Result<VecDeque<WiredPart<O>>, OutOfMemory>
    ensures { IfOk result (λ parts. (gone : List ℕ) → OutletsLeft O.Outlet (made_in graph.now) (links_in graph.now) gone outlets.old.items
        → CellsGiven (made_in graph.now) (links_in graph.now) order.now gone
        → PartsMade O.Outlet (made_in graph.now) (links_in graph.now) order.now gone parts.items outlets.new.items) }
{
    let mut parts = VecDeque::with_capacity(alloc, order.len())?;
    for own in order {
        let pads = pads_of(alloc, graph, order, own, outlets)?;
        parts.push_back_reserved(WiredPart {
            number: own.element,
            pads,
        });
    }
    Ok(parts)
}

/// The head of a bag.
fn head_of<I: Inlet<Out = O>, O: Outlet<Lanes = I::Lanes>>(
    alloc: Global,
    graph: &Graph,
    order: &[BagElement],
    head: &BagHead,
    inlets: &mut Vec<Option<I>>,
    outlets: &mut Vec<Option<O>>,
) -> Result<WiredHead<I, O>, OutOfMemory>
    ensures { IfOk result (λ is. (gone heads : List ℕ) → OutletsLeft O.Outlet (made_in graph.now) (links_in graph.now) gone outlets.old.items
        → InletsLeft I.Inlet (made_in graph.now) (links_in graph.now) heads inlets.old.items
        → HeadGiven (made_in graph.now) (links_in graph.now) head.now gone heads
        → HeadMade I.Inlet O.Outlet (made_in graph.now) (links_in graph.now) head.now gone heads is outlets.new.items inlets.new.items) }
{
    match head {
        BagHead::Source(own) => {
            let number = own.element;
            let pad = pad_of(alloc, graph, order, number, 0, first_link(own), outlets);
            Ok(WiredHead::Source { number, pad })
        }
        BagHead::Inlets(number) => {
            let number = *number;
            let hint = place_of(order, number);
            let rows = rows_of(alloc, graph, number, inlets)?;
            Ok(WiredHead::Inlets { number, hint, rows })
        }
    }
}

/// Where the first source pad of an element leads.
fn first_link(own: &BagElement) -> BagLink
    ensures { result ≡ first_link own.now.pads.items }
{
    match own.pads.first() {
        Some(pad) => pad.leads,
        None => BagLink::Nothing,
    }
}
