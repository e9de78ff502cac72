//! Builds the graph of a line.
ghost use Rattle.std.specs.Prelude.{IfOk, IfErr};
ghost use Rattle.graph_core.specs.Graph.{IsGraph, IsFaultOrMemory, IsSound};

use crate::allowed::allow;
use crate::chains::chains_of;
use crate::counting::count_pads;
use crate::fault::BuildFault;
use crate::graph::Graph;
use crate::links::links_of;
use crate::live::live_elements;
use crate::making::elements_of;
use launch_text::Tree;
use std::alloc::Global;

/// The graph of a launch line. The elements are checked in the order of the line, then the links, each of which may make
/// pads of its elements, and then what each converter is allowed to put out; the first fault is answered.
pub fn build(alloc: Global, tree: &Tree) -> Result<Graph, BuildFault>
    ensures graph { IfOk result (IsGraph tree.now) }
    ensures sound { IfOk result IsSound }
    ensures fault { IfErr result (IsFaultOrMemory tree.now) }
{
    let chains = chains_of(alloc, tree)?;
    let mut elements = elements_of(alloc, chains.as_slice())?;
    let links = links_of(alloc, &elements, chains.as_slice())?;
    count_pads(&mut elements, links.made.as_slice());
    allow(alloc, &mut elements, &links)?;
    let live = live_elements(alloc, &elements, links.made.as_slice())?;
    Ok(Graph {
        elements,
        links,
        live,
    })
}
