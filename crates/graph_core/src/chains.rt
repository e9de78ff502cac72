//! The chains of a line.
ghost use Rattle.std.specs.Prelude.{◌≡◌, ◌++◌, map, IfOk, OnOk};
ghost use Rattle.graph_core.specs.Asked.{part_chains, tree_chains};

use gst_value::OutOfMemory;
use launch_text::{Chain, Part, Tree};
use std::alloc::Global;

/// Puts the chains of a part behind those before.
#[cycle(chains)]
fn put_part<'a>(into: &mut Vec<&'a Chain>, part: &'a Part) -> Result<(), OutOfMemory>
    ensures { OnOk result (map (λ c. c.now) into.new.items ≡ map (λ c. c.now) into.old.items ++ part_chains part.now) }
{
    match part {
        Part::Chain(chain) => Ok(into.push(chain)?),
        Part::Bin(tree) => put_parts(into, tree),
    }
}

/// Puts the chains of all parts behind those before.
#[cycle(chains)]
fn put_parts<'a>(into: &mut Vec<&'a Chain>, tree: &'a Tree) -> Result<(), OutOfMemory>
    ensures { OnOk result (map (λ c. c.now) into.new.items ≡ map (λ c. c.now) into.old.items ++ tree_chains tree.now) }
{
    for part in tree.parts.as_slice() {
        put_part(into, part)?;
    }
    Ok(())
}

/// The chains of a line in their order. Brackets only group.
pub(crate) fn chains_of<'a>(alloc: Global, tree: &'a Tree) -> Result<Vec<&'a Chain>, OutOfMemory>
    ensures { IfOk result (λ chains. map (λ c. c.now) chains.items ≡ tree_chains tree.now) }
{
    let mut chains = Vec::new(alloc);
    put_parts(&mut chains, tree)?;
    Ok(chains)
}
