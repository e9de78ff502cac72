//! What is whole of a line.
use crate::fault::Refusal;
use crate::tree::{Chain, Node, Part, Tree};
use gst_value::{List, OutOfMemory};
use std::alloc::Global;
use std::mem;

/// The most brackets around a part.
pub(crate) const DEEPEST: usize = 16;

/// What is whole of a line.
#[derive(Drop)]
pub(crate) struct Parts {
    /// For each open bracket the parts that stand before it.
    pub(crate) outer: Vec<List<Part>>,
    /// The parts behind the last open bracket.
    pub(crate) parts: List<Part>,
    /// The nodes of the last chain, each with `!` behind it.
    pub(crate) nodes: List<Node>,
}

impl Parts {
    ghost use Rattle.std.specs.Prelude.{◌≡◌, [], OnOk};
    ghost use Rattle.launch_text.specs.Reading.{Gives, closed, ended, held, opened};

    /// Nothing.
    pub(crate) fn new(alloc: Global) -> Parts
        ensures outer { result.outer.items ≡ [] }
        ensures parts { result.parts ≡ [] }
        ensures nodes { result.nodes ≡ [] }
    {
        Parts {
            outer: Vec::new(alloc),
            parts: List::new(alloc),
            nodes: List::new(alloc),
        }
    }

    /// Ends the chain with this node.
    pub(crate) fn end_chain(&mut self, alloc: Global, last: Node) -> Result<(), OutOfMemory>
        ensures { OnOk result (held self.new ≡ ended (held self.old) last) }
    {
        let mut nodes = mem::replace(&mut self.nodes, List::new(alloc));
        nodes.push(alloc, last)?;
        self.parts.push(alloc, Part::Chain(Chain { nodes }))?;
        Ok(())
    }

    /// Opens a bracket.
    #[tactic(auto, unfolding(crate::specs::Reading::opened))]
    pub(crate) fn open(&mut self, alloc: Global) -> Result<(), Refusal>
        ensures { Gives (λ _. held self.new) result (opened (held self.old)) }
    {
        if self.outer.len() >= DEEPEST {
            return Err(Refusal::Stuck);
        }
        let before = mem::replace(&mut self.parts, List::new(alloc));
        self.outer.push(before)?;
        Ok(())
    }

    /// Closes the last open bracket.
    #[tactic(auto, unfolding(crate::specs::Reading::closed))]
    pub(crate) fn close(&mut self, alloc: Global) -> Result<(), Refusal>
        ensures { Gives (λ _. held self.new) result (closed (held self.old)) }
    {
        let Some(before) = self.outer.pop() else {
            return Err(Refusal::Stuck);
        };
        let parts = mem::replace(&mut self.parts, before);
        self.parts.push(alloc, Part::Bin(Tree { parts }))?;
        Ok(())
    }
}
