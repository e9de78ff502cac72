//! What is made of the elements of a graph before a file is open.
ghost use Rattle.std.specs.Prelude.{◌≡◌, ◌≤◌, vec_len, vec_capacity};
ghost use Rattle.std.specs.VecDeque.{deque_len};

use crate::blank::{Blank, each_blank};
use crate::parting::{Pair, pair_at};
use graph_core::{Elements, Graph};
use gst_outside::{Sink, Source};
use gst_value::OutOfMemory;
use run_files::End;
use std::alloc::Global;
use std::collections::VecDeque;
use task_elements::{StreamElement, StreamSource};

/// What is made of the elements of a graph before their files are open, by number, with room for the elements.
#[derive(Drop)]
pub struct Blanks<S, K> {
    blanks: VecDeque<Blank>,
    elements: Vec<Option<StreamElement<K>>>,
    sources: Vec<Option<StreamSource<S>>>,
    ghost no_elements: { vec_len elements ≡ 0 },
    ghost no_sources: { vec_len sources ≡ 0 },
    ghost room_for_elements: { deque_len blanks ≤ vec_capacity elements },
    ghost room_for_sources: { deque_len blanks ≤ vec_capacity sources },
}

/// The elements of a graph and its sources, and the ends of files that none of them has, all by number.
#[derive(Drop)]
pub struct Filled<S, K> {
    pub elements: Vec<Option<StreamElement<K>>>,
    pub sources: Vec<Option<StreamSource<S>>>,
    pub left: Vec<Option<End<S, K>>>,
}

impl<S: Source, K: Sink> Blanks<S, K> {
    ghost use Rattle.std.specs.Prelude.{IfOk};
    ghost use Rattle.graph_core.specs.Elements.{all_made};
    ghost use Rattle.graph_core.specs.Graph.{made as made_in};
    ghost use Rattle.graph_parts.specs.Blanks.{AreBlanks, blanks_in};
    ghost use Rattle.graph_parts.specs.Filled.{AreFilled};

    /// Makes of each element of a graph what needs memory, so that nothing can fail behind it.
    pub fn new(alloc: Global, graph: &Graph) -> Result<Blanks<S, K>, OutOfMemory>
        ensures { IfOk result (λ all. AreBlanks (made_in graph.now) (blanks_in all)) }
    {
        let blanks = each_blank(alloc, graph)?;
        let elements = Vec::with_capacity(alloc, blanks.len())?;
        let sources = Vec::with_capacity(alloc, blanks.len())?;
        Ok(Blanks {
            blanks,
            elements,
            sources,
        })
    }

    /// The elements of the graph, each with the file that it reads or writes, from the ends that stand under the numbers
    /// of elements. It takes no memory.
    pub fn fill(self, made: &Elements, ends: Vec<Option<End<S, K>>>) -> Filled<S, K>
        requires blanks { AreBlanks (all_made made.now) (blanks_in self) }
        ensures { AreFilled S.Source K.Sink (all_made made.now) ends.items result.elements.items result.sources.items result.left.items }
    {
        let Blanks {
            mut blanks,
            mut elements,
            mut sources,
        } = self;
        let mut left = ends;
        for number in 0..made.count() {
            let Some(blank) = blanks.pop_front() else {
                return Filled {
                    elements,
                    sources,
                    left,
                };
            };
            let Pair { element, source } = pair_at(made, number, blank, &mut left);
            elements.push_reserved(element);
            sources.push_reserved(source);
        }
        Filled {
            elements,
            sources,
            left,
        }
    }
}
