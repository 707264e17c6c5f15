//! The tree's arcs alone.
ghost use Rattle.std.specs.Prelude.{IfOk};
ghost use Rattle.rg_spanning.specs.Spanning.{AreArcsOf};

use crate::growth::{Growth, grow_tree};
use rg_lts::Lts;
use rg_memory::NoMemory;
use rg_theory::Arc;
use std::alloc::Global;

/// The arcs of the tree of the breadth first walk from the initial state, in the order in which they join, and for
/// each state the one that enters it; None for the initial state and for those that can't be reached. It is the tree
/// that `Tree::grow` grows, without Parikh vectors and chords.
#[derive(Drop)]
pub struct TreeArcs {
    pub arcs: Vec<Arc>,
    pub parents: Vec<Option<Arc>>,
}

impl TreeArcs {
    /// Grows the tree of the system. Returns `NoMemory` if memory runs out.
    pub fn grow(alloc: Global, lts: &Lts) -> Result<TreeArcs, NoMemory>
        ensures { IfOk result (AreArcsOf lts.now) }
    {
        let Growth {
            order: _,
            arcs,
            entries: parents,
        } = grow_tree(alloc, lts)?;
        Ok(TreeArcs { arcs, parents })
    }
}
