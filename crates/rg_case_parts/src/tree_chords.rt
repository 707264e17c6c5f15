//! The chords of a spanning tree.
ghost use Rattle.std.specs.Prelude.{◌≡◌, ◌<◌, ◌≤◌, length, All};
ghost use Rattle.rg_theory.specs.Limits.{most_arcs};
ghost use Rattle.rg_theory.specs.System.{labels};
ghost use Rattle.rg_spanning.specs.Spanning.{IsTreeOf};
ghost use Rattle.rg_case_folds.specs.Chords.{chord_vectors};
ghost use Rattle.rg_cycles.specs.Vectors.{AreVectors};
ghost use Rattle.rg_case_parts.specs.ChordRows.{tree_rows, row_between, rows_decide};

use crate::chord_ends::ChordEnds;
use rg_cycles::ChordRows;
use rg_lts::Lts;
use rg_spanning::Tree;
use std::alloc::{AllocError, Global};

/// The chords of a system's spanning tree. The row of a chord says that the effects of a region add up to 0 along it
/// (Badouel, Bernardinello and Darondeau, *Petri Net Synthesis*): the number of a label is how often it occurs on the
/// way to the chord's source and on the chord, less how often it occurs on the way to its target.
#[derive(Clone, Copy)]
pub struct TreeChords<'a> {
    tree: &'a Tree,
    pub ghost ends: { All (λ a. (a.from < tree.now.states) × (a.to < tree.now.states)) tree.now.chords },
}

impl<'a> TreeChords<'a> {
    /// Returns the chords of the tree, in order.
    pub fn new(lts: &Lts, tree: &'a Tree) -> TreeChords<'a>
        requires { IsTreeOf lts.now tree.now }
        ensures rows { tree_rows result.tree.now ≡ chord_vectors lts.now tree.now.arcs }
        ensures few { length (tree_rows result.tree.now) ≤ most_arcs }
        ensures in_range { AreVectors (labels lts.now) (tree_rows result.tree.now) }
    {
        lts.is_well_formed();
        TreeChords { tree }
    }
}

impl<'a> ChordRows for TreeChords<'a> {
    type Key = ChordEnds<'a>;

    ghost rows = { λ s. tree_rows s.tree.now };

    ghost row_of = { λ ends. row_between ends.source.now ends.target.now ends.label };

    ghost compares_rows = { λ a b. rows_decide (row_between a.source.now a.target.now a.label) (row_between b.source.now b.target.now b.label) };

    fn count(&self) -> usize {
        self.tree.chords().len()
    }

    fn key(&self, index: usize) -> ChordEnds<'a> {
        let a = self.tree.chords()[index];
        ChordEnds::new(self.tree.parikh(a.from), self.tree.parikh(a.to), a.label)
    }

    fn is_zero(&self, index: usize) -> bool {
        self.key(index).is_zero()
    }

    fn row(&self, alloc: Global, index: usize) -> Result<Vec<i128>, AllocError> {
        self.key(index).row(alloc)
    }
}
