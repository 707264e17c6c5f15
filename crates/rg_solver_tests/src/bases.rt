//! The basis of a system's cycle equations.
ghost use Rattle.std.specs.Prelude.{◌≡◌, IfOk};
ghost use Rattle.rg_theory.specs.System.{labels};
ghost use Rattle.rg_spanning.specs.Spanning.{IsTreeOf};
ghost use Rattle.rg_case_folds.specs.Chords.{IsBasis};
ghost use Rattle.rg_cycles.specs.View.{labels_of, cycle_of};

use rg_case_parts::TreeChords;
use rg_cycles::{Basis, ChordRows, Stop, reduce_rows};
use rg_lts::Lts;
use rg_samples::system;
use rg_spanning::Tree;
use std::alloc::Global;

/// Returns the basis of the system's chords.
pub(crate) fn basis(alloc: Global, lts: &Lts, tree: &Tree) -> Result<Basis, Stop>
    requires { IsTreeOf lts.now tree.now }
    ensures labels { IfOk result (λ b. labels_of b ≡ labels lts.now) }
    ensures is_basis { IfOk result (λ b. IsBasis lts.now tree.now.arcs (cycle_of b)) }
{
    reduce_rows(alloc, lts.labels(), &TreeChords::new(lts, tree))
}

// The row of the one chord where one a or two b lead to a state.
fn row_of_one(alloc: Global) -> Option<Vec<i128>> {
    let lts = system(
        alloc,
        ".type LTS .states s0[initial] s1 s2 .labels a b .arcs s0 a s1 s0 b s2 s2 b s1",
    )?;
    let Ok(tree) = Tree::grow(alloc, &lts) else {
        return None;
    };
    let chords = TreeChords::new(&lts, &tree);
    if chords.count() != 1 {
        return None;
    }
    chords.row(alloc, 0).ok()
}

#[test]
fn a_chord_counts_the_way_to_its_source_less_that_to_its_target(rt: HostRuntime) {
    match row_of_one(rt.alloc()) {
        Some(row) => assert!(rt; row.as_slice() == [-1, 2].as_slice()),
        None => panic!(rt; "no row"),
    }
}
