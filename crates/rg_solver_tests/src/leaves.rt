//! The leaf of multipliers of named rows.
ghost use Rattle.std.specs.Prelude.{◌≡◌, IsTrue};
ghost use Rattle.rg_theory.specs.System.{states, labels, HasArc, IsAllReachable};
ghost use Rattle.rg_spanning.specs.Spanning.{IsTreeOf};
ghost use Rattle.rg_case_folds.specs.Chords.{IsBasis};
ghost use Rattle.rg_cycles.specs.View.{labels_of, cycle_of};

use crate::asked::is_asked;
use crate::bases::basis;
use rg_cert_data::Node;
use rg_cert_meaning::RowName;
use rg_cycles::Basis;
use rg_farkas::spread;
use rg_fraction::{FoldStop, Fraction};
use rg_integers::Wide;
use rg_lts::Lts;
use rg_samples::{LOOP_AND_STEP, PURE, system};
use rg_spanning::Tree;
use rg_theory::Arc;
use rg_theory::Problem::Event;
use std::alloc::{AllocError, Global};

// The arc of the first label from the initial state to itself.
const AROUND: Arc = Arc {
    from: 0,
    label: 0,
    to: 0,
};

// Whether the first label leads from the initial state to itself.
fn is_loop(lts: &Lts) -> bool
    ensures { IsTrue result → HasArc lts.now 0 0 0 }
{
    if lts.states() == 0 || lts.labels() == 0 {
        return false;
    }
    match lts.arc_at(0, 0) {
        Some(to) => to == 0,
        None => false,
    }
}

// The leaf by which a label that loops can't be stopped at another state: the label has the effect 0. The row that it is blocked and the
// tokens of the state are each taken so many times, and the arc of the loop is taken `around` times.
fn leaf_of_loop(
    alloc: Global,
    lts: &Lts,
    tree: &Tree,
    basis: &Basis,
    times: Fraction,
    around: Fraction,
) -> Option<Result<Node, FoldStop>>
    requires reachable { IsAllReachable lts.now }
    requires tree { IsTreeOf lts.now tree.now }
    requires labels { labels_of basis.now ≡ labels lts.now }
    requires basis { IsBasis lts.now tree.now.arcs (cycle_of basis.now) }
{
    let blocked = Event(1, 0);
    if !is_asked(lts, blocked) {
        return None;
    }
    if !is_loop(lts) || times.numerator() < 1 || around.numerator() < 1 {
        return None;
    }
    let named = [
        (RowName::Block, times),
        (RowName::Tokens(1), times),
        (RowName::Arc(AROUND), around),
    ];
    Some(spread(alloc, lts, tree, basis, PURE, blocked, 0, &named, &[]))
}

// That leaf of the loop and the step, for two fractions.
fn leaf(
    alloc: Global,
    times: (i128, i128),
    around: (i128, i128),
) -> Option<Result<Node, FoldStop>> {
    if times.0 < 1 || times.1 < 1 || around.0 < 1 || around.1 < 1 {
        return None;
    }
    let lts = system(alloc, LOOP_AND_STEP)?;
    let Ok(tree) = Tree::grow(alloc, &lts) else {
        return None;
    };
    let Ok(basis) = basis(alloc, &lts, &tree) else {
        return None;
    };
    let times = Fraction::new(times.0, times.1);
    let around = Fraction::new(around.0, around.1);
    leaf_of_loop(alloc, &lts, &tree, &basis, times, around)
}

// The rows of the leaf: the two and the arc, and the arc once more, each so many times.
fn rows(alloc: Global, numbers: [i128; 4]) -> Result<Node, AllocError> {
    let rows = vec![in alloc;
        (RowName::Block, numbers[0]),
        (RowName::Tokens(1), numbers[1]),
        (RowName::Arc(AROUND), numbers[2]),
        (RowName::Arc(AROUND), numbers[3]),
    ]?;
    Ok(Node::Leaf(rows))
}

// Whether the leaf for two fractions has these rows.
fn is_leaf(alloc: Global, times: (i128, i128), around: (i128, i128), numbers: [i128; 4]) -> bool {
    match (leaf(alloc, times, around), rows(alloc, numbers)) {
        (Some(Ok(node)), Ok(rows)) => node == rows,
        _ => false,
    }
}

#[test]
fn multipliers_are_spread_to_the_arc_of_a_loop(rt: HostRuntime) {
    assert!(rt; is_leaf(rt.alloc(), (3, 1), (1, 1), [3, 3, 1, 2]));
    assert!(rt; is_leaf(rt.alloc(), (2, 3), (1, 3), [2, 2, 1, 1]));
}

// Whether the sum of the sizes of a's multipliers is refused.
fn are_sizes_refused(alloc: Global) -> bool {
    let passes = Wide {
        a: 1,
        b: 1,
        c: -i128::MAX,
        d: 1,
    };
    match leaf(alloc, (1, 1), (i128::MAX, 1)) {
        Some(Err(stop)) => stop == FoldStop::Wide(passes),
        _ => false,
    }
}

#[test]
fn sizes_out_of_range_are_refused(rt: HostRuntime) {
    assert!(rt; are_sizes_refused(rt.alloc()));
}
