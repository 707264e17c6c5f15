//! The leaf of named rows below sides that triples name.
ghost use Rattle.std.specs.Prelude.{◌≡◌, map, Ok, Err, IfOk, IsErrOf};
ghost use Rattle.rg_integers.specs.declared.term.Wide.{Wide};
ghost use Rattle.rg_cert_meaning.specs.Row.{RowStands};
ghost use Rattle.rg_cert_meaning.specs.Refutes.{LeafRefutes};
ghost use Rattle.rg_cert_meaning.specs.Sides.{side_of};
ghost use Rattle.rg_fraction.specs.declared.fold_stop.FoldStop.TheVariants as stop;
ghost use Rattle.rg_cycles.specs.View.{cycle_of};
ghost use Rattle.rg_case_folds.specs.Setting.{setting_at, case_at};
ghost use Rattle.rg_case_folds.specs.Spreading.{leaf_fold};
ghost use Rattle.rg_cert_data.specs.Trees.{node_of};
ghost use Rattle.rg_cert_data.specs.Certificates.{IsNodeOf};
ghost use Rattle.rg_farkas.specs.Leaves.{share_of, said_in, IsLeafWith, RefutesCase};

use crate::leaf::spread_in;
use rg_case_parts::{CaseSetting, Setting};
use rg_cert_data::Node;
use rg_cert_meaning::{Form, RowName, Side};
use rg_cycles::Basis;
use rg_fraction::{FoldStop, Fraction};
use rg_lts::Lts;
use rg_spanning::Tree;
use rg_theory::{Class, Problem};
use std::alloc::{AllocError, Global};

/// Returns the leaf of named rows, as `spread_in` does, in a case of a problem. Each split above the leaf is a
/// triple: its form, its number, and true on the high side. The outermost is the first.
pub fn spread(
    alloc: Global,
    lts: &Lts,
    tree: &Tree,
    basis: &Basis,
    class: Class,
    problem: Problem,
    case: u32,
    named: &[(RowName, Fraction)],
    above: &[(Form, i64, bool)],
) -> Result<Node, FoldStop>
    requires { RefutesCase (record { setting = record { lts = lts; tree = tree; basis = basis; class = class }; problem = problem; number = case }) named.now (map side_of above.now) }
    ensures leaf { let s = case_at (setting_at lts.now tree.now.arcs (cycle_of basis.now) class) problem case in
        IfOk result (λ node. IsLeafWith (λ rows. leaf_fold s.lts s.tree s.basis (said_in s (map side_of above.now)) (map share_of named.now) (Ok rows)) (node_of node)) }
    ensures refutes { let s = case_at (setting_at lts.now tree.now.arcs (cycle_of basis.now) class) problem case in let sides = map side_of above.now in
        IfOk result (λ node. IsLeafWith (LeafRefutes (RowStands s.lts s.class s.problem s.number sides) (said_in s sides)) (node_of node)) }
    ensures in_range { IfOk result (λ node. IsNodeOf lts.now (node_of node)) }
    ensures wide { let s = case_at (setting_at lts.now tree.now.arcs (cycle_of basis.now) class) problem case in
        (w : Wide) → IsErrOf result (stop.Wide w) → leaf_fold s.lts s.tree s.basis (said_in s (map side_of above.now)) (map share_of named.now) (Err w) }
{
    let sides = sides(alloc, above)?;
    let setting = Setting {
        lts,
        tree,
        basis,
        class,
    };
    let c = CaseSetting {
        setting,
        problem,
        number: case,
    };
    spread_in(alloc, c, named, &sides)
}

// The sides that the triples name.
fn sides(alloc: Global, triples: &[(Form, i64, bool)]) -> Result<Vec<Side>, AllocError>
    ensures { IfOk result (λ v. v.items ≡ map side_of triples.now) }
{
    triples
        .iter()
        .map(|&(form, at, high)| Side { form, at, high })
        .collect(alloc)
}
