//! The leaf of named rows.
ghost use Rattle.std.specs.Prelude.{◌≡◌, ◌<◌, ◌^◌, ◌++◌, map, length, All, Ok, Err, IfOk, IsErrOf};
ghost use Rattle.rg_theory.specs.System.{labels, IsAllReachable};
ghost use Rattle.rg_cert_meaning.specs.Row.{RowStands};
ghost use Rattle.rg_cert_meaning.specs.Refutes.{LeafRefutes};
ghost use Rattle.rg_integers.specs.declared.term.Wide.{Wide};
ghost use Rattle.rg_spanning.specs.Spanning.{IsTreeOf};
ghost use Rattle.rg_cycles.specs.View.{labels_of};
ghost use Rattle.rg_fraction.specs.declared.fold_stop.FoldStop.TheVariants as stop;
ghost use Rattle.rg_case_folds.specs.Chords.{IsBasis};
ghost use Rattle.rg_case_folds.specs.Spreading.{leaf_fold};
ghost use Rattle.rg_cert_data.specs.Trees.{named_row, node_of};
ghost use Rattle.rg_cert_data.specs.Certificates.{IsFormOf, IsRowNameOf, IsNodeOf};
ghost use Rattle.rg_case_parts.specs.SettingViews.{shown_case};
ghost use Rattle.rg_farkas.specs.Leaves.{share_of, said_in, IsLeafWith, RefutesCase};
ghost use Rattle.rg_integers.specs.Range.{InRange};
ghost use Rattle.rg_farkas.specs.Refuting.{SharesRefute};
ghost use Rattle.rg_farkas.specs.View.{AreRowsWithin};
ghost use Rattle.rg_folds.specs.Fold.{Comes};

use crate::chords::{chord_arcs, chord_shares, used_chords};
use crate::counts::row_counts;
use crate::listing::{named_rows, push_arcs};
use crate::parts::divide_numbers;
use crate::rows::{number_rows, with_expressions};
use crate::sizes::check_sizes;
use crate::sums::tree_multipliers;
use rg_case_parts::{CaseSetting, Setting, without_denominators};
use rg_cert_data::Node;
use rg_cert_meaning::{RowName, Side};
use rg_fraction::{FoldStop, Fraction};
use rg_theory::Arc;
use std::alloc::{AllocError, Global};

/// Returns the leaf of named rows, each with its multiplier, which refute in the case below the splits above it,
/// given outermost first.
///
/// Each chord that the basis uses gets a multiplier: the named rows' multipliers times their counts of labels that
/// aren't free, times the chord's numbers in the labels' relations, negated. All are multiplied by the least common
/// multiple of their denominators. Then each arc of the tree, from the last to the first, gets the multiplier by
/// which the tokens of its target cancel, and all are divided by their greatest common divisor. The leaf has the
/// named rows in their order, then the arcs in the system's, without those whose multiplier is 0.
///
/// Returns `FoldStop::Wide` exactly if a step of this is out of range, with the first such step; the last steps are
/// the sums of the absolute values for each state, each label and the constants. Returns `FoldStop::NoMemory` if
/// memory runs out.
pub fn spread_in(
    alloc: Global,
    c: CaseSetting<'_>,
    named: &[(RowName, Fraction)],
    above: &[Side],
) -> Result<Node, FoldStop>
    requires { RefutesCase c named.now above.now }
    ensures leaf { let s = shown_case c.entry in IfOk result (λ node. IsLeafWith (λ rows. leaf_fold s.lts s.tree s.basis (said_in s above.now) (map share_of named.now) (Ok rows)) (node_of node)) }
    ensures refutes { let s = shown_case c.entry in IfOk result (λ node. IsLeafWith (LeafRefutes (RowStands s.lts s.class s.problem s.number above.now) (said_in s above.now)) (node_of node)) }
    ensures in_range { IfOk result (λ node. IsNodeOf c.entry.setting.lts.now (node_of node)) }
    ensures wide { let s = shown_case c.entry in (w : Wide) → IsErrOf result (stop.Wide w) → leaf_fold s.lts s.tree s.basis (said_in s above.now) (map share_of named.now) (Err w) }
{
    c.setting.lts.is_well_formed();
    let rows = leaf_rows(alloc, c, named, above)?;
    Ok(Node::Leaf(rows))
}

// The rows of the leaf with their multipliers.
pub(crate) fn leaf_rows(
    alloc: Global,
    c: CaseSetting<'_>,
    named: &[(RowName, Fraction)],
    above: &[Side],
) -> Result<Vec<(RowName, i128)>, FoldStop>
    requires tree { IsTreeOf c.setting.lts.now c.setting.tree.now }
    requires labels { labels_of c.setting.basis.now ≡ labels c.setting.lts.now }
    requires basis { let s = shown_case c in IsBasis s.lts s.tree s.basis }
    requires within { let s = shown_case c in AreRowsWithin s.lts (said_in s above.now) (map share_of named.now) }
    ensures comes { let s = shown_case c.entry in Comes (leaf_fold s.lts s.tree s.basis (said_in s above.now) (map share_of named.now)) (λ v. map named_row v.items) result }
    ensures in_range { IfOk result (λ v. All (λ r. InRange r.1) v.items) }
{
    let setting = c.setting;
    let Setting { lts, tree, .. } = setting;
    let system = lts.arcs();
    let counts = row_counts(alloc, c, named, above)?;
    let used = used_chords(alloc, setting)?;
    let shares = chord_shares(alloc, setting, &counts, &used)?;
    let fractions = fractions(alloc, named, &shares)?;
    let scaled = without_denominators(alloc, &fractions)?;
    let chords = chord_arcs(alloc, setting, &used)?;
    let listed = number_rows(alloc, named, &chords, &scaled.numbers)?;
    let rows = with_expressions(alloc, c, above, &listed)?;
    let multipliers = tree_multipliers(alloc, tree.arcs(), &rows)?;
    let parts = divide_numbers(alloc, &scaled.numbers, &multipliers)?;
    let mut leaf = named_rows(alloc, named, &parts)?;
    let arcs = both(alloc, &chords, tree.arcs())?;
    push_arcs(alloc, &mut leaf, system, &arcs, &parts[named.len()..])?;
    let rows = with_expressions(alloc, c, above, &leaf)?;
    check_sizes(alloc, lts, &rows)?;
    Ok(leaf)
}

// The multipliers of the named rows, and after them these.
fn fractions(
    alloc: Global,
    named: &[(RowName, Fraction)],
    shares: &[Fraction],
) -> Result<Vec<Fraction>, AllocError>
    ensures { IfOk result (λ v. v.items ≡ map (λ r. r.1) named.now ++ shares.now) }
{
    named
        .iter()
        .map(|r| r.1)
        .chain(shares.iter().copied())
        .collect(alloc)
}

// The arcs of both lists.
fn both(alloc: Global, chords: &[Arc], tree: &[Arc]) -> Result<Vec<Arc>, AllocError>
    ensures { IfOk result (λ v. v.items ≡ chords.now ++ tree.now) }
{
    chords.iter().chain(tree).copied().collect(alloc)
}
