//! How often the labels that aren't free count in the named rows.
ghost use Rattle.std.specs.Prelude.{◌≡◌, ◌<◌, ◌≤◌, ◌++◌, length, map, All, IfOk, OnOk};
ghost use Rattle.rg_theory.specs.System.{labels};
ghost use Rattle.rg_spanning.specs.Spanning.{IsTreeOf};
ghost use Rattle.rg_cycles.specs.View.{labels_of};
ghost use Rattle.rg_folds.specs.Fold.{ratio_of};
ghost use Rattle.rg_folds.specs.Substitution.{dependent_labels};
ghost use Rattle.rg_case_folds.specs.Spreading.{pairs_of};
ghost use Rattle.rg_cert_data.specs.Sums.{expression_of};
ghost use Rattle.rg_case_parts.specs.SettingViews.{shown_case};
ghost use Rattle.rg_farkas.specs.Leaves.{share_of, said_in};
ghost use Rattle.rg_farkas.specs.View.{counted_of, pair_count, label_count, AreRowsWithin};
ghost use Rattle.rg_cert_data.specs.Certificates.{IsTermWithin};

use crate::multiplied::Counted;
use crate::rows::case_expression;
use rg_case_parts::{CaseSetting, Setting, count};
use rg_cert_data::Expression;
use rg_cert_meaning::{RowName, Side};
use rg_cycles::dependent;
use rg_fraction::Fraction;
use rg_spanning::Tree;
use std::alloc::{AllocError, Global};

// The counts of all named rows, row by row.
pub(crate) fn row_counts(
    alloc: Global,
    c: CaseSetting<'_>,
    named: &[(RowName, Fraction)],
    above: &[Side],
) -> Result<Vec<Counted>, AllocError>
    requires tree { IsTreeOf c.setting.lts.now c.setting.tree.now }
    requires labels { labels_of c.setting.basis.now ≡ labels c.setting.lts.now }
    requires within { let s = shown_case c in AreRowsWithin s.lts (said_in s above.now) (map share_of named.now) }
    ensures { let s = shown_case c.entry in
        IfOk result (λ v. map counted_of v.items ≡ map (pair_count s.tree (said_in s above.now)) (pairs_of (map share_of named.now) (dependent_labels (labels s.lts) s.basis))) }
{
    let Setting {
        lts,
        tree,
        basis,
        ..
    } = c.setting;
    let labels = dependent(alloc, basis, lts.labels())?;
    let mut counts = Vec::new(alloc);
    for &(name, multiplier) in named {
        let row = case_expression(c, above, name);
        push_counts(&mut counts, tree, &labels, multiplier, &row)?;
    }
    Ok(counts)
}

// Adds the counts of one row.
fn push_counts(
    counts: &mut Vec<Counted>,
    tree: &Tree,
    labels: &[u32],
    multiplier: Fraction,
    expression: &Expression,
) -> Result<(), AllocError>
    requires labels { All (λ t. t < tree.now.labels) labels.now }
    requires within { All (IsTermWithin tree.now.states tree.now.labels) (expression_of expression.now).terms }
    ensures { OnOk result (map counted_of counts.new.items ≡ map counted_of counts.old.items ++ map (label_count tree.now.arcs (expression_of expression.now).terms (ratio_of multiplier)) labels.now) }
{
    for &label in labels {
        let count = count(tree, expression, label);
        counts.push(Counted {
            multiplier,
            label,
            count,
        })?;
    }
    Ok(())
}
