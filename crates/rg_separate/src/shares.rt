//! The named rows of a leaf with their multipliers.
ghost use Rattle.std.specs.Prelude.{◌≡◌, ◌+◌, ◌<◌, ◌≤ℤ◌, pos, length, map, All, IfOk};
ghost use Rattle.rg_integers.specs.Range.{InRange};
ghost use Rattle.rg_folds.specs.Fold.{Comes, whole, ratio_of, shown_result};
ghost use Rattle.rg_case_folds.specs.Rewriting.{CaseSystem};
ghost use Rattle.rg_case_folds.specs.Spreading.{share_fold, name_of, split_factor, factor_of};
ghost use Rattle.rg_branch.specs.View.{weight_of};
ghost use Rattle.rg_rows.specs.Forms.{linear_form, split_of};
ghost use Rattle.rg_rows.specs.Shown.{ShowsCase};
ghost use Rattle.rg_farkas.specs.Leaves.{share_of};
ghost use Rattle.rg_separate.specs.Casing.{sides_among, SharesFold};

use rg_branch_trees::Side;
use rg_cert_meaning::{Form, RowName};
use rg_fraction::{FoldStop, Fraction};
use rg_integers::Wide;
use rg_rows::{NamedCase, NamedForm};
use std::alloc::Global;

// The named rows of the weights below these splits, each with its row's multiplier times its factor.
pub(crate) fn shares(
    alloc: Global,
    named: &NamedCase<'_>,
    above: &[Side<u32>],
    weights: &[(u32, i128)],
) -> Result<Vec<(RowName, Fraction)>, FoldStop>
    requires shows { (case : CaseSystem) × ShowsCase named.now case }
    requires sides { All (λ s. s.form < length named.now.forms) above.now }
    requires scales { All (λ f. InRange f.scale) named.now.forms }
    requires rows { All (λ w. w.row < length named.now.system.rows + length above.now) (map weight_of weights.now) }
    requires not_negative { All (λ w. pos 0 ≤ℤ w.multiplier) (map weight_of weights.now) }
    ensures one_each { IfOk result (λ v. length v.items ≡ length weights.now) }
    ensures comes { Comes (SharesFold named.now above.now (map weight_of weights.now)) (λ v. map share_of v.items) result }
{
    let mut shares = Vec::new(alloc);
    for &(row, multiplier) in weights {
        match share(named, above, row, multiplier) {
            Ok(share) => shares.push(share)?,
            Err(wide) => return Err(FoldStop::Wide(wide)),
        }
    }
    Ok(shares)
}

// The name of a row below these splits, and its multiplier times its factor.
fn share(
    named: &NamedCase<'_>,
    above: &[Side<u32>],
    row: u32,
    multiplier: i128,
) -> Result<(RowName, Fraction), Wide>
    requires shows { (case : CaseSystem) × ShowsCase named.now case }
    requires sides { All (λ s. s.form < length named.now.forms) above.now }
    requires scales { All (λ f. InRange f.scale) named.now.forms }
    requires row { row < length named.now.system.rows + length above.now }
    requires not_negative { pos 0 ≤ℤ multiplier }
    ensures { (case : CaseSystem) → ShowsCase named.now case → share_fold case above.now (sides_among (map split_of named.now.forms) above.now) (record { row = row; multiplier = multiplier }) (shown_result share_of result) }
{
    let (name, factor) = row_of(named, above, row);
    match Fraction::new(multiplier, 1).mul(factor) {
        Ok(share) => Ok((name, share)),
        Err(wide) => Err(wide),
    }
}

// The name and the factor of a row below these splits, whose rows come after those of the system.
fn row_of(named: &NamedCase<'_>, above: &[Side<u32>], row: u32) -> (RowName, Fraction)
    requires shows { (case : CaseSystem) × ShowsCase named.now case }
    requires sides { All (λ s. s.form < length named.now.forms) above.now }
    requires scales { All (λ f. InRange f.scale) named.now.forms }
    requires row { row < length named.now.system.rows + length above.now }
    ensures name { (case : CaseSystem) → ShowsCase named.now case → result.0 ≡ name_of case row }
    ensures factor { (case : CaseSystem) → ShowsCase named.now case → ratio_of result.1 ≡ factor_of case above.now (sides_among (map split_of named.now.forms) above.now) row }
{
    let rows = named.count();
    if row < rows {
        return (named.name(row), named.factor(row));
    }
    let depth = row - rows;
    let form = above[depth as usize].form;
    let factor = split_factor(&named.forms()[form as usize]);
    (RowName::Above(depth), Fraction::new(factor, 1))
}

// The factor of a split's row: the scale of its form, and of the start, whose row is its named row itself, 1.
fn split_factor(form: &NamedForm) -> i128
    requires { InRange form.now.scale }
    ensures in_range { InRange result }
    ensures factor { whole result ≡ split_factor (split_of form.now) (linear_form form.now) }
{
    match form.form {
        Form::Start => 1,
        _ => form.scale,
    }
}
