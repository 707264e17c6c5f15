//! A row of a case, its own or one that all problems share.
ghost use Rattle.std.specs.Prelude.{◌≡◌, [], length, IfOk};
ghost use Rattle.rg_theory.specs.System.{labels};
ghost use Rattle.rg_cert_meaning.specs.Row.{row_expression};
ghost use Rattle.rg_cert_data.specs.Sums.{expression_of};
ghost use Rattle.rg_spanning.specs.Spanning.{IsTreeOf};
ghost use Rattle.rg_cycles.specs.View.{labels_of};
ghost use Rattle.rg_case_parts.specs.SettingViews.{shown_setting, shown_case};
ghost use Rattle.rg_rows.specs.View.{kept_row, row_in, columns_in, IsNameWithin, fold_of};
ghost use Rattle.rg_rows.specs.Sharing.{IsCommonOf};
ghost use Rattle.rg_folds.specs.Fold.{Comes};

use crate::case_row::CaseRow;
use crate::common::Common;
use crate::rewriting::row;
use rg_case_parts::CaseSetting;
use rg_cert_data::{Expression, expression};
use rg_cert_meaning::RowName;
use rg_fraction::FoldStop;
use std::alloc::Global;

// A row of a case.
#[derive(Drop)]
pub(crate) enum HeldRow<'a> {
    Own(CaseRow),
    Common(&'a CaseRow),
}

impl HeldRow<'_> {
    // The row itself.
    pub(crate) fn row(&self) -> &CaseRow
        ensures { result.now ≡ row_in self.now }
    {
        match self {
            HeldRow::Own(row) => row,
            HeldRow::Common(row) => row,
        }
    }
}

// The named row of the case: the one that all problems share, or its own, which is written now.
pub(crate) fn row_in_case<'a>(
    alloc: Global,
    common: &'a Common,
    c: CaseSetting<'_>,
    name: RowName,
) -> Result<HeldRow<'a>, FoldStop>
    requires tree { IsTreeOf c.setting.lts.now c.setting.tree.now }
    requires labels { labels_of c.setting.basis.now ≡ labels c.setting.lts.now }
    requires common { IsCommonOf (shown_setting c.setting) common.now }
    requires within { IsNameWithin (shown_case c) name }
    ensures comes { Comes (fold_of (shown_case c.entry) name) (λ r. kept_row (row_in r)) result }
    ensures one_each { IfOk result (λ r. length ((row_in r).coeffs.items) ≡ columns_in (shown_setting c.entry.setting)) }
{
    match common.row(name) {
        Some(Ok(row)) => Ok(HeldRow::Common(row)),
        Some(Err(wide)) => Err(FoldStop::Wide(*wide)),
        None => {
            let said = case_expression(c, name);
            let own = row(alloc, c.setting, &common.columns, name, &said)?;
            Ok(HeldRow::Own(own))
        }
    }
}

// What the named row says in the case.
pub(crate) fn case_expression(c: CaseSetting<'_>, name: RowName) -> Expression
    ensures { expression_of result ≡ row_expression c.entry.setting.lts.now c.entry.setting.class c.entry.problem c.entry.number [] name }
{
    expression(c.setting.lts, c.problem_case(), &[], name)
}
