//! The rows that all cases share, each kept once, and their forms.
ghost use Rattle.std.specs.Prelude.{◌≡◌, map, All, IsTrue, IsFalse, IfOk, IfSome};
ghost use Rattle.rg_theory.specs.System.{labels};
ghost use Rattle.rg_spanning.specs.Spanning.{IsTreeOf};
ghost use Rattle.rg_cycles.specs.View.{labels_of};
ghost use Rattle.rg_case_parts.specs.SettingViews.{shown_setting};
ghost use Rattle.rg_rows.specs.View.{kept_row, row_in};
ghost use Rattle.rg_rows.specs.Sharing.{has_hash, IsApart, AreSharedRows, IsCommonOf};

use crate::case_row::CaseRow;
use crate::common::Common;
use crate::forms::case_forms;
use crate::held_row::HeldRow;
use crate::kept::{CaseRows, firsts};
use crate::named_form::NamedForm;
use crate::named_system::rows;
use crate::names::shared_names;
use indexmap::IndexSet;
use rg_case_parts::{CaseSetting, Setting};
use rg_cert_meaning::RowName;
use rg_fraction::{FoldStop, Fraction};
use rg_linear::RowList;
use rg_theory::Problem;
use std::alloc::{AllocError, Global};

/// The rows that each case has after its own: those that are kept of them, and their forms, as they are in a case
/// without rows of its own. The start is the last form, if some problem splits on it. A row whose hash isn't among
/// the hashes is none of these rows.
#[derive(Drop)]
pub(crate) struct SharedRows {
    pub(crate) rows: RowList,
    pub(crate) names: Vec<RowName>,
    pub(crate) factors: Vec<Fraction>,
    pub(crate) forms: Vec<NamedForm>,
    pub(crate) hashes: IndexSet<u64>,
}

// Returns the rows that each case of the class has after its own, if the class isn't output-nonbranching and each row
// is in range.
pub(crate) fn shared_rows(
    alloc: Global,
    setting: Setting<'_>,
    common: &Common,
) -> Result<Option<SharedRows>, AllocError>
    requires tree { IsTreeOf setting.lts.now setting.tree.now }
    requires labels { labels_of setting.basis.now ≡ labels setting.lts.now }
    requires common { IsCommonOf (shown_setting setting) common.now }
    ensures { IfOk result (λ o. IfSome o (AreSharedRows (shown_setting setting.entry))) }
{
    if setting.class.nonbranching {
        return Ok(None);
    }
    match rows_in_range(alloc, setting, common) {
        Ok(shared) => Ok(Some(shared)),
        Err(FoldStop::Wide(_)) => Ok(None),
        Err(FoldStop::NoMemory) => Err(AllocError),
    }
}

// The rows that each case of the class has after its own, and their forms, with the start if some problem splits on
// it. They are written for a case of an event problem: no row speaks of the problem, and event problems split on the
// start if any do.
fn rows_in_range(
    alloc: Global,
    setting: Setting<'_>,
    common: &Common,
) -> Result<SharedRows, FoldStop>
    requires tree { IsTreeOf setting.lts.now setting.tree.now }
    requires labels { labels_of setting.basis.now ≡ labels setting.lts.now }
    requires common { IsCommonOf (shown_setting setting) common.now }
    requires alone { IsFalse setting.class.nonbranching }
    ensures { IfOk result (AreSharedRows (shown_setting setting.entry)) }
{
    setting.lts.is_well_formed();
    let c = CaseSetting {
        setting,
        problem: Problem::Event(0, 0),
        number: 0,
    };
    let names = shared_names(alloc, setting.lts, setting.class, &common.columns)?;
    let all = rows(alloc, common, c, &names)?;
    let (kept, indices) = firsts(alloc, &all)?;
    let forms = case_forms(alloc, common, c, &names, &all, &indices)?;
    let CaseRows {
        rows,
        names,
        factors,
    } = kept;
    Ok(SharedRows {
        rows: RowList::new(rows),
        names,
        factors,
        forms,
        hashes: hashes(alloc, &all)?,
    })
}

// The hashes of the rows.
fn hashes(alloc: Global, rows: &[HeldRow<'_>]) -> Result<IndexSet<u64>, AllocError>
    ensures { IfOk result (λ set. All (λ k. IsTrue (has_hash set.keys k.row)) (map kept_row (map row_in rows.now))) }
{
    let mut hashes = IndexSet::with_capacity(alloc, rows.len())?;
    for held in rows {
        hashes.insert(held.row().hash())?;
    }
    Ok(hashes)
}

// Whether each of the rows is idle or has a hash that isn't among these.
pub(crate) fn are_apart(rows: &[HeldRow<'_>], hashes: &IndexSet<u64>) -> bool
    ensures { IsTrue result → All (IsApart hashes.now.keys) (map kept_row (map row_in rows.now)) }
{
    for held in rows {
        if !is_apart(held.row(), hashes) {
            return false;
        }
    }
    true
}

// Whether the row is idle or has a hash that isn't among these.
fn is_apart(row: &CaseRow, hashes: &IndexSet<u64>) -> bool
    ensures { IsTrue result → IsApart hashes.now.keys (kept_row row.now) }
{
    row.idle || !hashes.contains(&row.hash())
}
