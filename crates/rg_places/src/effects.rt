//! The effects of all labels, from those of the columns.
ghost use Rattle.std.specs.Prelude.{◌≡◌, ℕ, ◌<◌, pos, length, All, IfOk};
ghost use Rattle.rg_theory.specs.System.{System, labels};
ghost use Rattle.rg_folds.specs.Fold.{Comes, each, joined, add, whole, ratio_of, shown_result};
ghost use Rattle.rg_case_folds.specs.Rewriting.{all_numbers};
ghost use Rattle.rg_case_folds.specs.Placing.{effect_fold, ratio_at};
ghost use Rattle.rg_cycles.specs.Basis.{IsRelationInRange};
ghost use Rattle.rg_cycles.specs.View.{labels_of, cycle_of};
ghost use Rattle.rg_places.specs.PointValues.{ratios_of};
ghost use Rattle.rg_case_parts.specs.ColumnViews.{TellsUsedLabels};
ghost use Rattle.rg_places.specs.Steps.{AreFreeColumns, value_by, column_share, used_effect_fold};

use crate::columns::Column;
use rg_cycles::{Basis, Relation};
use rg_fraction::{FoldStop, Fraction};
use rg_integers::Wide;
use rg_lts::Lts;
use std::alloc::{AllocError, Global};

// The effects of the labels, in order. A label without an arc has the effect 0. The list has room for one number
// more, that of the initial state.
pub(crate) fn effects(
    alloc: Global,
    lts: &Lts,
    basis: &Basis,
    used: &[bool],
    columns: &[Column],
) -> Result<Vec<Fraction>, FoldStop>
    requires labels { labels_of basis.now ≡ labels lts.now }
    requires used { TellsUsedLabels lts.now used.now }
    requires columns { AreFreeColumns lts.now (cycle_of basis.now) columns.now }
    ensures { Comes (each (effect_fold lts.now (cycle_of basis.now) (value_by columns.now)) (all_numbers (labels lts.now))) (λ effects. ratios_of effects.items) result }
{
    let mut effects = values_by_label(alloc, lts, basis, columns)?;
    for t in 0..lts.labels() {
        if used[t as usize] {
            effects[t as usize] = effect(basis, columns, t, effects[t as usize])?;
        }
    }
    Ok(effects)
}

// The values of the labels, in order: those of the columns, and 0 of the other labels. The list has room for one
// number more.
fn values_by_label(
    alloc: Global,
    lts: &Lts,
    basis: &Basis,
    columns: &[Column],
) -> Result<Vec<Fraction>, AllocError>
    requires labels { labels_of basis.now ≡ labels lts.now }
    requires columns { AreFreeColumns lts.now (cycle_of basis.now) columns.now }
    ensures one_each { IfOk result (λ values. length values.items ≡ labels lts.now) }
    ensures values { IfOk result (λ values. (t : ℕ) → t < labels lts.now → ratio_at (ratios_of values.items) t ≡ value_by columns.now t) }
{
    let labels = lts.labels() as usize;
    let mut values = Vec::with_capacity(alloc, labels + 1)?;
    values.resize(labels, Fraction::new(0, 1))?;
    for column in columns {
        values[column.label as usize] = column.value;
    }
    Ok(values)
}

// The effect of label t, which has an arc. The value is its own where it is free.
fn effect(basis: &Basis, columns: &[Column], t: u32, value: Fraction) -> Result<Fraction, Wide>
    requires label { t < labels_of basis.now }
    requires columns { (lts : System) × (labels lts ≡ labels_of basis.now) × AreFreeColumns lts (cycle_of basis.now) columns.now }
    requires value { ratio_of value ≡ value_by columns.now t }
    ensures { (lts : System) → labels lts ≡ labels_of basis.now → AreFreeColumns lts (cycle_of basis.now) columns.now → used_effect_fold lts (cycle_of basis.now) (value_by columns.now) t (shown_result ratio_of result) }
{
    match basis.relation(t) {
        Some(relation) => sum_of_shares(relation, columns),
        None => Ok(value),
    }
}

// The effect of a label with this relation: what the free labels add to it.
fn sum_of_shares(relation: &Relation, columns: &[Column]) -> Result<Fraction, Wide>
    requires in_range { IsRelationInRange relation.now }
    requires indices { All (λ c. c.index < length relation.now.free.items) columns.now }
    ensures { joined add (column_share relation.now) (whole (pos 0)) columns.now (shown_result ratio_of result) }
{
    let Some((first, rest)) = columns.split_first() else {
        return Ok(Fraction::new(0, 1));
    };
    let mut sum = share_of(relation, first)?;
    for column in rest {
        if column.value.numerator() == 0 {
            continue;
        }
        let share = share_of(relation, column)?;
        if share.numerator() != 0 {
            sum = sum.add(share)?;
        }
    }
    Ok(sum)
}

// What a free label adds to the effect of a label with this relation: 0 where its value or its number is 0.
fn share_of(relation: &Relation, column: &Column) -> Result<Fraction, Wide>
    requires in_range { IsRelationInRange relation.now }
    requires index { column.now.index < length relation.now.free.items }
    ensures { column_share relation.now column.now (shown_result ratio_of result) }
{
    if column.value.numerator() == 0 {
        return Ok(Fraction::new(0, 1));
    }
    let number = relation.free[column.index];
    if number == 0 {
        return Ok(Fraction::new(0, 1));
    }
    column.value.mul(Fraction::new(number, relation.d))
}
