//! The columns that are effects of labels.
ghost use Rattle.std.specs.Prelude.{◌≡◌, length, map, IfOk};
ghost use Rattle.rg_theory.specs.System.{labels};
ghost use Rattle.rg_case_folds.specs.Rewriting.{free_columns};
ghost use Rattle.rg_cycles.specs.View.{labels_of, cycle_of};
ghost use Rattle.rg_case_parts.specs.ColumnViews.{TellsUsedLabels};
ghost use Rattle.rg_places.specs.Steps.{AreFreeColumns};

use rg_cycles::Basis;
use rg_fraction::Fraction;
use rg_lts::Lts;
use std::alloc::{AllocError, Global};

// A free label with an arc: its index among the free labels, and its effect.
#[derive(Clone, Copy)]
pub(crate) struct Column {
    pub(crate) label: u32,
    pub(crate) index: usize,
    pub(crate) value: Fraction,
}

// The columns with these effects, in order.
pub(crate) fn columns_with(
    alloc: Global,
    lts: &Lts,
    basis: &Basis,
    used: &[bool],
    values: &[Fraction],
) -> Result<Vec<Column>, AllocError>
    requires labels { labels_of basis.now ≡ labels lts.now }
    requires used { TellsUsedLabels lts.now used.now }
    requires one_each { length values.now ≡ length (free_columns lts.now (cycle_of basis.now)) }
    ensures columns { IfOk result (λ columns. AreFreeColumns lts.now (cycle_of basis.now) columns.items) }
    ensures values { IfOk result (λ columns. map (λ c. c.value) columns.items ≡ values.now) }
{
    let mut columns = Vec::with_capacity(alloc, values.len())?;
    for (index, &label) in basis.free().iter().enumerate() {
        if used[label as usize] {
            let value = values[columns.len()];
            columns.push(Column {
                label,
                index,
                value,
            })?;
        }
    }
    Ok(columns)
}
