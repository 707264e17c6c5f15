//! Named rows with their multipliers, and what they say.
ghost use Rattle.std.specs.Prelude.{◌≡◌, ◌<◌, ◌+◌, ◌++◌, length, map, All, IfOk};
ghost use Rattle.rg_theory.specs.System.{labels};
ghost use Rattle.rg_integers.specs.Range.{InRange};
ghost use Rattle.rg_cert_data.specs.Trees.{named_row};
ghost use Rattle.rg_case_folds.specs.Spreading.{named_from, arc_name};
ghost use Rattle.rg_cert_data.specs.Sums.{expression_of};
ghost use Rattle.rg_case_parts.specs.SettingViews.{shown_case};
ghost use Rattle.rg_farkas.specs.Leaves.{share_of, said_in};
ghost use Rattle.rg_farkas.specs.View.{named_of, Tells};

use crate::multiplied::Row;
use rg_case_parts::CaseSetting;
use rg_cert_data::{Expression, expression};
use rg_cert_meaning::{RowName, Side};
use rg_fraction::Fraction;
use rg_theory::Arc;
use std::alloc::{AllocError, Global};

// The rows of the shares and the arcs of the chords, with these numbers in order.
pub(crate) fn number_rows(
    alloc: Global,
    named: &[(RowName, Fraction)],
    chords: &[Arc],
    numbers: &[i128],
) -> Result<Vec<(RowName, i128)>, AllocError>
    requires { length numbers.now ≡ length named.now + length chords.now }
    ensures { IfOk result (λ v. map named_row v.items ≡ named_from (map (λ s. s.name) (map share_of named.now) ++ map arc_name chords.now) numbers.now) }
{
    let mut rows = Vec::new(alloc);
    for (k, (name, _)) in named.iter().enumerate() {
        rows.push((*name, numbers[k]))?;
    }
    for (k, arc) in chords.iter().enumerate() {
        rows.push((RowName::Arc(*arc), numbers[named.len() + k]))?;
    }
    Ok(rows)
}

// What the row of this name says in the case, below these sides.
pub(crate) fn case_expression(c: CaseSetting<'_>, above: &[Side], name: RowName) -> Expression
    ensures { expression_of result ≡ said_in (shown_case c.entry) above.now name }
{
    expression(c.setting.lts, c.problem_case(), above, name)
}

// The rows with what they say.
pub(crate) fn with_expressions(
    alloc: Global,
    c: CaseSetting<'_>,
    above: &[Side],
    listed: &[(RowName, i128)],
) -> Result<Vec<Row>, AllocError>
    requires { All (λ r. InRange r.1) listed.now }
    ensures rows { IfOk result (λ v. map named_of v.items ≡ map named_row listed.now) }
    ensures told { IfOk result (λ v. All (Tells (said_in (shown_case c.entry) above.now)) v.items) }
{
    let mut rows = Vec::new(alloc);
    for &(name, multiplier) in listed {
        let expression = case_expression(c, above, name);
        rows.push(Row {
            name,
            multiplier,
            expression,
        })?;
    }
    Ok(rows)
}
