//! The descent over all rows.

ghost use Rattle.std.specs.Prelude.{◌≡◌, ℕ, ◌+◌, ◌<◌, ◌≤◌, ◌^◌, List, [], ◌∷◌, ◌++◌, length, slice_index_or, reverse, vec_len, vec_capacity};
ghost use Rattle.rg_linear.specs.System.{LinearSystem};
ghost use Rattle.rg_linear.specs.View.{linear_system, IsWellFormed};
ghost use Rattle.rg_linear.specs.Stack.{fixed_of};
ghost use Rattle.rg_revised.specs.Reaching.{Extends, HasCome};
ghost use Rattle.rg_revised.specs.State.{IsTableauOf, StepTells};
ghost use Rattle.rg_revised.specs.Lists.{rows_of};
ghost use Rattle.rg_revised.specs.Ending.{EndTells};

use crate::rows::Rows;
use crate::step::{Step, take_row};
use crate::tableau::Tableau;

/// How a descent ends.
#[derive(Clone, Copy, PartialEq, Eq, Debug)]
pub enum Descent {
    /// The point at which every member is 0 meets every row.
    Point,
    /// No point meets every row: this row fails, and the multipliers show it.
    Refuted(u32),
    /// A number is too large for 64 bits, and nothing is said of the system.
    Large,
}

// Takes row `i`, where the rows of the stack are fixed.
fn take(tableau: &mut Tableau, columns: u32, rows: Rows<'_>, stack: &[u32], i: u32) -> Step
    requires well_formed { IsWellFormed (linear_system columns (rows_of rows)) }
    requires whole { (members : List ℕ) × IsTableauOf (linear_system columns (rows_of rows)) members tableau.old }
    requires row { i < length (rows_of rows) }
    ensures told { (system : LinearSystem) (members : List ℕ) → Extends (linear_system columns (rows_of rows.entry)) tableau.old.norm system → IsTableauOf system members tableau.old
        → StepTells system members (fixed_of system (reverse stack.now)) i tableau.new result }
    ensures norm { tableau.new.norm ≡ tableau.old.norm }
    ensures columns { length tableau.new.basis.slots ≡ length tableau.old.basis.slots }
{
    let row = rows.row(i as usize);
    take_row(tableau, &row.coeffs, row.constant, stack, i)
}

/// Takes the rows from number `from` on. A row that is exchanged is fixed while the rows before it are taken again.
/// The stack has the fixed rows, the last one at its end.
pub(crate) fn descend(
    tableau: &mut Tableau,
    columns: u32,
    rows: Rows<'_>,
    stack: &mut Vec<u32>,
    from: u32,
) -> Descent
    requires well_formed { IsWellFormed (linear_system columns (rows_of rows)) }
    requires start { HasCome (linear_system columns (rows_of rows)) from tableau.old }
    requires within { from ≤ length (rows_of rows) }
    requires empty { stack.old.items ≡ [] }
    requires room { columns < vec_capacity stack.old }
    ensures outcome { EndTells (linear_system columns (rows_of rows.entry)) tableau.new result }
    ensures columns { length tableau.new.basis.slots ≡ length tableau.old.basis.slots }
    ensures room { vec_capacity stack.old ≤ vec_capacity stack.new }
{
    let count = rows.count();
    let mut below = count;
    let mut i = from;
    'rows: loop {
        if i >= below {
            match stack.pop() {
                None => return Descent::Point,
                Some(fixed) => {
                    below = stack.last().copied().unwrap_or(count);
                    i = fixed + 1;
                }
            }
        } else {
            match take(tableau, columns, rows, stack, i) {
                Step::Satisfied => i += 1,
                Step::Stuck => return Descent::Refuted(i),
                Step::Large => return Descent::Large,
                Step::Exchanged => {
                    push(stack, i);
                    below = i;
                    i = 0;
                }
            }
        }
    }
}

// Puts a row on the stack, which has room for it.
fn push(stack: &mut Vec<u32>, row: u32)
    requires { vec_len stack.old < vec_capacity stack.old }
    ensures items { stack.new.items ≡ stack.old.items ++ row ∷ [] }
    ensures capacity { vec_capacity stack.old ≤ vec_capacity stack.new }
{
    match stack.push(row) {
        Ok(()) => {}
        Err(_) => unreachable!(),
    }
}
