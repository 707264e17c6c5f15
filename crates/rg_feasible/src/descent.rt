//! The descent over all rows.

ghost use Rattle.std.specs.Prelude.{◌≡◌, ◌+◌, ◌<◌, ◌≤◌, ◌^◌, [], ◌∷◌, ◌++◌, vec_len, vec_capacity};
ghost use Rattle.rg_linear.specs.System.{LinearSystem};
ghost use Rattle.rg_linear.specs.Dictionary.{numbers_from, IsFree};
ghost use Rattle.rg_feasible.specs.Contents.{IsDictionary, SameShape};
ghost use Rattle.rg_feasible.specs.Settling.{IsOutcome, IsNotWide};

use crate::relation_table::RelationTable;
use crate::settled::Settled;
use crate::step::{Step, take_row};

/// Takes all rows, from the first one; see `Dictionary::settle`. A row that is exchanged is fixed while the rows
/// before it are taken again. The stack has the fixed rows, the last one at its end.
pub(crate) fn descend(table: &mut RelationTable, stack: &mut Vec<u32>) -> Settled
    requires whole { (system : LinearSystem) × IsDictionary system table.old }
    requires few { table.old.columns + table.old.rows < 2 ^ 32 }
    requires start { table.old.members ≡ numbers_from 0 table.old.columns }
    requires empty { stack.old.items ≡ [] }
    requires room { table.old.columns < vec_capacity stack.old }
    ensures shape { SameShape table.old table.new }
    ensures stays { IsNotWide result → (system : LinearSystem) → IsDictionary system table.old → IsDictionary system table.new }
    ensures outcome { (system : LinearSystem) → IsDictionary system table.old → IsOutcome system table.new.members result }
    ensures free { (system : LinearSystem) → IsDictionary system table.old → IsFree system table.new.members }
    ensures room { vec_capacity stack.old ≤ vec_capacity stack.new }
{
    let rows = table.rows();
    let mut below = rows;
    let mut i = 0;
    'rows: loop {
        if i >= below {
            match stack.pop() {
                None => return Settled::Point,
                Some(fixed) => {
                    below = stack.last().copied().unwrap_or(rows);
                    i = fixed + 1;
                }
            }
        } else {
            match take_row(table, stack, i) {
                Step::Satisfied => i += 1,
                Step::Stuck => return Settled::Refuted(i),
                Step::Wide(wide) => return Settled::Wide(wide),
                Step::Exchanged => {
                    push(stack, i);
                    below = i;
                    i = 0;
                }
            }
        }
    }
}

// Puts a row on the stack, which has room for it.
fn push(stack: &mut Vec<u32>, row: u32)
    requires { vec_len stack.old < vec_capacity stack.old }
    ensures items { stack.new.items ≡ stack.old.items ++ row ∷ [] }
    ensures capacity { vec_capacity stack.old ≤ vec_capacity stack.new }
{
    match stack.push(row) {
        Ok(()) => {}
        Err(_) => unreachable!(),
    }
}
