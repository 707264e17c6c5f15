//! One row of a descent.

ghost use Rattle.std.specs.Prelude.{◌≡◌, ◌≢◌, ◌↔◌, ℕ, ◌+◌, ◌<◌, ◌^◌, IsTrue, length, reverse, Contains, IfSome, IfNone};
ghost use Rattle.rg_linear.specs.System.{LinearSystem};
ghost use Rattle.rg_feasible.specs.Contents.{IsDictionary, SameShape};
ghost use Rattle.rg_feasible.specs.Steps.{NamesFree, StepTells, IsNotRefused};

use crate::relation_table::RelationTable;
use crate::settled::PivotWide;

/// What came of a row.
#[derive(Clone, Copy)]
pub(crate) enum Step {
    /// It holds, or it is a member.
    Satisfied,
    /// It fails, and names fixed variables alone.
    Stuck,
    /// It is a member now, in place of the least variable that it named and that wasn't fixed.
    Exchanged,
    /// The exchange has a term out of range.
    Wide(PivotWide),
}

/// Takes row `i`, where the rows of the stack are fixed.
pub(crate) fn take_row(table: &mut RelationTable, stack: &[u32], i: u32) -> Step
    requires whole { (system : LinearSystem) × IsDictionary system table.old }
    requires few { table.old.columns + table.old.rows < 2 ^ 32 }
    requires row { i < table.old.rows }
    ensures shape { SameShape table.old table.new }
    ensures stays { IsNotRefused result → (system : LinearSystem) → IsDictionary system table.old → IsDictionary system table.new }
    ensures told { (system : LinearSystem) → IsDictionary system table.old → StepTells system table.old.members (reverse stack.now) i table.new.members result }
{
    let columns = table.columns();
    let pivot = columns + i;
    if table.contains(pivot) {
        return Step::Satisfied;
    }
    let numbers = table.numbers(pivot);
    if numbers[1] >= 0 {
        return Step::Satisfied;
    }
    let Some(index) = least_free(columns, table.members(), stack, numbers) else {
        return Step::Stuck;
    };
    let leaves = table.members()[index];
    match table.exchange(pivot, index) {
        Ok(()) => Step::Exchanged,
        Err(at) => Step::Wide(PivotWide {
            pivot,
            leaves,
            target: at.target,
            entry: at.entry,
            wide: at.wide,
        }),
    }
}

// The index of the first member that the relation with these numbers names and that isn't fixed.
fn least_free(columns: u32, members: &[u32], stack: &[u32], numbers: &[i128]) -> Option<usize>
    requires { length numbers.now ≡ length members.now + 2 }
    ensures names { IfSome result (NamesFree columns members.now stack.now numbers.now) }
    ensures least { IfSome result (λ p. (q : ℕ) → q < p → ¬ NamesFree columns members.now stack.now numbers.now q) }
    ensures none { IfNone result ((q : ℕ) → ¬ NamesFree columns members.now stack.now numbers.now q) }
{
    for (index, &member) in members.iter().enumerate() {
        if numbers[index + 2] != 0 && !is_fixed(columns, stack, member) {
            return Some(index);
        }
    }
    None
}

// Whether the member is the variable of a row of the stack.
fn is_fixed(columns: u32, stack: &[u32], member: u32) -> bool
    ensures { IsTrue result ↔ ((s : ℕ) × Contains stack.now s × (member ≡ columns + s)) }
{
    member >= columns && stack.contains(&(member - columns))
}
