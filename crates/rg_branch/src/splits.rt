//! The splits above a node.
ghost use Rattle.std.specs.Prelude.{◌≡◌, ◌++◌, ◌∷◌, [], ℕ, map, OnOk};
ghost use Rattle.rg_linear.specs.System.{LinearSystem};
ghost use Rattle.rg_branch_trees.specs.Trees.{low_side};
ghost use Rattle.rg_branch_trees.specs.Turning.{turned};
ghost use Rattle.rg_linear.specs.Branching.{side_row};
ghost use Rattle.rg_linear.specs.View.{linear_row};
ghost use Rattle.rg_branch.specs.View.{forms_of};
ghost use Rattle.rg_branch.specs.Asked.{CanBranch, IsSideOf, AreSidesOf, HasRowsOf};

use crate::bounded::Bounded;
use crate::side::side_row;
use rg_branch_trees::{Side, turn};
use rg_linear::Row;
use rg_memory::NoMemory;
use std::alloc::Global;

// The splits above a node, outermost first, and their rows.
#[derive(Drop)]
pub(crate) struct Splits {
    pub(crate) above: Vec<Side<u32>>,
    pub(crate) rows: Vec<Row>,
}

impl Splits {
    // Goes to the low side of a split below these.
    pub(crate) fn go_low(
        &mut self,
        alloc: Global,
        forms: &[Bounded],
        form: u32,
        at: i64,
    ) -> Result<(), NoMemory>
        requires can { (system : LinearSystem) × (before : ℕ) × CanBranch system before forms.now }
        requires side { IsSideOf (forms_of forms.now) (low_side form at) }
        requires rows { HasRowsOf (forms_of forms.now) self.old }
        ensures above { OnOk result (self.new.above.items ≡ self.old.above.items ++ low_side form at ∷ []) }
        ensures rows { OnOk result (HasRowsOf (forms_of forms.now) self.new) }
    {
        let side = Side {
            form,
            at,
            high: false,
        };
        self.above.push(side)?;
        push_row(alloc, &mut self.rows, forms, side)
    }

    // Goes to the splits above the next node, past a tree that is done.
    pub(crate) fn turn(&mut self, alloc: Global, forms: &[Bounded]) -> Result<(), NoMemory>
        requires can { (system : LinearSystem) × (before : ℕ) × CanBranch system before forms.now }
        requires sides { AreSidesOf (forms_of forms.now) self.old.above.items }
        requires rows { HasRowsOf (forms_of forms.now) self.old }
        ensures above { OnOk result (self.new.above.items ≡ turned self.old.above.items) }
        ensures rows { OnOk result (HasRowsOf (forms_of forms.now) self.new) }
    {
        turn(&mut self.above);
        let Some(&side) = self.above.last() else {
            self.rows.clear();
            return Ok(());
        };
        self.rows.truncate(self.above.len() - 1);
        push_row(alloc, &mut self.rows, forms, side)
    }
}

// Adds the row of a side.
fn push_row(
    alloc: Global,
    rows: &mut Vec<Row>,
    forms: &[Bounded],
    side: Side<u32>,
) -> Result<(), NoMemory>
    requires can { (system : LinearSystem) × (before : ℕ) × CanBranch system before forms.now }
    requires side { IsSideOf (forms_of forms.now) side }
    ensures { OnOk result (map linear_row rows.new.items ≡ map linear_row rows.old.items ++ side_row (forms_of forms.now) side ∷ []) }
{
    let Side { form, at, high } = side;
    rows.push(side_row(alloc, &forms[form as usize], at, high)?)?;
    Ok(())
}
