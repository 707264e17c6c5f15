//! The columns of a system: Start, where it is one, and the free labels with an arc.
ghost use Rattle.std.specs.Prelude.{◌≡◌, ℕ, ◌<◌, ◌≤◌, false, length, map, slice_index_or, ℤ, IfOk};
ghost use Rattle.rg_theory.specs.declared.Class.{Class};
ghost use Rattle.rg_theory.specs.Limits.{most_labels};
ghost use Rattle.rg_theory.specs.System.{System, labels};
ghost use Rattle.rg_lts.specs.WellFormed.{IsWellFormed};
ghost use Rattle.rg_folds.specs.Fold.{Ratio, whole};
ghost use Rattle.rg_folds.specs.Substitution.{free_labels};
ghost use Rattle.rg_case_folds.specs.Rewriting.{has_label, has_start, columns_of, column_count};
ghost use Rattle.rg_cycles.specs.View.{labels_of, cycle_of};
ghost use Rattle.rg_case_parts.specs.ColumnViews.{TellsUsedLabels, AreColumns};

use rg_cycles::Basis;
use rg_lts::Lts;
use rg_theory::Class;
use std::alloc::{AllocError, Global};

/// The columns of a case's system: whether Start is one, and of each label whether it has an arc.
#[derive(Drop)]
pub struct Columns {
    pub start: bool,
    pub used: Vec<bool>,
}

impl Columns {
    /// Returns the columns in this class. Returns an error if memory runs out.
    pub fn new(alloc: Global, lts: &Lts, class: Class) -> Result<Columns, AllocError>
        ensures columns { IfOk result (AreColumns lts.now class) }
        ensures well_formed { IfOk result (λ _. IsWellFormed lts.now) }
    {
        let used = used_labels(alloc, lts)?;
        Ok(Columns {
            start: has_start(class),
            used,
        })
    }

    /// Returns how many there are.
    pub fn count(&self, basis: &Basis) -> u32
        requires labels { length self.now.used.items ≡ labels_of basis.now }
        requires few { length self.now.used.items ≤ most_labels }
        ensures { (lts : System) (class : Class) → labels lts ≡ labels_of basis.now → AreColumns lts class self.now → result ≡ column_count lts (cycle_of basis.now) class }
    {
        let mut count = u32::from(self.start);
        for &label in basis.free() {
            if self.used[label as usize] {
                count += 1;
            }
        }
        count
    }

    /// Returns the numbers of the columns: of Start, and of the free labels with an arc, out of those of all free
    /// labels. `free` has one number for each free label, in order. Returns an error if memory runs out.
    pub fn pick<T: Copy>(
        &self,
        alloc: Global,
        basis: &Basis,
        start: T,
        free: &[T],
    ) -> Result<Vec<T>, AllocError>
        requires labels { length self.now.used.items ≡ labels_of basis.now }
        requires one_each { length free.now ≡ length (free_labels (labels_of basis.now) (cycle_of basis.now)) }
        ensures { IfOk result (λ v. (lts : System) (class : Class) (show : T → Ratio) (z : ℤ) → labels lts ≡ labels_of basis.now → AreColumns lts class self.now → show start ≡ whole z → map show v.items ≡ columns_of lts (cycle_of basis.now) class z (map show free.now)) }
    {
        let mut numbers = Vec::with_capacity(alloc, free.len() + 1)?;
        if self.start {
            numbers.push(start)?;
        }
        for (index, &label) in basis.free().iter().enumerate() {
            if self.used[label as usize] {
                numbers.push(free[index])?;
            }
        }
        Ok(numbers)
    }
}

/// Returns whether Start is a column in this class: elsewhere it cancels in every row.
pub fn has_start(class: Class) -> bool
    ensures { result ≡ has_start class }
{
    class.pure || class.plain || class.bound.is_some()
}

/// Returns of each label whether it has an arc: one entry for each label, in order. Returns an error if memory runs
/// out.
pub fn used_labels(alloc: Global, lts: &Lts) -> Result<Vec<bool>, AllocError>
    ensures labels { IfOk result (λ used. TellsUsedLabels lts.now used.items) }
    ensures well_formed { IfOk result (λ _. IsWellFormed lts.now) }
{
    let mut used = vec![in alloc; false; lts.labels() as usize]?;
    for a in lts.arcs() {
        used[a.label as usize] = true;
    }
    Ok(used)
}
