//! What branchings are solved with.
ghost use Rattle.std.specs.Prelude.{◌≡◌, IfOk, IfErr};
ghost use Rattle.rg_branch.specs.View.{forms_of};
ghost use Rattle.rg_branch.specs.Asked.{CanBranch};
ghost use Rattle.rg_branch.specs.Answer.{IsAnswer, IsSound, IsStop};

use crate::bounded::Bounded;
use crate::dictionaries::Dictionaries;
use crate::whole::{BranchStop, Whole};
use rg_linear::JoinedSystem;
use rg_memory::NoMemory;
use std::alloc::Global;
use std::marker::Model;

/// What branchings are solved with: a revised dictionary, copies of it for the sides that are to come, and a full
/// dictionary, which is made where numbers are too large for it. It may be used for one system after the other, of so
/// many columns.
///
/// In contracts it is the number of columns.
#[derive(Drop)]
pub struct Solver {
    dictionaries: Dictionaries,
}

impl Model for Solver {
    ghost use Rattle.std.specs.Prelude.{ℕ};

    ghost Value = { ℕ };

    ghost view = { λ a. a.dictionaries.revised.columns };
}

impl Solver {
    /// Returns a solver for systems of so many columns. Returns `NoMemory` if memory runs out.
    pub fn new(alloc: Global, columns: u32) -> Result<Solver, NoMemory>
        ensures { IfOk result (λ solver. solver ≡ columns) }
    {
        let dictionaries = Dictionaries::new(alloc, columns)?;
        Ok(Solver { dictionaries })
    }

    /// Solves as `solve_whole` does, for a system of two lists. The row that a form names is counted after the first
    /// `before` rows of the system: where these are the rows of the first list, the form names a row of the second
    /// one. What was solved earlier doesn't matter, nor whether it came to an end.
    pub fn solve_whole(
        &mut self,
        alloc: Global,
        system: &JoinedSystem<'_>,
        forms: &[Bounded],
        before: u32,
    ) -> Result<Whole, BranchStop>
        requires can { CanBranch system.now before forms.now }
        requires columns { self.old ≡ system.now.columns }
        ensures answer { IfOk result (IsAnswer system.now (forms_of forms.now)) }
        ensures sound { IfOk result (IsSound system.now (forms_of forms.now)) }
        ensures stop { IfErr result (IsStop system.now (forms_of forms.now)) }
        ensures columns { self.new ≡ self.old }
    {
        self.dictionaries.solve_whole(alloc, system, forms, before)
    }
}
