//! The free labels, and the relations of the others.
ghost use Rattle.std.specs.Prelude.{◌≡◌, ◌<◌, ◌^◌, nat_lt, filter, List, ℤ, length, Contains, MatchOption, IfSome, IfOk};
ghost use Rattle.rg_linear.specs.Cycle.{IsCycleBasis};
ghost use Rattle.rg_folds.specs.Substitution.{free_labels};
ghost use Rattle.rg_cycles.specs.Relating.{IsSolved, columns_of};
ghost use Rattle.rg_cycles.specs.Basis.{ShowsRelation, IsRelationInRange, cycle_basis, AreRelations};

use crate::reading::relations;
use crate::relation::Relation;
use crate::relations::Relations;
use std::alloc::{AllocError, Global};

/// A basis of the solutions of cycle equations: the labels whose effects can be chosen freely, and for
/// each other label the relation by which its effect follows.
#[derive(Drop)]
pub struct Basis {
    kept: Vec<u32>,
    members: Vec<u32>,
    free: Vec<u32>,
    relations: Vec<Option<Relation>>,
    pub ghost labels_fit: { length relations.items < 2 ^ 32 },
    pub ghost free_are_labels: { free.items ≡ free_labels (length relations.items) (cycle_basis kept.items members.items free.items relations.items) },
    pub ghost numbers: { AreRelations (length relations.items) (cycle_basis kept.items members.items free.items relations.items) relations.items },
}

impl Basis {
    ghost use Rattle.rg_cycles.specs.View.{labels_of, cycle_of};

    // The basis that the relations show with which the walk has ended.
    pub(crate) fn read(
        alloc: Global,
        found: Relations<'_>,
        kept: Vec<u32>,
    ) -> Result<Basis, AllocError>
        requires solved { (vectors : List (List ℤ)) × IsSolved vectors kept.items found }
        ensures labels { IfOk result (λ b. labels_of b ≡ columns_of found.entry) }
        ensures basis { IfOk result (λ b. (vectors : List (List ℤ)) → IsSolved vectors kept.items found.entry → IsCycleBasis (columns_of found.entry) vectors (cycle_of b)) }
    {
        let labels = found.columns();
        let relations = relations(alloc, found, &kept)?;
        let members = found.members().to_vec(alloc)?;
        let free = labels_among(alloc, labels, &members)?;
        Ok(Basis {
            kept,
            members,
            free,
            relations,
        })
    }

    /// Returns the free labels, in order.
    pub fn free(&self) -> &[u32]
        ensures { result.now ≡ free_labels (labels_of self.now) (cycle_of self.now) }
    {
        &self.free
    }

    /// Returns the indices of the chords that are rows of the walk: those that aren't 0, and of equal ones the first.
    pub fn kept(&self) -> &[u32]
        ensures { result.now ≡ (cycle_of self.now).kept }
    {
        &self.kept
    }

    /// Returns the set with which the walk ends: free labels, and, counted on from the labels, the rows that are
    /// used. As many as there are labels, in order.
    pub fn members(&self) -> &[u32]
        ensures { result.now ≡ (cycle_of self.now).members }
    {
        &self.members
    }

    /// Returns the relation of label `t`; None exactly where it is free.
    pub fn relation(&self, t: u32) -> Option<&Relation>
        requires { t < labels_of self.now }
        ensures exact { MatchOption result (Contains (cycle_of self.now).members t) (λ r. (¬ Contains (cycle_of self.now).members t) × ShowsRelation (labels_of self.now) (cycle_of self.now) t r.now) }
        ensures in_range { IfSome result (λ r. IsRelationInRange r.now) }
    {
        self.relations[t as usize].as_ref()
    }
}

// Asks that values of a type may move to another thread, and that threads may share them.
fn crosses_threads<T: Send + Sync>() {}

// Bases cross threads.
fn bases_cross_threads() {
    crosses_threads::<Basis>()
}

// The members that are labels.
fn labels_among(alloc: Global, labels: u32, members: &[u32]) -> Result<Vec<u32>, AllocError>
    ensures { IfOk result (λ v. v.items ≡ filter (λ m. nat_lt m labels) members.now) }
{
    members
        .iter()
        .copied()
        .filter(|m| *m < labels)
        .collect(alloc)
}
