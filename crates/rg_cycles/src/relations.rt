//! The relations with which a walk ends.
ghost use Rattle.std.specs.Prelude.{◌≡◌, ◌↔◌, ℕ, ◌+◌, ◌<◌, length, Contains, IsTrue, IfOk};
ghost use Rattle.rg_integers.specs.Range.{InRange};
ghost use Rattle.rg_integers.specs.Sum.{number_at};
ghost use Rattle.rg_linear.specs.System.{LinearSystem};
ghost use Rattle.rg_linear.specs.Table.{ShowsRow};
ghost use Rattle.rg_cycles.specs.Relating.{AreRelationsOf, columns_of, members_of};

use rg_feasible::RelationTable;
use rg_revised::RevisedWalk;
use std::alloc::{AllocError, Global};

// The relations over the set with which a walk ended: those of the labels alone, or those of all variables.
#[derive(Clone, Copy)]
pub(crate) enum Relations<'a> {
    OfColumns(&'a RevisedWalk),
    OfAll(&'a RelationTable),
}

impl<'a> Relations<'a> {
    // How many labels there are.
    pub(crate) fn columns(self) -> u32
        ensures { result ≡ columns_of self.entry }
    {
        match self {
            Relations::OfColumns(walk) => walk.columns(),
            Relations::OfAll(dictionary) => dictionary.columns(),
        }
    }

    // The members of the set, in order.
    pub(crate) fn members(self) -> &'a [u32]
        ensures { result.now ≡ members_of self.entry }
    {
        match self {
            Relations::OfColumns(walk) => walk.members(),
            Relations::OfAll(dictionary) => dictionary.members(),
        }
    }

    // Whether the label is a member.
    pub(crate) fn contains(self, label: u32) -> bool
        ensures { IsTrue result ↔ Contains (members_of self.entry) label }
    {
        match self {
            Relations::OfColumns(walk) => walk.members().contains(&label),
            Relations::OfAll(dictionary) => dictionary.contains(label),
        }
    }

    // The numbers of the relation of a label outside the set: its `d`, the constant, and the coefficients of the
    // members.
    pub(crate) fn numbers(self, alloc: Global, label: u32) -> Result<Vec<i128>, AllocError>
        requires are { (system : LinearSystem) × AreRelationsOf system self }
        requires label { label < columns_of self }
        requires outside { ¬ Contains (members_of self) label }
        ensures shows { IfOk result (λ v. (system : LinearSystem) → AreRelationsOf system self.entry → ShowsRow system (members_of self.entry) label v.items) }
        ensures length { IfOk result (λ v. length v.items ≡ columns_of self.entry + 2) }
        ensures in_range { IfOk result (λ v. (n : ℕ) → InRange (number_at v.items n)) }
    {
        match self {
            Relations::OfColumns(walk) => walk.numbers(alloc, label),
            Relations::OfAll(dictionary) => dictionary.numbers(label).to_vec(alloc),
        }
    }
}
