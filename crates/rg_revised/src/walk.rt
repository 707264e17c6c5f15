//! The walk over rows without constants, on which each row is taken once.

ghost use Rattle.std.specs.Prelude.{◌≡◌, ◌↔◌, ℕ, ◌+◌, ◌*◌, ◌^◌, ◌<◌, ◌≤◌, List, length, Contains, slice_index, IsTrue, IfOk, IfSome, IfNone, ℤ, pos, ◌≤ℤ◌, unsigned_abs};
ghost use Rattle.std.specs.List.Sorted.{IsStrictlyIncreasing};
ghost use Rattle.rg_integers.specs.Range.{InRange};
ghost use Rattle.rg_integers.specs.Sum.{number_at};
ghost use Rattle.rg_linear.specs.System.{LinearSystem, row_at as row_of};
ghost use Rattle.rg_linear.specs.Dictionary.{numbers_from};
ghost use Rattle.rg_linear.specs.Table.{ShowsRow};
ghost use Rattle.rg_revised.specs.Basis.{HasNorms};
ghost use Rattle.rg_revised.specs.Walk.{IsWalkOf, NamesColumn, WalkTells};

use crate::basis::Basis;
use crate::choosing::is_less;
use crate::members::Members;
use crate::primitive::primitive_numbers;
use crate::revised::most_for;
use crate::starting::number_slots;
use std::alloc::{AllocError, Global};
use std::marker::Model;

/// What the walk does with a row.
#[derive(Clone, Copy, PartialEq, Eq, Debug)]
pub enum Taken {
    /// Its relation names no column.
    Skipped,
    /// It is a member now, in place of the least column that its relation named.
    Exchanged,
    /// A number is too large for 64 bits, and nothing is said of the walk any more.
    Large,
}

/// The relations of the columns of a system whose rows have no constant, over a free set, on a walk on which rows are
/// taken in order, each once. One whose relation names a column is exchanged with the least such column.
///
/// The contracts speak of the systems whose relations it has, by `IsWalkOf system w`.
#[derive(Drop)]
pub struct RevisedWalk {
    basis: Basis,
    members: Members,
    numbers: Vec<i64>,
    most: i64,
}

impl Model for RevisedWalk {
    ghost use Rattle.std.specs.Prelude.{length, unsigned_abs};
    ghost use Rattle.rg_revised.specs.Walk.{WalkState, IsWalkStored};

    ghost Value = { WalkState };

    ghost view = { λ a. record { columns = length a.basis.slots; members = a.members.variables.items; basis = a.basis; most = unsigned_abs a.most } };

    ghost invariant = { λ a. IsWalkStored (record { columns = length a.basis.slots; members = a.members.variables.items; basis = a.basis; most = unsigned_abs a.most })
        a.numbers.items (length a.members.slots.items) a.most };
}

// Whether a member is a column. Members are in order.
fn has_column(members: &[u32], columns: u32) -> bool
    requires ordered { IsStrictlyIncreasing members.now }
    ensures { IsTrue result ↔ ((m : ℕ) × Contains members.now m × (m < columns)) }
{
    !members.is_empty() && members[0] < columns
}

// Whether the variable of the slot is a column, and the numbers name it.
fn names_column(columns: u32, slots: &[u32], numbers: &[i64], s: usize) -> bool
    requires slot { s < length slots.now }
    requires numbers { length slots.now < length numbers.now }
    ensures { IsTrue result ↔ NamesColumn columns slots.now numbers.now s }
{
    numbers[s] != 0 && slots[s] < columns
}

// The slot of the least column that the numbers name.
fn least_column(columns: u32, slots: &[u32], numbers: &[i64]) -> Option<usize>
    requires numbers { length slots.now < length numbers.now }
    ensures is { IfSome result (NamesColumn columns slots.now numbers.now) }
    ensures least { IfSome result (λ p. (q : ℕ) → NamesColumn columns slots.now numbers.now q → slice_index slots.now p ≤ slice_index slots.now q) }
    ensures none { IfNone result ((q : ℕ) → ¬ NamesColumn columns slots.now numbers.now q) }
{
    let mut best = None;
    for s in 0..slots.len() {
        if is_less(slots, best, s) && names_column(columns, slots, numbers, s) {
            best = Some(s);
        }
    }
    best
}

impl RevisedWalk {
    /// Returns a walk for systems of so many columns. It takes all memory that a walk needs. Returns `AllocError` if
    /// memory runs out.
    pub fn new(alloc: Global, columns: u32) -> Result<RevisedWalk, AllocError>
        ensures { IfOk result (λ w. w.columns ≡ columns) }
    {
        let basis = Basis::new(alloc, columns)?;
        let members = Members {
            variables: vec![in alloc; 0u32; columns as usize]?,
            slots: vec![in alloc; 0u32; columns as usize]?,
        };
        let numbers = vec![in alloc; 0i64; columns as usize + 1]?;
        Ok(RevisedWalk {
            basis,
            members,
            numbers,
            most: 0,
        })
    }

    /// Makes the columns the set, for systems of which no row's norm passes `norm`. False where it is too large for
    /// numbers of 64 bits. It may be called again.
    pub fn start(&mut self, norm: u64) -> bool
        ensures small { IsTrue result → norm < 2 ^ 63 }
        ensures held { IsTrue result → (system : LinearSystem) → system.columns ≡ self.new.columns → HasNorms system norm → IsWalkOf system self.new }
        ensures members { IsTrue result → self.new.members ≡ numbers_from 0 self.new.columns }
        ensures columns { self.new.columns ≡ self.old.columns }
    {
        let Some(most) = most_for(norm) else {
            return false;
        };
        self.basis.restart();
        number_slots(&mut self.members.variables);
        number_slots(&mut self.members.slots);
        self.most = most;
        true
    }

    /// Takes row `i`, which has these coefficients and no constant.
    pub fn take(&mut self, coeffs: &[i128], i: u32) -> Taken
        requires whole { (system : LinearSystem) × IsWalkOf system self.old × (i < length system.rows) × ((row_of system i).coeffs ≡ coeffs.now) × ((row_of system i).constant ≡ pos 0) }
        requires ahead { (m : ℕ) → Contains self.old.members m → m < self.old.columns + i }
        requires each { length coeffs.now ≡ self.old.columns }
        requires few { self.old.columns + i < 2 ^ 32 }
        ensures told { (system : LinearSystem) → IsWalkOf system self.old → i < length system.rows → (row_of system i).coeffs ≡ coeffs.now → (row_of system i).constant ≡ pos 0 → WalkTells system self.old i self.new result }
        ensures columns { self.new.columns ≡ self.old.columns }
    {
        let columns = self.basis.columns();
        if !has_column(&self.members.variables, columns) {
            return Taken::Skipped;
        }
        self.basis.read(coeffs, 0, &mut self.numbers);
        let Some(p) = least_column(columns, self.basis.slots(), &self.numbers) else {
            return Taken::Skipped;
        };
        let leaves = self.basis.slots()[p];
        if !self
            .basis
            .exchange(p, columns + i, &mut self.numbers, self.most)
        {
            return Taken::Large;
        }
        self.members.replace(leaves, columns + i, p as u32);
        Taken::Exchanged
    }

    /// Returns how many columns the systems have.
    pub fn columns(&self) -> u32
        ensures { result ≡ self.now.columns }
    {
        self.basis.columns()
    }

    /// Returns the members of the set, in order.
    pub fn members(&self) -> &[u32]
        ensures { result.now ≡ self.now.members }
    {
        &self.members.variables
    }

    /// Returns the relation of column `t`, which is outside the set: its `d`, which is positive, the constant, and
    /// the coefficients of the members in order. No number divides them all.
    pub fn numbers(&self, alloc: Global, t: u32) -> Result<Vec<i128>, AllocError>
        requires held { (system : LinearSystem) × IsWalkOf system self.now }
        requires column { t < self.now.columns }
        requires outside { ¬ Contains self.now.members t }
        ensures shows { IfOk result (λ v. (system : LinearSystem) → IsWalkOf system self.now → ShowsRow system self.now.members t v.items) }
        ensures length { IfOk result (λ v. length v.items ≡ self.now.columns + 2) }
        ensures in_range { IfOk result (λ v. (n : ℕ) → InRange (number_at v.items n)) }
    {
        primitive_numbers(
            alloc,
            &self.members.variables,
            &self.members.slots,
            self.basis.slots(),
            self.basis.d(),
            self.basis.row(t),
        )
    }
}
