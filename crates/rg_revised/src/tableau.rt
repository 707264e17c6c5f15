//! What a descent works on.

ghost use Rattle.std.specs.Prelude.{◌≡◌, ◌↔◌, ℕ, ◌<◌, ◌≤◌, List, length, Contains, slice_index, IsTrue, IfOk, IfSome, IfNone, pos, ◌≤ℤ◌, ◌<ℤ◌, unsigned_abs};
ghost use Rattle.rg_integers.specs.Range.{InRange};
ghost use Rattle.rg_integers.specs.Sum.{number_at};
ghost use Rattle.rg_linear.specs.System.{LinearSystem};
ghost use Rattle.rg_linear.specs.Dictionary.{numbers_from};
ghost use Rattle.rg_revised.specs.Reading.{IsVacant, constant_over};
ghost use Rattle.rg_revised.specs.State.{HasRoomIn, IsRow, IsTableauOf};
ghost use Rattle.rg_revised.specs.Settling.{IsCommonFactor};
ghost use Rattle.rg_revised.specs.Reaching.{IsCopyWith};
ghost use Rattle.rg_revised.specs.View.{saved_of};

use crate::basis::Basis;
use crate::factor::common_factor;
use crate::members::slot_of;
use crate::naming::{constant_of, gather, long_constant_of};
use crate::room::Room;
use crate::saved::Saved;
use std::alloc::{AllocError, Global};
use std::marker::Model;

/// The relations of the columns, their constants, the columns where these aren't 0, and the numbers of one row's
/// relation over `over`. No number of the table is larger than the room allows. A long descent has sums and products
/// of 128 bits.
#[derive(Drop)]
pub(crate) struct Tableau {
    pub(crate) basis: Basis,
    pub(crate) constants: Vec<i64>,
    pub(crate) named: Vec<u32>,
    pub(crate) numbers: Vec<i64>,
    pub(crate) over: i64,
    pub(crate) room: Room,
    pub(crate) sums: Vec<i128>,
    pub(crate) products: Vec<i128>,
}

impl Model for Tableau {
    ghost use Rattle.std.specs.Prelude.{length, unsigned_abs, vec_capacity};
    ghost use Rattle.rg_revised.specs.View.{TableauState, HasSizes};

    ghost Value = { TableauState };

    ghost view = { λ a. record { basis = a.basis; constants = a.constants.items; named = a.named.items; numbers = a.numbers.items; over = a.over; norm = a.room.norm; most = unsigned_abs a.room.most; long = a.room.long } };

    ghost invariant = { λ a. HasSizes (record { basis = a.basis; constants = a.constants.items; named = a.named.items; numbers = a.numbers.items; over = a.over; norm = a.room.norm; most = unsigned_abs a.room.most; long = a.room.long })
        (vec_capacity a.named) a.room.most (length a.sums.items) (length a.products.items) };
}

impl Tableau {
    /// Returns a tableau for so many columns, with all memory that a descent needs.
    pub(crate) fn new(alloc: Global, columns: u32) -> Result<Tableau, AllocError>
        ensures { IfOk result (λ t. length t.basis.slots ≡ columns) }
    {
        let basis = Basis::new(alloc, columns)?;
        let columns = columns as usize;
        let numbers = vec![in alloc; 0i64; columns + 1]?;
        let constants = vec![in alloc; 0i64; columns]?;
        let named = Vec::with_capacity(alloc, columns)?;
        let sums = vec![in alloc; 0i128; columns + 2]?;
        let products = vec![in alloc; 0i128; basis.size() + 1]?;
        Ok(Tableau {
            basis,
            constants,
            named,
            numbers,
            over: 1,
            room: Room {
                norm: 0,
                most: 0,
                long: false,
            },
            sums,
            products,
        })
    }

    /// Makes it that of the columns alone, with this room.
    pub(crate) fn restart(&mut self, room: Room)
        requires { pos 0 ≤ℤ room.most }
        ensures started { (system : LinearSystem) → system.columns ≡ length self.old.basis.slots → HasRoomIn system room.norm (unsigned_abs room.most) room.long → IsTableauOf system (numbers_from 0 system.columns) self.new }
        ensures norm { self.new.norm ≡ room.norm }
        ensures columns { length self.new.basis.slots ≡ length self.old.basis.slots }
    {
        self.basis.restart();
        gather(&self.basis, &mut self.constants, &mut self.named);
        self.room = room;
    }

    /// Returns a copy of the relations.
    pub(crate) fn save(&self, alloc: Global) -> Result<Saved, AllocError>
        ensures { IfOk result (λ s. s ≡ saved_of self.now) }
    {
        Ok(Saved {
            basis: self.basis.copy(alloc)?,
            room: self.room,
        })
    }

    /// Puts the relations of a copy in place of these.
    pub(crate) fn restore(&mut self, saved: Saved)
        requires { saved.columns ≡ length self.old.basis.slots }
        ensures relations { (system : LinearSystem) (members : List ℕ) → IsCopyWith system members saved → IsTableauOf system members self.new }
        ensures norm { self.new.norm ≡ saved.norm }
        ensures columns { length self.new.basis.slots ≡ length self.old.basis.slots }
    {
        self.basis = saved.basis;
        self.room = saved.room;
        gather(&self.basis, &mut self.constants, &mut self.named);
    }

    /// Returns the constant of the relation of the row with these coefficients and this constant.
    pub(crate) fn constant(&self, coeffs: &[i128], constant: i128) -> i128
        requires { (system : LinearSystem) × (members : List ℕ) × (i : ℕ) × IsTableauOf system members self.now × IsRow system i coeffs.now constant }
        ensures value { result ≡ constant_over coeffs.now self.now.constants constant self.now.basis.d }
        ensures in_range { InRange result }
    {
        let d = self.basis.d();
        if self.room.long {
            return long_constant_of(coeffs, constant, &self.named, &self.constants, d);
        }
        constant_of(coeffs, constant, &self.named, &self.constants, d)
    }

    /// Returns whether the row with these coefficients and this constant fails.
    pub(crate) fn fails_at(&self, coeffs: &[i128], constant: i128) -> bool
        requires { (system : LinearSystem) × (members : List ℕ) × (i : ℕ) × IsTableauOf system members self.now × IsRow system i coeffs.now constant }
        ensures { IsTrue result ↔ (constant_over coeffs.now self.now.constants constant self.now.basis.d <ℤ pos 0) }
    {
        self.constant(coeffs, constant) < 0
    }

    /// Returns how many columns there are.
    pub(crate) fn columns(&self) -> u32
        ensures { result ≡ length self.now.basis.slots }
    {
        self.basis.columns()
    }

    /// Returns the bound on the norms of rows.
    pub(crate) fn norm(&self) -> u64
        ensures { result ≡ self.now.norm }
    {
        self.room.norm
    }

    /// Returns the denominator of the relations.
    pub(crate) fn d(&self) -> i64
        ensures { result ≡ self.now.basis.d }
    {
        self.basis.d()
    }

    /// Returns the slot of the variable that leaves for the one whose relation has the numbers.
    pub(crate) fn leaving(&self, stack: &[u32]) -> Option<usize>
        ensures is { IfSome result (IsVacant (length self.now.basis.slots) self.now.basis.slots stack.now self.now.numbers) }
        ensures least { IfSome result (λ p. (q : ℕ) → IsVacant (length self.now.basis.slots) self.now.basis.slots stack.now self.now.numbers q → slice_index self.now.basis.slots p ≤ slice_index self.now.basis.slots q) }
        ensures none { IfNone result ((q : ℕ) → ¬ IsVacant (length self.now.basis.slots) self.now.basis.slots stack.now self.now.numbers q) }
    {
        self.basis.leaving(stack, &self.numbers)
    }

    /// Returns the denominator of the numbers.
    pub(crate) fn over(&self) -> i64
        ensures { result ≡ self.now.over }
    {
        self.over
    }

    /// Returns the greatest number that divides the denominator of the numbers and these.
    pub(crate) fn common_factor(&self) -> i128
        requires { pos 0 <ℤ self.now.over }
        ensures factor { IsCommonFactor self.now.over self.now.numbers result }
        ensures in_range { InRange result }
    {
        common_factor(self.over, &self.numbers)
    }

    /// Returns the number of the variable, if it has a slot.
    pub(crate) fn number_of(&self, variable: u32) -> Option<i64>
        ensures found { IfSome result (λ z. (s : ℕ) × (s < length self.now.basis.slots) × (slice_index self.now.basis.slots s ≡ variable) × (z ≡ number_at self.now.numbers s)) }
        ensures none { IfNone result (¬ Contains self.now.basis.slots variable) }
    {
        match slot_of(self.basis.slots(), variable) {
            Some(slot) => Some(self.numbers[slot]),
            None => None,
        }
    }
}
