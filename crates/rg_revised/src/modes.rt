//! What a step does with the tableau: it reads a row, and makes an exchange. A short descent and a long one differ
//! here alone.

ghost use Rattle.std.specs.Prelude.{◌≡◌, ℕ, List, length, false, true, IsTrue};
ghost use Rattle.rg_linear.specs.System.{LinearSystem};
ghost use Rattle.rg_revised.specs.State.{IsRow, IsTableauOf, IsRowRead, HasShortNumbers, CanExchange, IsSetExchange, IsTableauExchange};

use crate::naming::gather;
use crate::narrowing::{largest_size, narrow};
use crate::tableau::Tableau;
use rg_fraction::reduce;

impl Tableau {
    // Reads the row in 64 bits.
    fn read_short(&mut self, coeffs: &[i128], constant: i128)
        requires short { self.old.long ≡ false }
        requires whole { (system : LinearSystem) × (members : List ℕ) × (i : ℕ) × IsTableauOf system members self.old × IsRow system i coeffs.now constant }
        ensures read { (system : LinearSystem) (members : List ℕ) (i : ℕ) → IsTableauOf system members self.old → IsRow system i coeffs.now constant → IsRowRead system members i coeffs.now constant self.old self.new }
        ensures short { HasShortNumbers self.new }
        ensures norm { self.new.norm ≡ self.old.norm }
        ensures columns { length self.new.basis.slots ≡ length self.old.basis.slots }
    {
        self.basis.read(coeffs, constant, &mut self.numbers);
        self.over = self.basis.d();
    }

    // Reads the row in 128 bits, and takes the common factor out.
    fn read_long(&mut self, coeffs: &[i128], constant: i128) -> bool
        requires long { self.old.long ≡ true }
        requires whole { (system : LinearSystem) × (members : List ℕ) × (i : ℕ) × IsTableauOf system members self.old × IsRow system i coeffs.now constant }
        ensures read { IsTrue result → (system : LinearSystem) (members : List ℕ) (i : ℕ) → IsTableauOf system members self.old → IsRow system i coeffs.now constant → IsRowRead system members i coeffs.now constant self.old self.new }
        ensures short { IsTrue result → HasShortNumbers self.new }
        ensures norm { self.new.norm ≡ self.old.norm }
        ensures columns { length self.new.basis.slots ≡ length self.old.basis.slots }
    {
        self.basis.sum(coeffs, constant, &mut self.sums);
        reduce(&mut self.sums);
        match narrow(&self.sums, &mut self.numbers) {
            Some(over) => {
                self.over = over;
                true
            }
            None => false,
        }
    }

    /// Makes the numbers those of a relation of the row with these coefficients and this constant. False where one is
    /// too large.
    pub(crate) fn read(&mut self, coeffs: &[i128], constant: i128) -> bool
        requires whole { (system : LinearSystem) × (members : List ℕ) × (i : ℕ) × IsTableauOf system members self.old × IsRow system i coeffs.now constant }
        ensures read { IsTrue result → (system : LinearSystem) (members : List ℕ) (i : ℕ) → IsTableauOf system members self.old → IsRow system i coeffs.now constant → IsRowRead system members i coeffs.now constant self.old self.new }
        ensures short { IsTrue result → HasShortNumbers self.new }
        ensures norm { self.new.norm ≡ self.old.norm }
        ensures columns { length self.new.basis.slots ≡ length self.old.basis.slots }
    {
        if self.room.long {
            return self.read_long(coeffs, constant);
        }
        self.read_short(coeffs, constant);
        true
    }

    // Makes the exchange in 64 bits.
    fn exchange_short(&mut self, p: usize, variable: u32) -> bool
        requires short { self.old.long ≡ false }
        requires relation { CanExchange self.old p variable }
        ensures exchanged { IsTrue result → IsSetExchange self.old p variable self.new }
        ensures norm { self.new.norm ≡ self.old.norm }
        ensures columns { length self.new.basis.slots ≡ length self.old.basis.slots }
    {
        self.basis
            .exchange(p, variable, &mut self.numbers, self.room.most)
    }

    // Makes the exchange in 128 bits, and takes the common factor out.
    fn exchange_long(&mut self, p: usize, variable: u32) -> bool
        requires long { self.old.long ≡ true }
        requires relation { CanExchange self.old p variable }
        ensures exchanged { IsTrue result → IsSetExchange self.old p variable self.new }
        ensures norm { self.new.norm ≡ self.old.norm }
        ensures columns { length self.new.basis.slots ≡ length self.old.basis.slots }
    {
        let largest = largest_size(self.over, &self.numbers);
        if !self.room.fits_exchange(largest) {
            return false;
        }
        if !self.basis.exchange_long(
            p,
            variable,
            self.over,
            &mut self.numbers,
            &mut self.products,
        ) {
            return false;
        }
        self.room.most = self.basis.largest();
        true
    }

    // Makes the exchange; the constants stay.
    fn exchange_set(&mut self, p: usize, variable: u32) -> bool
        requires relation { CanExchange self.old p variable }
        ensures exchanged { IsTrue result → IsSetExchange self.old p variable self.new }
        ensures norm { self.new.norm ≡ self.old.norm }
        ensures columns { length self.new.basis.slots ≡ length self.old.basis.slots }
    {
        if self.room.long {
            self.exchange_long(p, variable)
        } else {
            self.exchange_short(p, variable)
        }
    }

    /// Exchanges the variable whose relation has the numbers with that of slot `p`. False where a number is too
    /// large; then nothing is said of the tableau.
    pub(crate) fn exchange(&mut self, p: usize, variable: u32) -> bool
        requires relation { CanExchange self.old p variable }
        ensures exchanged { IsTrue result → IsTableauExchange self.old p variable self.new }
        ensures norm { self.new.norm ≡ self.old.norm }
        ensures columns { length self.new.basis.slots ≡ length self.old.basis.slots }
    {
        if !self.exchange_set(p, variable) {
            return false;
        }
        gather(&self.basis, &mut self.constants, &mut self.named);
        true
    }
}
