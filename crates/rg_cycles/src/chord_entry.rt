//! The entries of a chord.
ghost use Rattle.std.specs.Prelude.{◌≡◌, List, map, ℤ};
ghost use Rattle.std.specs.Ordering.{int_eq};
ghost use Rattle.std.proofs.Common.{refl, sym, map-id};

use std::hash::Hash;

/// An entry of a chord, which is a whole number: an `i64` or an `i128`.
pub trait ChordEntry: Copy + Hash {
    /// The whole number that an entry is.
    ghost number: { Self → ℤ };

    /// The whole numbers that entries are, in order.
    ghost numbers: { List Self → List ℤ };

    /// Returns the whole number that the entry is.
    fn number(self) -> i128
        ensures { result ≡ number self };

    /// The numbers are those of each entry.
    ghost one_each: { (entries : List Self) → numbers entries ≡ map number entries };

    /// Entries are equal where their numbers are.
    ghost compares_numbers: { (a b : Self) → Self.eq a b ≡ int_eq (number a) (number b) };
}

impl ChordEntry for i64 {
    ghost number = { λ entry. entry };

    ghost numbers = { λ entries. entries };

    ghost one_each = { λ entries. sym (map-id entries) };

    ghost compares_numbers = { λ a b. refl };

    fn number(self) -> i128 {
        i128::from(self)
    }
}

impl ChordEntry for i128 {
    ghost number = { λ entry. entry };

    ghost numbers = { λ entries. entries };

    ghost one_each = { λ entries. sym (map-id entries) };

    ghost compares_numbers = { λ a b. refl };

    fn number(self) -> i128 {
        self
    }
}
