//! The numbers of a row with their hash.
ghost use Rattle.std.specs.Prelude.{◌≡◌, ◌/◌, ◌%◌, ◌^◌, length};
ghost use Rattle.std.specs.Int.{w128, cast_unsigned};
ghost use Rattle.std.specs.Hash as fed;
ghost use Rattle.std.specs.Ordering.{int_eq};
ghost use Rattle.std.specs.Cmp.Lexicographic.{pointwise};
ghost use Rattle.std.specs.Cmp.Rules.{comparing, hashing};
ghost use Rattle.std.proofs.Common.{rules};
ghost use Rattle.rg_rows.specs.Hashing.{with_word, hash_with, numbers_hash};

use std::hash::{Hash, Hasher};
use std::marker::Model;

// An odd factor whose powers differ in many bits.
const HASH_FACTOR: u64 = 0x9e37_79b9_7f4a_7c15;

/// The numbers of a row. They are hashed once, where they are written.
#[derive(Drop)]
pub(crate) struct RowNumbers {
    numbers: Vec<i128>,
    hash: u64,
}

impl Model for RowNumbers {
    ghost use Rattle.std.specs.Prelude.{◌≡◌, List, ℤ};
    ghost use Rattle.rg_rows.specs.Hashing.{numbers_hash};

    ghost Value = { List ℤ };

    ghost view = { λ r. r.numbers.items };

    ghost invariant = { λ r. r.hash ≡ numbers_hash r.numbers.items };
}

impl RowNumbers {
    // The numbers with their hash.
    pub(crate) fn new(numbers: Vec<i128>) -> RowNumbers
        ensures { result ≡ numbers.items }
    {
        let hash = numbers_hash(&numbers);
        RowNumbers { numbers, hash }
    }

    // The hash of the numbers.
    pub(crate) fn hash(&self) -> u64
        ensures { result ≡ numbers_hash self.now }
    {
        self.hash
    }
}

impl PartialEq for RowNumbers {
    ghost eq = { pointwise int_eq };

    ghost laws = { Prim.search (comparing, rules) };

    fn eq(&self, other: &RowNumbers) -> bool {
        self.hash == other.hash && self.numbers == other.numbers
    }
}

impl Eq for RowNumbers {
    ghost laws = { Prim.search (comparing, rules) };
}

impl Hash for RowNumbers {
    ghost hash_input = { λ numbers. fed.u64 (numbers_hash numbers) };

    ghost respects_eq = { Prim.search (hashing, rules) };

    fn hash<H: Hasher>(&self, state: &mut H) {
        state.write_u64(self.hash);
    }
}

// The hash of all numbers in order.
fn numbers_hash(numbers: &[i128]) -> u64
    ensures { result ≡ numbers_hash numbers.now }
{
    let mut hash = 0u64;
    for &number in numbers {
        hash = hash_with(hash, number);
    }
    hash
}

// The hash with a further number: its low word, then its high one, so that multiples of 2^64 don't fall together.
fn hash_with(hash: u64, number: i128) -> u64
    ensures { result ≡ hash_with hash number }
{
    with_word(with_word(hash, low_word(number)), high_word(number))
}

// The hash with a further word.
fn with_word(hash: u64, word: u64) -> u64
    ensures { result ≡ with_word hash word }
{
    hash.wrapping_mul(HASH_FACTOR).wrapping_add(word)
}

// The lowest 64 bits of the number.
fn low_word(number: i128) -> u64
    ensures { result ≡ cast_unsigned w128 number % 2 ^ 64 }
{
    (number.cast_unsigned() % (1 << 64)) as u64
}

// The highest 64 bits of the number.
fn high_word(number: i128) -> u64
    ensures { result ≡ cast_unsigned w128 number / 2 ^ 64 }
{
    (number.cast_unsigned() / (1 << 64)) as u64
}
