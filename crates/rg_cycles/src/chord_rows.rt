//! The rows of the cycle equations, one for each chord.
ghost use Rattle.std.specs.Prelude.{◌≡◌, ◌↔◌, ◌<◌, List, ℤ, length, map, IsTrue, IfOk, All, pos};
ghost use Rattle.std.specs.Bool.{Decides};
ghost use Rattle.rg_linear.specs.Cycle.{vector_at, IsZeroVector};
ghost use Rattle.rg_cycles.specs.Vectors.{vectors_by};

use crate::chord_entry::ChordEntry;
use crate::widen::widen;
use std::alloc::{AllocError, Global};
use std::hash::Hash;

/// The rows of cycle equations: for each chord one whole number for each label. A row is listed when it is asked for.
pub trait ChordRows {
    /// What a row is hashed and compared by, without being listed.
    type Key: Copy + Hash + Drop;

    /// The rows, in order.
    ghost rows: { Self → List (List ℤ) };

    /// The row of a key.
    ghost row_of: { Self.Key → List ℤ };

    /// Returns the number of rows.
    fn count(&self) -> usize
        ensures { result ≡ length (rows self.now) };

    /// Returns the key of the row at this index.
    fn key(&self, index: usize) -> Self::Key
        requires { index < length (rows self.now) }
        ensures { row_of result ≡ vector_at (rows self.now) index };

    /// Returns whether each number of the row at this index is 0.
    fn is_zero(&self, index: usize) -> bool
        requires { index < length (rows self.now) }
        ensures { IsTrue result ↔ IsZeroVector (vector_at (rows self.now) index) };

    /// Returns the numbers of the row at this index. Returns `AllocError` if memory runs out.
    fn row(&self, alloc: Global, index: usize) -> Result<Vec<i128>, AllocError>
        requires { index < length (rows self.now) }
        ensures { IfOk result (λ v. v.items ≡ vector_at (rows self.now) index) };

    /// Keys are equal where their rows are.
    ghost compares_rows: { (a b : Self.Key) → Decides (Self.Key.eq a b) (row_of a ≡ row_of b) };
}

// Chords whose rows are listed.
#[derive(Clone, Copy)]
pub(crate) struct ListedChords<'a, N> {
    pub(crate) vectors: &'a [Vec<N>],
}

impl<'a, N: ChordEntry> ChordRows for ListedChords<'a, N> {
    ghost use Rattle.rg_cycles.specs.Slices.{slices_decide};

    type Key = &'a [N];

    ghost rows = { λ s. vectors_by N.numbers s.vectors.now };

    ghost row_of = { λ key. N.numbers key.now };

    ghost compares_rows = { λ a b. slices_decide N.number N.numbers N.one_each N.eq N.compares_numbers a.now b.now };

    fn count(&self) -> usize {
        self.vectors.len()
    }

    fn key(&self, index: usize) -> &'a [N] {
        self.vectors[index].as_slice()
    }

    fn is_zero(&self, index: usize) -> bool {
        are_zeros(&self.vectors[index])
    }

    fn row(&self, alloc: Global, index: usize) -> Result<Vec<i128>, AllocError> {
        widen(alloc, &self.vectors[index])
    }
}

// Whether each entry is 0.
fn are_zeros<N: ChordEntry>(entries: &[N]) -> bool
    ensures { IsTrue result ↔ All (λ z. N.number z ≡ pos 0) entries.now }
{
    entries.iter().all(|z| z.number() == 0)
}
