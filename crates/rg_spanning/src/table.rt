//! A table of numbers.
ghost use Rattle.std.specs.Prelude.{◌≡◌, ℕ, ◌+◌, ◌-◌, ◌*◌, ◌^◌, ◌<◌, ◌≤◌, ◌⊎◌, List, [], ◌++◌, length, replicate, take, drop, IfOk, slice_index, slice_index_or, slice_set};
ghost use Rattle.rg_spanning.specs.Rows.{rows_of};

use std::alloc::{AllocError, Global};
use std::marker::Model;

/// Rows of one length, one after the other in one list.
#[derive(Drop)]
pub(crate) struct Table {
    rows: usize,
    width: usize,
    cells: Vec<u32>,
}

impl Model for Table {
    ghost use Rattle.std.specs.Prelude.{◌≡◌, ℕ, ◌*◌, List, length};
    ghost use Rattle.rg_spanning.specs.Rows.{rows_of};

    ghost Value = { List (List ℕ) };

    ghost view = { λ t. rows_of t.rows t.width t.cells.items };

    ghost invariant = { λ t. length t.cells.items ≡ t.rows * t.width };
}

impl Table {
    // A table of zeros.
    pub(crate) fn zeros(alloc: Global, rows: u32, width: u32) -> Result<Table, AllocError>
        ensures { IfOk result (λ t. t ≡ replicate rows (replicate width 0)) }
    {
        let (rows, width) = (rows as usize, width as usize);
        let cells = vec![in alloc; 0; rows * width]?;
        Ok(Table { rows, width, cells })
    }

    // The row.
    pub(crate) fn row(&self, s: u32) -> &[u32]
        requires { s < length self.now }
        ensures { result.now ≡ slice_index_or self.now s [] }
    {
        let start = s as usize * self.width;
        &self.cells[start..start + self.width]
    }

    // Writes one row over another.
    pub(crate) fn copy_row(&mut self, from: u32, to: u32)
        requires from { from < length self.old }
        requires to { to < length self.old }
        ensures { self.new ≡ slice_set self.old to (slice_index_or self.old from []) }
    {
        let width = self.width;
        copy_cells(
            &mut self.cells,
            width,
            from as usize * width,
            to as usize * width,
        );
    }

    // Adds one to entry `t` of row `s`.
    pub(crate) fn add_one(&mut self, s: u32, t: u32)
        requires row { s < length self.old }
        requires entry { t < length (slice_index_or self.old s []) }
        requires fits { slice_index (slice_index_or self.old s []) t < 2 ^ 32 - 1 }
        ensures { self.new ≡ slice_set self.old s (slice_set (slice_index_or self.old s []) t (slice_index (slice_index_or self.old s []) t + 1)) }
    {
        self.cells[s as usize * self.width + t as usize] += 1;
    }
}

// Copies so many cells from one index to another; from before or after the cells that are written.
fn copy_cells(cells: &mut [u32], count: usize, from: usize, to: usize)
    requires from { from + count ≤ length cells.old }
    requires to { to + count ≤ length cells.old }
    requires apart { (from + count ≤ to) ⊎ (to ≤ from) }
    ensures { cells.new ≡ take to cells.old ++ (take count (drop from cells.old) ++ drop (to + count) cells.old) }
{
    for i in 0..count {
        cells[to + i] = cells[from + i];
    }
}
