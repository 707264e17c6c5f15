//! The rows of the table in an exchange.

ghost use Rattle.std.specs.Prelude.{◌≡◌, ◌≢◌, ◌↔◌, ℕ, ◌+◌, ◌*◌, ◌^◌, ◌<◌, ◌≤◌, IsTrue, length, Contains, slice_index, pos, MatchResult};
ghost use Rattle.std.specs.List.Sorted.{IsStrictlyIncreasing};
ghost use Rattle.rg_integers.specs.Sum.{number_at};
ghost use Rattle.rg_linear.specs.System.{LinearSystem, variables as variables_of};
ghost use Rattle.rg_linear.specs.Dictionary.{IsFree};
ghost use Rattle.rg_linear.specs.Exchange.{without};
ghost use Rattle.rg_linear.specs.Table.{IsTable, index_for, row_at};
ghost use Rattle.rg_feasible.specs.Renewal.{RowInRange, RowsExchanged, FirstWideInRows, IsExchangedTable, FirstWideInTable};

use crate::row::{copy_signed, exchange_row, write_leaving};
use rg_integers::Wide;

/// The first term of an exchange that is out of range: in the new relation of the variable `target`
/// it is term number `entry`, counted from 0, and has the four numbers of `wide`.
#[derive(Clone, Copy, PartialEq, Eq, Debug)]
pub struct ExchangeWide {
    pub target: u32,
    pub entry: u32,
    pub wide: Wide,
}

// How many members are below the variable.
fn members_below(members: &[u32], variable: u32) -> usize
    requires { IsStrictlyIncreasing members.now }
    ensures bound { result ≤ length members.now }
    ensures below { (k : ℕ) → k < result → slice_index members.now k < variable }
    ensures others { (k : ℕ) → result ≤ k → k < length members.now → variable ≤ slice_index members.now k }
{
    members.partition_point(|member| *member < variable)
}

// Whether the variable is the member at this index.
fn stands_at(members: &[u32], index: usize, variable: u32) -> bool
    ensures { IsTrue result ↔ (index < length members.now) × (slice_index members.now index ≡ variable) }
{
    index < members.len() && members[index] == variable
}

/// Returns whether the variable is a member.
pub(crate) fn is_member(members: &[u32], variable: u32) -> bool
    requires { IsStrictlyIncreasing members.now }
    ensures { IsTrue result ↔ Contains members.now variable }
{
    let below = members_below(members, variable);
    stands_at(members, below, variable)
}

/// Returns the index of the pivot among the members, where the one at this index has left.
pub(crate) fn new_index(members: &[u32], index: usize, pivot: u32) -> usize
    requires ordered { IsStrictlyIncreasing members.now }
    requires index { index < length members.now }
    requires outside { Contains members.now pivot → ⊥ }
    ensures value { result ≡ index_for pivot (without (slice_index members.now index) members.now) }
    ensures bound { result < length members.now }
{
    let below = members_below(members, pivot);
    if index < below { below - 1 } else { below }
}

/// Returns the rows of all variables but the members and the pivot, over the new set: the member at index `p` of a
/// row leaves, and the pivot's number comes to index `q`. Else the first term that passes.
pub(crate) fn exchange_rows(
    table: &mut [i128],
    members: &[u32],
    pivot: u32,
    pivot_row: &[i128],
    p: usize,
    q: usize,
    variables: u32,
) -> Result<(), ExchangeWide>
    requires size { length table.old ≡ variables * length pivot_row.now }
    requires ordered { IsStrictlyIncreasing members.now }
    requires index { p < length pivot_row.now }
    requires after_constant { 1 < p }
    requires new_index { q < length pivot_row.now }
    requires short { length pivot_row.now ≤ 2 ^ 32 }
    requires pivot_in_range { RowInRange pivot_row.now }
    requires in_range { RowInRange table.old }
    ensures rows { MatchResult result (λ _. RowsExchanged members.now pivot (length pivot_row.now) pivot_row.now table.old table.new p q variables)
        (λ e. FirstWideInRows members.now pivot (length pivot_row.now) pivot_row.now table.old p variables e) }
    ensures in_range { RowInRange table.new }
{
    let width = pivot_row.len();
    // how many members are below `w`
    let mut next = 0;
    for w in 0..variables {
        if stands_at(members, next, w) {
            next += 1;
        } else if w != pivot {
            let start = w as usize * width;
            match exchange_row(&mut table[start..start + width], pivot_row, p, q) {
                Ok(()) => {}
                Err(e) => {
                    return Err(ExchangeWide {
                        target: w,
                        entry: e.entry as u32,
                        wide: e.wide,
                    });
                }
            }
        }
    }
    Ok(())
}

/// Returns the table over the set in which the pivot takes the place of the member at `index`, at index `to` of the
/// new members; else the first term that passes. `pivot_row` is to work in.
pub(crate) fn exchange_table(
    table: &mut [i128],
    members: &[u32],
    pivot_row: &mut [i128],
    pivot: u32,
    index: usize,
    to: usize,
    variables: u32,
) -> Result<(), ExchangeWide>
    requires size { length table.old ≡ variables * (length members.now + 2) }
    requires width { length pivot_row.old ≡ length members.now + 2 }
    requires ordered { IsStrictlyIncreasing members.now }
    requires within { (k : ℕ) → k < length members.now → slice_index members.now k < variables }
    requires pivot { pivot < variables }
    requires outside { Contains members.now pivot → ⊥ }
    requires index { index < length members.now }
    requires new_index { to ≡ index_for pivot (without (slice_index members.now index) members.now) }
    requires to_inside { to < length members.now }
    requires in_range { RowInRange table.old }
    ensures exact { (system : LinearSystem) → variables_of system ≡ variables → IsFree system members.now → IsTable system members.now table.old
        → number_at (row_at (length members.now + 2) table.old pivot) (index + 2) ≢ pos 0 → let leaves = slice_index members.now index in
        MatchResult result (λ _. IsExchangedTable system members.now pivot leaves table.new) (λ e. FirstWideInTable system members.now pivot leaves e) }
    ensures in_range { RowInRange table.new }
{
    let width = pivot_row.len();
    let start = pivot as usize * width;
    copy_signed(&table[start..start + width], pivot_row, index + 2);
    match exchange_rows(
        table,
        members,
        pivot,
        pivot_row,
        index + 2,
        to + 2,
        variables,
    ) {
        Ok(()) => {}
        Err(wide) => return Err(wide),
    }
    let start = members[index] as usize * width;
    write_leaving(
        &mut table[start..start + width],
        pivot_row,
        index + 2,
        to + 2,
    );
    Ok(())
}
