//! Grids: two counters that count up, each to the number.
ghost use Rattle.std.specs.Prelude.{◌≡◌, ◌+◌, ◌≤◌, ◌++◌, ◌∷◌, [], codes, map, string_bytes, IfOk, OnOk};
ghost use Rattle.rg_families.specs.declared.Kind.TheVariants.{Grid};
ghost use Rattle.rg_families.specs.Families.{IsFamilyNumber};
ghost use Rattle.rg_families.specs.Named.{IsSystemOf, names_of, triple_of, each_below, row};
ghost use Rattle.rg_families.specs.Grid.{most_grid, point, points, move, moves, grid};

use crate::named::{NamedArc, build};
use rg_lts::Lts;
use rg_memory::NoMemory;
use std::alloc::{AllocError, Global};

/// The greatest number of a grid.
pub const MOST_GRID: u32 = 63;

// Which counter counts.
#[derive(Clone, Copy, Debug, PartialEq, Eq)]
enum Direction {
    Right,
    Up,
}

// The grid of this number.
pub(crate) fn grid(alloc: Global, n: u32) -> Result<Lts, NoMemory>
    requires { IsFamilyNumber Grid n }
    ensures { IfOk result (IsSystemOf (grid n)) }
{
    let states = points(alloc, n)?;
    let labels = labels(alloc)?;
    let mut arcs = Vec::new(alloc);
    push_moves(alloc, &mut arcs, Direction::Right, n, n + 1)?;
    push_moves(alloc, &mut arcs, Direction::Up, n + 1, n)?;
    let initial = point(alloc, 0, 0)?;
    build(alloc, &states, &labels, &arcs, &initial)
}

// The name of the state in which the counters have counted this far.
fn point(alloc: Global, i: u32, j: u32) -> Result<String, AllocError>
    ensures { IfOk result (λ name. string_bytes name ≡ point i j) }
{
    format!(in alloc; "g{i}_{j}")
}

// The names of all states, row by row.
fn points(alloc: Global, n: u32) -> Result<Vec<String>, NoMemory>
    requires { n ≤ most_grid }
    ensures { IfOk result (λ names. names_of names.items ≡ points n) }
{
    let mut names = Vec::new(alloc);
    for i in 0..n + 1 {
        push_row(alloc, &mut names, i, n + 1)?;
    }
    Ok(names)
}

// Adds the names of the states of a row.
fn push_row(alloc: Global, names: &mut Vec<String>, i: u32, columns: u32) -> Result<(), NoMemory>
    ensures { OnOk result (names_of names.new.items ≡ names_of names.old.items ++ row columns (point i)) }
{
    for j in 0..columns {
        names.push(point(alloc, i, j)?)?;
    }
    Ok(())
}

// The labels.
fn labels(alloc: Global) -> Result<Vec<String>, NoMemory>
    ensures { IfOk result (λ names. names_of names.items ≡ codes "right" ∷ codes "up" ∷ []) }
{
    let mut names = Vec::new(alloc);
    names.push(String::from_str(alloc, "right")?)?;
    names.push(String::from_str(alloc, "up")?)?;
    Ok(names)
}

// Adds the moves of a counter from the points of these rows and columns.
fn push_moves(
    alloc: Global,
    arcs: &mut Vec<NamedArc>,
    direction: Direction,
    rows: u32,
    columns: u32,
) -> Result<(), NoMemory>
    requires rows { rows ≤ most_grid + 1 }
    requires columns { columns ≤ most_grid + 1 }
    ensures { OnOk result (map triple_of arcs.new.items ≡ map triple_of arcs.old.items ++ moves direction rows columns) }
{
    for i in 0..rows {
        push_moves_of_row(alloc, arcs, direction, i, columns)?;
    }
    Ok(())
}

// Adds the moves from the points of a row.
fn push_moves_of_row(
    alloc: Global,
    arcs: &mut Vec<NamedArc>,
    direction: Direction,
    i: u32,
    columns: u32,
) -> Result<(), NoMemory>
    requires row { i ≤ most_grid + 1 }
    requires columns { columns ≤ most_grid + 1 }
    ensures { OnOk result (map triple_of arcs.new.items ≡ map triple_of arcs.old.items ++ row columns (move direction i)) }
{
    for j in 0..columns {
        arcs.push(move_from(alloc, direction, i, j)?)?;
    }
    Ok(())
}

// The move from a point.
fn move_from(alloc: Global, direction: Direction, i: u32, j: u32) -> Result<NamedArc, NoMemory>
    requires row { i ≤ most_grid + 1 }
    requires column { j ≤ most_grid + 1 }
    ensures { IfOk result (λ arc. triple_of arc ≡ move direction i j) }
{
    let from = point(alloc, i, j)?;
    let (label, to) = match direction {
        Direction::Right => ("right", point(alloc, i + 1, j)?),
        Direction::Up => ("up", point(alloc, i, j + 1)?),
    };
    Ok(NamedArc {
        from,
        label: String::from_str(alloc, label)?,
        to,
    })
}
