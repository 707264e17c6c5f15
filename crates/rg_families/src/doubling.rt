//! Doubling: each label has twice the effect of the one before it.
ghost use Rattle.std.specs.Prelude.{◌≡◌, ◌+◌, ◌≤◌, ◌++◌, map, string_bytes, IfOk, OnOk};
ghost use Rattle.rg_families.specs.declared.Kind.TheVariants.{Doubling};
ghost use Rattle.rg_families.specs.Families.{IsFamilyNumber};
ghost use Rattle.rg_families.specs.Named.{IsSystemOf, names_of, triple_of, each_below, row};
ghost use Rattle.rg_families.specs.Doubling.{most_doubling, corner, middle, step, doubled, doubling};

use crate::named::{NamedArc, build};
use rg_lts::Lts;
use rg_memory::NoMemory;
use std::alloc::{AllocError, Global};

/// The greatest number of doublings.
pub const MOST_DOUBLING: u32 = 255;

// The system of so many doublings.
pub(crate) fn doubling(alloc: Global, n: u32) -> Result<Lts, NoMemory>
    requires { IsFamilyNumber Doubling n }
    ensures { IfOk result (IsSystemOf (doubling n)) }
{
    let states = states(alloc, n)?;
    let labels = labels(alloc, n)?;
    let arcs = arcs(alloc, n)?;
    let initial = corner(alloc, 0)?;
    build(alloc, &states, &labels, &arcs, &initial)
}

// The name of the state at which this many doublings have ended.
fn corner(alloc: Global, i: u32) -> Result<String, AllocError>
    ensures { IfOk result (λ name. string_bytes name ≡ corner i) }
{
    format!(in alloc; "q{i}")
}

// The name of the state in the middle of a doubling.
fn middle(alloc: Global, i: u32) -> Result<String, AllocError>
    ensures { IfOk result (λ name. string_bytes name ≡ middle i) }
{
    format!(in alloc; "m{i}")
}

// The name of a label.
fn step(alloc: Global, i: u32) -> Result<String, AllocError>
    ensures { IfOk result (λ name. string_bytes name ≡ step i) }
{
    format!(in alloc; "a{i}")
}

// The names of the states.
fn states(alloc: Global, n: u32) -> Result<Vec<String>, NoMemory>
    requires { n ≤ most_doubling }
    ensures { IfOk result (λ names. names_of names.items ≡ (doubling n).states) }
{
    let mut names = Vec::new(alloc);
    names.push(corner(alloc, 0)?)?;
    for i in 0..n {
        names.push(middle(alloc, i + 1)?)?;
        names.push(corner(alloc, i + 1)?)?;
    }
    Ok(names)
}

// The names of the labels.
fn labels(alloc: Global, n: u32) -> Result<Vec<String>, NoMemory>
    requires { n ≤ most_doubling }
    ensures { IfOk result (λ names. names_of names.items ≡ row (n + 1) step) }
{
    let mut names = Vec::new(alloc);
    for i in 0..n + 1 {
        names.push(step(alloc, i)?)?;
    }
    Ok(names)
}

// The arcs.
fn arcs(alloc: Global, n: u32) -> Result<Vec<NamedArc>, NoMemory>
    requires { n ≤ most_doubling }
    ensures { IfOk result (λ arcs. map triple_of arcs.items ≡ each_below n doubled) }
{
    let mut arcs = Vec::new(alloc);
    for i in 0..n {
        push_doubling(alloc, &mut arcs, i)?;
    }
    Ok(arcs)
}

// Adds the arcs of a doubling.
fn push_doubling(alloc: Global, arcs: &mut Vec<NamedArc>, i: u32) -> Result<(), NoMemory>
    requires { i ≤ most_doubling }
    ensures { OnOk result (map triple_of arcs.new.items ≡ map triple_of arcs.old.items ++ doubled i) }
{
    arcs.push(NamedArc {
        from: corner(alloc, i)?,
        label: step(alloc, i)?,
        to: middle(alloc, i + 1)?,
    })?;
    arcs.push(NamedArc {
        from: middle(alloc, i + 1)?,
        label: step(alloc, i)?,
        to: corner(alloc, i + 1)?,
    })?;
    arcs.push(NamedArc {
        from: corner(alloc, i)?,
        label: step(alloc, i + 1)?,
        to: corner(alloc, i + 1)?,
    })?;
    Ok(())
}
