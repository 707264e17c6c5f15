//! Branching written plainly: a recursion that copies its rows, and forms computed from the columns, with numbers so
//! small that none passes.
ghost use Rattle.std.specs.Prelude.{◌≡◌, ℕ, ◌+◌, ◌≤◌, length, IfOk};
ghost use Rattle.rg_feasible.specs.Settling.{IsWhole, IsRefutation};

use crate::systems::{Told, system};
use rg_branch::{Bounded, RawNode, Whole};
use rg_branch_trees::Side;
use rg_feasible::{Dictionary, Settled};
use rg_fraction::Fraction;
use rg_linear::{Row, System};
use std::alloc::{AllocError, Global};
use std::test::Fail;

// The rows of one side of a split.
fn side(
    alloc: Global,
    rows: &[Row],
    form: &Bounded,
    at: i64,
    high: bool,
) -> Result<Vec<Row>, AllocError> {
    let mut copies = Vec::new(alloc);
    for row in rows {
        copies.push(Row::new(row.coeffs.to_vec(alloc)?, row.constant))?;
    }
    let sign = if high { 1i128 } else { -1 };
    let mut coeffs = Vec::new(alloc);
    for coefficient in form.coeffs.iter() {
        coeffs.push(sign.wrapping_mul(*coefficient))?;
    }
    let end = if high {
        i128::from(at) + 1
    } else {
        i128::from(at)
    };
    let constant = sign
        .wrapping_mul(form.scale.wrapping_mul(end))
        .wrapping_neg();
    copies.push(Row::new(coeffs, constant))?;
    Ok(copies)
}

// The values of the columns.
fn values(alloc: Global, dictionary: &Dictionary, columns: u32) -> Result<Vec<Fraction>, AllocError>
    requires whole { IsWhole dictionary.now }
    requires columns { columns ≤ dictionary.now.table.columns + dictionary.now.table.rows }
{
    let mut values = Vec::new(alloc);
    for j in 0..columns {
        values.push(dictionary.point(j))?;
    }
    Ok(values)
}

fn leaf(alloc: Global, dictionary: &Dictionary, rows: u32) -> Result<RawNode, AllocError>
    requires refuted { (i : ℕ) × IsRefutation dictionary.now i }
    requires rows { rows ≤ dictionary.now.table.rows }
{
    let mut weights = Vec::new(alloc);
    for row in 0..rows {
        let multiplier = dictionary.multiplier(row);
        if multiplier != 0 {
            weights.push((row, multiplier))?;
        }
    }
    Ok(RawNode::Leaf(weights))
}

// The form where the columns have these values: a numerator and a denominator.
fn value(form: &Bounded, values: &[Fraction]) -> (i128, i128) {
    let mut top = 0i128;
    let mut bottom = 1i128;
    for (coefficient, value) in form.coeffs.iter().zip(values) {
        let part = coefficient
            .wrapping_mul(value.numerator())
            .wrapping_mul(bottom);
        top = top.wrapping_mul(value.denominator()).wrapping_add(part);
        bottom = bottom.wrapping_mul(value.denominator());
    }
    (top, bottom.wrapping_mul(form.scale))
}

// The first form without a whole value where the columns have these values, and its floor.
fn first_fraction(forms: &[Bounded], values: &[Fraction]) -> Option<(u32, i64)> {
    for (f, form) in forms.iter().enumerate() {
        let (top, bottom) = value(form, values);
        let floor = top.checked_div_euclid(bottom).unwrap_or(0);
        if floor.wrapping_mul(bottom) != top {
            let f = u32::try_from(f).unwrap_or(u32::MAX);
            return Some((f, i64::try_from(floor).unwrap_or(i64::MAX)));
        }
    }
    None
}

/// Returns the system of these rows, which are few.
pub(crate) fn system_of(alloc: Global, columns: u32, rows: &[Row]) -> Result<System, Fail>
    ensures columns { IfOk result (λ s. s.columns ≡ columns) }
    ensures rows { IfOk result (λ s. length s.rows ≡ length rows.now) }
{
    if columns > 1000 || rows.len() > 1000 {
        return Err(Fail::from("too much"));
    }
    let mut told = Vec::new(alloc);
    for row in rows {
        told.push(Told {
            coeffs: &row.coeffs,
            constant: row.constant,
        })?;
    }
    let system = system(alloc, columns, &told)?;
    Ok(system)
}

// What one node comes to.
#[derive(Drop)]
enum Node {
    Refuted(RawNode),
    Whole(Vec<Fraction>),
    Fraction(u32, i64),
}

fn settle(alloc: Global, columns: u32, rows: &[Row], forms: &[Bounded]) -> Result<Node, Fail> {
    let system = system_of(alloc, columns, rows)?;
    let mut dictionary = Dictionary::new(alloc, &system)?;
    match dictionary.settle() {
        Settled::Wide(wide) => Err(Fail::from(wide)),
        Settled::Refuted(_) => {
            let leaf = leaf(alloc, &dictionary, system.rows().len() as u32)?;
            Ok(Node::Refuted(leaf))
        }
        Settled::Point => {
            let values = values(alloc, &dictionary, system.columns())?;
            match first_fraction(forms, &values) {
                Some((form, floor)) => Ok(Node::Fraction(form, floor)),
                None => Ok(Node::Whole(values)),
            }
        }
    }
}

// The split, then the low side's nodes, then the high side's.
fn join(
    alloc: Global,
    split: RawNode,
    low: Vec<RawNode>,
    high: Vec<RawNode>,
) -> Result<Vec<RawNode>, AllocError> {
    let mut nodes = Vec::new(alloc);
    nodes.push(split)?;
    for node in low.into_iter().chain(high) {
        nodes.push(node)?;
    }
    Ok(nodes)
}

/// Returns a point at which every form is whole, or a tree that leaves none, with fewer than `depth` splits above a
/// node.
pub(crate) fn branching(
    alloc: Global,
    columns: u32,
    rows: &[Row],
    forms: &[Bounded],
    above: &[Side<u32>],
    depth: u32,
) -> Result<Whole, Fail> {
    if depth == 0 {
        return Err(Fail::from("too deep"));
    }
    let (f, at) = match settle(alloc, columns, rows, forms)? {
        Node::Refuted(leaf) => return Ok(Whole::Tree(vec![in alloc; leaf]?)),
        Node::Whole(values) => return Ok(Whole::Point(values, above.to_vec(alloc)?)),
        Node::Fraction(f, at) => (f, at),
    };
    let Some(form) = forms.get(f as usize) else {
        return Err(Fail::from("no such form"));
    };
    let low = side(alloc, rows, form, at, false)?;
    let sides = below(alloc, above, f, at, false)?;
    let low = match branching(alloc, columns, &low, forms, &sides, depth - 1)? {
        Whole::Tree(nodes) => nodes,
        point => return Ok(point),
    };
    let high = side(alloc, rows, form, at, true)?;
    let sides = below(alloc, above, f, at, true)?;
    let high = match branching(alloc, columns, &high, forms, &sides, depth - 1)? {
        Whole::Tree(nodes) => nodes,
        point => return Ok(point),
    };
    let nodes = join(alloc, RawNode::Split(f, at), low, high)?;
    Ok(Whole::Tree(nodes))
}

// The sides with one more.
fn below(
    alloc: Global,
    above: &[Side<u32>],
    form: u32,
    at: i64,
    high: bool,
) -> Result<Vec<Side<u32>>, AllocError> {
    let mut sides = above.to_vec(alloc)?;
    sides.push(Side { form, at, high })?;
    Ok(sides)
}
