//! The descent written plainly, for tests: a recursion that copies its relations, with so few exchanges that
//! its numbers stay small.

use rg_linear::Row;
use std::alloc::{AllocError, Global};

// The variable times `d` is the constant and the sum of all variables, each times its coefficient. Members
// have such a relation too, and no common factor is taken out.
#[derive(Drop)]
struct Relation {
    d: i128,
    constant: i128,
    coefficients: Vec<i128>,
}

/// Where the descent is, and the row at which it was refuted.
#[derive(Drop)]
pub(crate) struct Plain {
    relations: Vec<Relation>,
    pub(crate) members: Vec<u32>,
    pub(crate) refuted: Option<u32>,
}

// What has to be done at a row.
enum Due {
    Nothing,
    Refutation,
    Exchange(u32),
}

fn coefficient(relation: &Relation, variable: usize) -> i128 {
    relation.coefficients.get(variable).copied().unwrap_or(0)
}

/// Returns the descent over these rows.
pub(crate) fn descent(alloc: Global, columns: u32, rows: &[Row]) -> Result<Plain, AllocError> {
    let variables = (columns as usize).wrapping_add(rows.len());
    let mut relations = Vec::new(alloc);
    let mut members = Vec::new(alloc);
    for column in 0..columns {
        members.push(column)?;
        let mut coefficients = vec![in alloc; 0i128; variables]?;
        if let Some(own) = coefficients.get_mut(column as usize) {
            *own = 1;
        }
        relations.push(Relation {
            d: 1,
            constant: 0,
            coefficients,
        })?;
    }
    for row in rows {
        let mut coefficients = row.coeffs.to_vec(alloc)?;
        coefficients.resize(variables, 0)?;
        relations.push(Relation {
            d: 1,
            constant: row.constant,
            coefficients,
        })?;
    }
    let start = Plain {
        relations,
        members,
        refuted: None,
    };
    let end = u32::try_from(rows.len()).unwrap_or(u32::MAX);
    below(alloc, columns, start, &[], end)
}

// The rows 0 to `end - 1`, where these variables are fixed.
fn below(
    alloc: Global,
    columns: u32,
    start: Plain,
    fixed: &[u32],
    end: u32,
) -> Result<Plain, AllocError> {
    let mut state = start;
    for row in 0..end {
        let pivot = columns.wrapping_add(row);
        match work_at(&state, fixed, pivot) {
            Due::Nothing => {}
            Due::Refutation => {
                state.refuted = Some(row);
                return Ok(state);
            }
            Due::Exchange(leaves) => {
                let next = exchange(alloc, &state, pivot, leaves)?;
                let mut more = fixed.to_vec(alloc)?;
                more.push(pivot)?;
                state = below(alloc, columns, next, &more, row)?;
                if state.refuted.is_some() {
                    return Ok(state);
                }
            }
        }
    }
    Ok(state)
}

fn work_at(state: &Plain, fixed: &[u32], pivot: u32) -> Due {
    let Some(relation) = state.relations.get(pivot as usize) else {
        return Due::Nothing;
    };
    if state.members.contains(&pivot) || relation.constant >= 0 {
        return Due::Nothing;
    }
    for &member in &state.members {
        if coefficient(relation, member as usize) != 0 && !fixed.contains(&member) {
            return Due::Exchange(member);
        }
    }
    Due::Refutation
}

fn exchange(alloc: Global, state: &Plain, pivot: u32, leaves: u32) -> Result<Plain, AllocError> {
    let mut relations = Vec::new(alloc);
    let mut members = Vec::new(alloc);
    for (variable, relation) in state.relations.iter().enumerate() {
        if let Some(solved) = state.relations.get(pivot as usize) {
            relations.push(renew(alloc, solved, pivot as usize, leaves as usize, relation)?)?;
        }
        let Ok(variable) = u32::try_from(variable) else {
            continue;
        };
        if variable == pivot || (variable != leaves && state.members.contains(&variable)) {
            members.push(variable)?;
        }
    }
    Ok(Plain {
        relations,
        members,
        refuted: None,
    })
}

// The relation, with what the pivot's relation says of the variable that leaves.
fn renew(
    alloc: Global,
    solved: &Relation,
    pivot: usize,
    leaves: usize,
    relation: &Relation,
) -> Result<Relation, AllocError> {
    let size = coefficient(solved, leaves).wrapping_abs();
    let factor = coefficient(solved, leaves)
        .signum()
        .wrapping_mul(coefficient(relation, leaves));
    let mut coefficients = Vec::new(alloc);
    for (variable, number) in relation.coefficients.iter().enumerate() {
        let kept = if variable == leaves {
            0
        } else {
            size.wrapping_mul(*number)
        };
        let gained = if variable == leaves {
            0
        } else if variable == pivot {
            solved.d
        } else {
            coefficient(solved, variable).wrapping_neg()
        };
        coefficients.push(kept.wrapping_add(factor.wrapping_mul(gained)))?;
    }
    let constant = size
        .wrapping_mul(relation.constant)
        .wrapping_sub(factor.wrapping_mul(solved.constant));
    Ok(Relation {
        d: size.wrapping_mul(relation.d),
        constant,
        coefficients,
    })
}
