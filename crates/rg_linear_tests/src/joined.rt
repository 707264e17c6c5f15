//! A system whose rows are in two lists: what it shows, and the descent on it.
use crate::descents::{Told, is_well_formed, rows_of};
use crate::revised::{settle_small, show};
use rg_linear::{JoinedSystem, Row, RowList};
use rg_revised::Descent;
use std::alloc::Global;

// x - 9, y - x and 20 - y: the norms are 10, 2 and 21
const FAR: [Told; 3] = [(&[1, 0], -9), (&[-1, 1], 0), (&[0, -1], 20)];

// x - 9, y - x and 5 - y: the norms are 10, 2 and 6
const NEAR: [Told; 3] = [(&[1, 0], -9), (&[-1, 1], 0), (&[0, -1], 5)];

// Whether the rows of the system are these, the first `first` of them in the first list.
fn has_rows(system: &JoinedSystem<'_>, rows: &[Row], first: usize) -> bool {
    for i in 0..system.count() {
        if rows.get(i as usize) != Some(system.row(i)) {
            return false;
        }
    }
    let (own, shared) = system.lists();
    system.count() as usize == rows.len()
        && rows.get(..first) == Some(own)
        && rows.get(first..) == Some(shared)
}

// How the descent ends on the system, if it has two columns, this norm and these rows, the first `first` of them in
// the first list, and all rows in one list come to the same.
fn end_of(
    alloc: Global,
    system: &JoinedSystem<'_>,
    rows: &[Row],
    first: usize,
    norm: u64,
) -> Option<Descent> {
    if system.columns() != 2 || system.norm() != norm || !has_rows(system, rows, first) {
        return None;
    }
    let small = show(alloc, system, &[]).ok()?;
    if small == settle_small(alloc, 2, rows)? {
        Some(small.ended)
    } else {
        None
    }
}

// The same of the system whose first list has the first `first` of these rows, and whose second list has the others.
fn joined_end(alloc: Global, told: &[Told], first: usize, norm: u64) -> Option<Descent> {
    let whole = rows_of(alloc, told).ok()?;
    let mut own = rows_of(alloc, told).ok()?;
    if first > own.len() || !is_well_formed(2, &own) {
        return None;
    }
    let Ok(rest) = own.split_off(first) else {
        return None;
    };
    let shared = RowList::new(rest);
    let system = JoinedSystem::new(2, &own, &shared);
    end_of(alloc, &system, &whole, first, norm)
}

// The same of the system with these rows alone, which are all in the first list.
fn alone_end(alloc: Global, told: &[Told], norm: u64) -> Option<Descent> {
    let rows = rows_of(alloc, told).ok()?;
    if !is_well_formed(2, &rows) {
        return None;
    }
    let system = JoinedSystem::alone(2, &rows);
    end_of(alloc, &system, &rows, rows.len(), norm)
}

#[test]
fn joined_systems_are_the_rows_of_both_lists(rt: HostRuntime) {
    for first in 0..=3 {
        let point = joined_end(rt.alloc(), &FAR, first, 21);
        assert!(rt;
            point == Some(Descent::Point),
            "a point, {first} rows first"
        );
        let refuted = joined_end(rt.alloc(), &NEAR, first, 10);
        assert!(rt;
            refuted == Some(Descent::Refuted(0)),
            "a refutation, {first} rows first"
        );
    }
}

#[test]
fn systems_alone_are_the_rows_of_one_list(rt: HostRuntime) {
    let alone: [(&[Told], u64, Descent); 4] = [
        (&FAR, 21, Descent::Point),
        (&NEAR, 10, Descent::Refuted(0)),
        (&FAR[1..2], 2, Descent::Point),
        (&[], 0, Descent::Point),
    ];
    for (told, norm, end) in alone {
        assert!(rt;
            alone_end(rt.alloc(), told, norm) == Some(end),
            "{} rows, {norm}",
            told.len()
        );
    }
}
