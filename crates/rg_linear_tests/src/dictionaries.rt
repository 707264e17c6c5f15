//! Exchanges in a dictionary.
use rg_feasible::{ExchangeWide, RelationTable};
use rg_integers::Wide;
use std::alloc::{AllocError, Global};
use std::test::Fail;

const MOST: i128 = i128::MAX;

// The term that the second exchange of the great numbers comes to.
const PASSES: ExchangeWide = ExchangeWide {
    target: 0,
    entry: 0,
    wide: Wide {
        a: MOST,
        b: MOST - 1,
        c: 0,
        d: 0,
    },
};

// What an exchange comes to, where it may be made.
fn exchange(
    dictionary: &mut RelationTable,
    pivot: u32,
    index: usize,
) -> Option<Result<(), ExchangeWide>> {
    if pivot >= dictionary.variables()
        || dictionary.contains(pivot)
        || index >= dictionary.members().len()
    {
        return None;
    }
    let numbers = dictionary.numbers(pivot);
    if index >= numbers.len() - 2 || numbers[index + 2] == 0 {
        return None;
    }
    Some(dictionary.exchange(pivot, index))
}

// Whether the first member may be exchanged for the pivot, with these members then.
fn exchanges(dictionary: &mut RelationTable, pivot: u32, members: &[u32]) -> bool {
    exchange(dictionary, pivot, 0) == Some(Ok(())) && dictionary.members() == members
}

// Whether the variable is outside the set, and has these numbers.
fn shows(dictionary: &RelationTable, variable: u32, numbers: &[i128]) -> bool {
    variable < dictionary.variables()
        && !dictionary.contains(variable)
        && dictionary.numbers(variable) == numbers
}

// MOST * x - 1 and -(MOST - 1) * x.
fn great(alloc: Global) -> Result<RelationTable, AllocError> {
    let mut dictionary = RelationTable::with_columns(alloc, 1, 2)?;
    dictionary.push_row(&[MOST], -1);
    dictionary.push_row(&[1 - MOST], 0);
    Ok(dictionary)
}

#[test]
fn passing_term_is_shown(rt: HostRuntime) -> Result<(), Fail> {
    let mut dictionary = great(rt.alloc())?;
    assert!(rt; exchanges(&mut dictionary, 1, &[1]));
    assert!(rt; shows(&dictionary, 0, &[MOST, 1, 1]));
    assert!(rt; shows(&dictionary, 2, &[MOST, 1 - MOST, 1 - MOST]));
    assert!(rt; exchange(&mut dictionary, 2, 0) == Some(Err(PASSES)));
    assert!(rt; dictionary.members() == [1].as_slice());
    Ok(())
}

// 2*x0 + 4*x1 - 6*x2 + 8, 3*x0 + x1 + 5 and x1 - x2 + 1.
fn table_by_hand(alloc: Global) -> Result<RelationTable, AllocError> {
    let mut dictionary = RelationTable::with_columns(alloc, 3, 3)?;
    dictionary.push_row(&[2, 4, -6], 8);
    dictionary.push_row(&[3, 1, 0], 5);
    dictionary.push_row(&[0, 1, -1], 1);
    Ok(dictionary)
}

// Variables and their numbers, after the first exchange and after the second. In the second one the coefficient of x1
// is negative, and the new numbers of x0 have the factor 2.
const AFTER_ONE: [(u32, [i128; 5]); 3] = [
    (0, [2, -8, -4, 6, 1]),
    (4, [2, -14, -10, 18, 3]),
    (5, [1, 1, 1, -1, 0]),
];

const AFTER_TWO: [(u32, [i128; 5]); 3] = [
    (0, [10, -12, -6, -1, 4]),
    (1, [10, -14, 18, 3, -2]),
    (5, [10, -4, 8, 3, -2]),
];

// Whether each variable is outside the set, and has its numbers.
fn shows_all(dictionary: &RelationTable, rows: &[(u32, [i128; 5])]) -> bool {
    for (variable, numbers) in rows {
        if !shows(dictionary, *variable, numbers) {
            return false;
        }
    }
    true
}

#[test]
fn two_exchanges_by_hand(rt: HostRuntime) -> Result<(), Fail> {
    let mut dictionary = table_by_hand(rt.alloc())?;
    assert!(rt; dictionary.columns() == 3 && dictionary.rows() == 3);
    assert!(rt; exchanges(&mut dictionary, 3, &[1, 2, 3]));
    assert!(rt; shows_all(&dictionary, &AFTER_ONE));
    assert!(rt; exchanges(&mut dictionary, 4, &[2, 3, 4]));
    assert!(rt; shows_all(&dictionary, &AFTER_TWO));
    Ok(())
}

// 2^126 - 1
const HALF: i128 = (MOST - 1) / 2;

// x + HALF and x - HALF - 1.
fn greatest(alloc: Global) -> Result<RelationTable, AllocError> {
    let mut dictionary = RelationTable::with_columns(alloc, 1, 2)?;
    dictionary.push_row(&[1], HALF);
    dictionary.push_row(&[1], -HALF - 1);
    Ok(dictionary)
}

#[test]
fn greatest_number_fits(rt: HostRuntime) -> Result<(), Fail> {
    let mut dictionary = greatest(rt.alloc())?;
    assert!(rt; exchange(&mut dictionary, 1, 0) == Some(Ok(())));
    assert!(rt; shows(&dictionary, 2, &[1, -MOST, 1]));
    Ok(())
}

// 2*x0 + 4*x1 + 8.
fn one_row(alloc: Global) -> Result<RelationTable, AllocError> {
    let mut dictionary = RelationTable::with_columns(alloc, 2, 1)?;
    dictionary.push_row(&[2, 4], 8);
    Ok(dictionary)
}

// Whether the row goes, and 3*x0 + 5*x1 + 7, for which there is room, comes in its place.
fn takes_another_row(dictionary: &mut RelationTable) -> bool {
    if dictionary.columns() != 2 || dictionary.rows() != 1 {
        return false;
    }
    let Ok(()) = dictionary.restart(0) else {
        return false;
    };
    let is_empty = dictionary.rows() == 0 && dictionary.members() == [0, 1].as_slice();
    dictionary.push_row(&[3, 5], 7);
    is_empty
}

// Whether there is memory for two rows in place of the one: x0 + x1 and x0 - x1.
fn takes_two_rows(dictionary: &mut RelationTable) -> bool {
    if dictionary.columns() != 2 {
        return false;
    }
    let Ok(()) = dictionary.restart(2) else {
        return false;
    };
    dictionary.push_row(&[1, 1], 0);
    dictionary.push_row(&[1, -1], 0);
    true
}

#[test]
fn restart_takes_rows_away(rt: HostRuntime) -> Result<(), Fail> {
    let mut dictionary = one_row(rt.alloc())?;
    assert!(rt; exchanges(&mut dictionary, 2, &[1, 2]));
    assert!(rt; takes_another_row(&mut dictionary));
    assert!(rt; shows(&dictionary, 2, &[1, 7, 3, 5]));
    assert!(rt; takes_two_rows(&mut dictionary));
    assert!(rt; shows(&dictionary, 3, &[1, 0, 1, -1]) && dictionary.variables() == 4);
    Ok(())
}
