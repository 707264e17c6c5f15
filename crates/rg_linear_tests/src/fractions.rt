//! Fractions, rows of numbers and denominators.
use rg_case_parts::{common_denominator, products, without_denominators};
use rg_fraction::{Fraction, eliminate, gcd, row_gcd, whole_product, whole_sum};
use rg_integers::Wide;
use std::alloc::Global;
use std::cmp::Ordering;

// 2^126
const HALF: i128 = 85070591730234615865843651857942052864;

const MOST: i128 = i128::MAX;

fn fraction((n, d): (i128, i128)) -> Fraction {
    Fraction::new(n.clamp(-MOST, MOST), d.clamp(1, MOST))
}

// What was found, and what it ought to be: a fraction, or the numbers of the term that is out of range.
fn is_shown(
    found: Result<Fraction, Wide>,
    value: Option<(i128, i128)>,
    (a, b, c, d): (i128, i128, i128, i128),
) -> bool {
    match value {
        Some(value) => found == Ok(fraction(value)),
        None => found == Err(Wide { a, b, c, d }),
    }
}

// Two fractions, and what ought to come of them.
type Case = (
    (i128, i128),
    (i128, i128),
    Option<(i128, i128)>,
    (i128, i128, i128, i128),
);

const NONE: (i128, i128, i128, i128) = (0, 0, 0, 0);

// Sums: two fractions, and their sum, or the numbers of the term that is out of range.
const SUMS: [Case; 7] = [
    ((1, 2), (1, 3), Some((5, 6)), NONE),
    ((-2, 4), (1, 3), Some((-1, 6)), NONE),
    ((HALF, 1), (HALF - 1, 1), Some((MOST, 1)), NONE),
    ((MOST, 1), (MOST, 1), None, (MOST, 1, -MOST, 1)),
    ((HALF, 1), (HALF, 1), None, (HALF, 1, -HALF, 1)),
    ((1, HALF), (1, 3), None, (HALF, 3, 0, 0)),
    ((MOST, HALF), (1, 3), None, (MOST, 3, -1, HALF)),
];

// Whether the sum of two fractions is as it ought to be.
fn is_sum((x, y, value, wide): Case) -> bool {
    is_shown(fraction(x).add(fraction(y)), value, wide)
}

// Whether a half less a third is a sixth.
fn is_difference() -> bool {
    fraction((1, 2)).sub(fraction((1, 3))) == Ok(fraction((1, 6)))
}

#[test]
fn sums(rt: HostRuntime) {
    for case in SUMS {
        assert!(rt; is_sum(case), "{:?} and {:?}", case.0, case.1);
    }
    assert!(rt; is_difference());
}

// Products, written in the same way.
const PRODUCTS: [Case; 6] = [
    ((1, 2), (-4, 3), Some((-2, 3)), NONE),
    ((HALF - 1, 1), (2, 1), Some((MOST - 1, 1)), NONE),
    ((1, MOST), (1, MOST - 1), None, (MOST, MOST - 1, 0, 0)),
    ((HALF, 1), (2, 1), None, (HALF, 2, 0, 0)),
    ((1, HALF), (1, 2), None, (HALF, 2, 0, 0)),
    ((MOST, HALF), (MOST, HALF), None, (MOST, MOST, 0, 0)),
];

// Whether the product of two fractions is as it ought to be.
fn is_product((x, y, value, wide): Case) -> bool {
    is_shown(fraction(x).mul(fraction(y)), value, wide)
}

#[test]
fn products_of_fractions(rt: HostRuntime) {
    for case in PRODUCTS {
        assert!(rt; is_product(case), "{:?} and {:?}", case.0, case.1);
    }
}

// Whether 4 / -6 is -2 / 3.
fn is_reduced() -> bool {
    let fraction = Fraction::new(4, -6);
    fraction.numerator() == -2
        && fraction.denominator() == 3
        && fraction.floor() == -1
        && !fraction.is_whole()
}

// Whether two fractions are compared whose cross products have more than 128 bits.
fn are_compared() -> bool {
    fraction((1, MOST)).cmp(&fraction((1, MOST - 1))) == Ordering::Less
}

#[test]
fn one_fraction(rt: HostRuntime) {
    assert!(rt; is_reduced());
    assert!(rt; are_compared());
}

// Whether the greatest common divisors of numbers and of rows are as they ought to be.
fn are_divided() -> bool {
    gcd(-12, 18) == 6 && row_gcd(&[0, -12, 18, 8]) == 2 && row_gcd(&[0, 0]) == 0
}

// Whether the greatest number is a sum, and one more passes.
fn are_added() -> bool {
    let wide = Wide {
        a: HALF,
        b: 1,
        c: -HALF,
        d: 1,
    };
    whole_sum(HALF, HALF - 1) == Ok(MOST) && whole_sum(HALF, HALF) == Err(wide)
}

// Whether a product is returned, and another is out of range.
fn are_multiplied() -> bool {
    let wide = Wide {
        a: HALF,
        b: -2,
        c: 0,
        d: 0,
    };
    whole_product(-3, 4) == Ok(-12) && whole_product(HALF, -2) == Err(wide)
}

#[test]
fn whole_numbers(rt: HostRuntime) {
    assert!(rt; are_divided());
    assert!(rt; are_added());
    assert!(rt; are_multiplied());
}

// Whether the first number of a row is eliminated.
fn is_eliminated() -> bool {
    let mut row = [3i128, 5];
    eliminate(&[2, 4], &mut row, 0).is_ok() && row == [0, -1]
}

// Whether a term out of range is returned, and the row stays as it was.
fn is_refused() -> bool {
    let mut row = [2i128, 0];
    let wide = Wide {
        a: 0,
        b: 1,
        c: MOST,
        d: 2,
    };
    eliminate(&[1, MOST], &mut row, 0) == Err(wide) && row == [2, 0]
}

#[test]
fn rows_are_eliminated(rt: HostRuntime) {
    assert!(rt; is_eliminated());
    assert!(rt; is_refused());
}

// Whether the fractions become these numbers, each times this multiple.
fn are_scaled(alloc: Global, fractions: &[Fraction], multiple: i128, numbers: &[i128]) -> bool {
    match without_denominators(alloc, fractions) {
        Ok(scaled) => scaled.multiple == multiple && scaled.numbers.as_slice() == numbers,
        Err(_) => false,
    }
}

// Whether these are the fractions, each times 2.
fn are_doubled(alloc: Global, fractions: &[Fraction], wanted: &[Fraction]) -> bool {
    match products(alloc, fractions, 2) {
        Ok(doubled) => doubled.as_slice() == wanted,
        Err(_) => false,
    }
}

#[test]
fn halves_and_thirds_become_sixths(rt: HostRuntime) {
    let fractions = [fraction((1, 2)), fraction((-2, 3))];
    assert!(rt; common_denominator(&fractions) == Ok(6));
    assert!(rt; are_scaled(rt.alloc(), &fractions, 6, &[3, -4]));
    let wanted = [fraction((1, 1)), fraction((-4, 3))];
    assert!(rt; are_doubled(rt.alloc(), &fractions, &wanted));
}
