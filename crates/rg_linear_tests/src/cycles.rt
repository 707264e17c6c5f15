//! Small bases worked by hand, and the walk at the limit of the range.
ghost use Rattle.std.specs.Prelude.{◌≡◌, ◌<◌, All, IfSome, IfOk};
ghost use Rattle.rg_integers.specs.Range.{InRange};
ghost use Rattle.rg_cycles.specs.View.{labels_of};

use rg_cycles::{Basis, CycleWide, FreeRow, Stop, dependent, substitute, whole_sums};
use rg_fraction::{FoldStop, Fraction};
use rg_integers::Wide;
use rg_test_bases::solved;
use std::alloc::{AllocError, Global};
use std::test::Fail;

// 2^126
const HALF: i128 = 85070591730234615865843651857942052864;

// 2^63 - 1, the greatest number of 64 bits
const LONG: i128 = 9223372036854775807;

// Chord i says that twice the effect of label i is the effect of label i + 1.
fn doubling(alloc: Global, labels: u32) -> Result<Vec<Vec<i64>>, AllocError> {
    let mut chords = Vec::new(alloc);
    for i in 1..labels as usize {
        let mut chord = vec![in alloc; 0i64; labels as usize]?;
        chord[i - 1] = 2;
        chord[i] = -1;
        chords.push(chord)?;
    }
    Ok(chords)
}

// The basis of these chords, each as its entries.
fn basis<const N: usize>(alloc: Global, labels: u32, chords: &[[i64; N]]) -> Option<Basis>
    ensures { IfSome result (λ b. labels_of b ≡ labels) }
{
    let mut list = Vec::new(alloc);
    for chord in chords {
        list.push(chord.to_vec(alloc).ok()?).ok()?;
    }
    solved(alloc, labels, &list).ok()
}

// Whether the relation of a label has these numbers.
fn is_relation(basis: &Basis, t: u32, d: i128, free: &[i128], chords: &[(u32, i128)]) -> bool
    requires { t < labels_of basis.now }
{
    match basis.relation(t) {
        Some(r) => r.d == d && r.free.as_slice() == free && r.chords.as_slice() == chords,
        None => false,
    }
}

// Whether one chord leaves no label free.
fn is_bound(alloc: Global) -> bool {
    match basis(alloc, 1, &[[2]]) {
        Some(basis) => basis.free().is_empty() && is_relation(&basis, 0, 2, &[], &[(0, 1)]),
        None => false,
    }
}

#[test]
fn one_chord_leaves_no_free_label(rt: HostRuntime) {
    assert!(rt; is_bound(rt.alloc()));
}

// The basis of these chords, whose entries have 128 bits.
fn basis_of_long<const N: usize>(
    alloc: Global,
    labels: u32,
    chords: &[[i128; N]],
) -> Result<Basis, Stop>
    ensures { IfOk result (λ b. labels_of b ≡ labels) }
{
    let list = long_chords(alloc, chords)?;
    solved(alloc, labels, &list)
}

// The chords with these entries.
fn long_chords<const N: usize>(
    alloc: Global,
    chords: &[[i128; N]],
) -> Result<Vec<Vec<i128>>, AllocError> {
    let mut list = Vec::new(alloc);
    for chord in chords {
        list.push(chord.to_vec(alloc)?)?;
    }
    Ok(list)
}

// Whether one chord with this entry leaves no label free.
fn is_bound_by(alloc: Global, entry: i128) -> bool {
    match basis_of_long(alloc, 1, &[[entry]]) {
        Ok(basis) => basis.free().is_empty() && is_relation(&basis, 0, entry, &[], &[(0, 1)]),
        Err(_) => false,
    }
}

// Whether the product of two entries passes.
fn is_product_too_wide(alloc: Global) -> bool {
    let product = Wide {
        a: HALF,
        b: HALF,
        c: 1,
        d: 1,
    };
    match basis_of_long(alloc, 2, &[[HALF, 1], [1, HALF]]) {
        Err(Stop::Wide(w)) => {
            w.members.as_slice() == [0, 1].as_slice()
                && (w.pivot, w.leaves, w.target, w.entry) == (2, 0, 3, 2)
                && w.wide == product
        }
        _ => false,
    }
}

#[test]
fn entries_may_have_128_bits(rt: HostRuntime) {
    assert!(rt; is_bound_by(rt.alloc(), 2));
    assert!(rt; is_bound_by(rt.alloc(), HALF));
    assert!(rt; is_product_too_wide(rt.alloc()));
}

// Whether each label is free where there is no chord.
fn are_free(alloc: Global) -> bool {
    match basis::<2>(alloc, 2, &[]) {
        Some(basis) => basis.free() == [0, 1].as_slice() && basis.relation(1).is_none(),
        None => false,
    }
}

#[test]
fn without_chords_all_labels_are_free(rt: HostRuntime) {
    assert!(rt; are_free(rt.alloc()));
}

// Whether chords are named by their first indices.
fn are_named(alloc: Global) -> bool {
    match basis(alloc, 2, &[[0, 0], [1, -1], [1, -1], [2, 0]]) {
        Some(basis) => {
            basis.kept() == [1, 3].as_slice()
                && basis.members() == [2, 3].as_slice()
                && is_relation(&basis, 0, 2, &[], &[(3, 1)])
                && is_relation(&basis, 1, 2, &[], &[(1, -2), (3, 1)])
        }
        None => false,
    }
}

#[test]
fn chords_are_named_by_their_first_indices(rt: HostRuntime) {
    assert!(rt; are_named(rt.alloc()));
}

// The first term that passes, in the walk over the chords of so many labels.
fn passing(alloc: Global, labels: u32) -> Option<CycleWide> {
    let chords = doubling(alloc, labels).ok()?;
    match solved(alloc, labels, &chords) {
        Err(Stop::Wide(wide)) => Some(wide),
        _ => None,
    }
}

#[test]
fn the_first_term_that_passes_is_shown(rt: HostRuntime) {
    match passing(rt.alloc(), 128) {
        Some(wide) => assert!(rt; is_shown(&wide)),
        None => panic!(rt; "no term passed"),
    }
}

fn is_shown(w: &CycleWide) -> bool {
    let wide = Wide {
        a: HALF,
        b: 2,
        c: 0,
        d: 0,
    };
    w.members.len() == 128
        && w.members[0] == 126
        && w.members[127] == 253
        && (w.pivot, w.leaves, w.target, w.entry) == (254, 126, 0, 0)
        && w.wide == wide
}

// Whether the walk over the chords of 127 labels ends, with the last label free.
fn is_walked(alloc: Global) -> bool {
    let Ok(chords) = doubling(alloc, 127) else {
        return false;
    };
    let Ok(basis) = solved(alloc, 127, &chords) else {
        return false;
    };
    match basis.relation(0) {
        Some(relation) => relation.d == HALF && basis.free() == [126].as_slice(),
        None => false,
    }
}

#[test]
fn a_shorter_walk_fits(rt: HostRuntime) {
    assert!(rt; is_walked(rt.alloc()));
}

// Whether the sum of the labels, counted so, is this multiple of the free label.
fn is_written(alloc: Global, basis: &Basis) -> bool
    requires { labels_of basis.now ≡ 2 }
{
    match substitute(alloc, basis, &[3, 1]) {
        Ok(row) => row.coeffs.as_slice() == [Fraction::new(5, 2)].as_slice(),
        Err(_) => false,
    }
}

// Whether the sum of the labels, each counted as often as can be, passes.
fn is_passed(alloc: Global, basis: &Basis) -> bool
    requires { labels_of basis.now ≡ 2 }
{
    let passes = Wide {
        a: i128::MAX,
        b: 2,
        c: -i128::MAX,
        d: 1,
    };
    substitute(alloc, basis, &[i128::MAX, i128::MAX]) == Err(FoldStop::Wide(passes))
}

// Whether the first label alone follows from others.
fn is_dependent(alloc: Global, basis: &Basis) -> bool
    requires { labels_of basis.now ≡ 2 }
{
    match dependent(alloc, basis, 2) {
        Ok(others) => others.as_slice() == [0].as_slice(),
        Err(_) => false,
    }
}

#[test]
fn sums_are_written_over_the_free_labels(rt: HostRuntime) -> Result<(), Fail> {
    let alloc = rt.alloc();
    let basis = basis(alloc, 2, &[[2, -1]]).ok_or("a basis")?;
    assert!(rt; is_dependent(alloc, &basis));
    assert!(rt; is_written(alloc, &basis));
    assert!(rt; is_passed(alloc, &basis));
    Ok(())
}

// Whether there is one coefficient, and it is this number.
fn is_whole(row: Result<FreeRow, FoldStop>, number: i128) -> bool
    requires { InRange number }
{
    match row {
        Ok(row) => row.coeffs.as_slice() == [Fraction::new(number, 1)].as_slice(),
        Err(_) => false,
    }
}

// Whether sums of whole numbers are whole: a short one, one past 64 bits, and one of a long number.
fn are_whole(alloc: Global, basis: &Basis) -> bool
    requires { labels_of basis.now ≡ 2 }
{
    is_whole(substitute(alloc, basis, &[3, 1]), 4)
        && is_whole(substitute(alloc, basis, &[1, LONG]), LONG + 1)
        && is_whole(substitute(alloc, basis, &[HALF, 1]), HALF + 1)
}

#[test]
fn sums_of_whole_numbers_are_whole_at_any_size(rt: HostRuntime) -> Result<(), Fail> {
    let alloc = rt.alloc();
    let basis = basis(alloc, 2, &[[1, -1]]).ok_or("a basis")?;
    assert!(rt; are_whole(alloc, &basis));
    Ok(())
}

// Whether the sum in whole numbers of the labels, counted so, is this one.
fn is_sum(alloc: Global, basis: &Basis, counts: &[i128; 2], sum: Option<i128>) -> bool
    requires labels { labels_of basis.now ≡ 2 }
    requires in_range { All InRange counts.now }
{
    match whole_sums(alloc, basis, counts) {
        Ok(Some(sums)) => sums.len() == 1 && Some(sums[0]) == sum,
        Ok(None) => sum.is_none(),
        Err(_) => false,
    }
}

// Whether the sums of 64 bits are written, and no others.
fn are_short(alloc: Global, basis: &Basis) -> bool
    requires { labels_of basis.now ≡ 2 }
{
    is_sum(alloc, basis, &[3, 1], Some(4))
        && is_sum(alloc, basis, &[LONG, 0], Some(LONG))
        && is_sum(alloc, basis, &[1, LONG], None)
        && is_sum(alloc, basis, &[HALF, 1], None)
}

#[test]
fn whole_sums_have_numbers_of_64_bits(rt: HostRuntime) -> Result<(), Fail> {
    let alloc = rt.alloc();
    let basis = basis(alloc, 2, &[[1, -1]]).ok_or("a basis")?;
    assert!(rt; are_short(alloc, &basis));
    Ok(())
}

// Whether no sum of halves is written, and the sum of a label that doesn't follow from others is.
fn halves_are_left(alloc: Global, basis: &Basis) -> bool
    requires { labels_of basis.now ≡ 2 }
{
    is_sum(alloc, basis, &[3, 1], None) && is_sum(alloc, basis, &[0, 1], Some(1))
}

#[test]
fn whole_sums_have_no_halves(rt: HostRuntime) -> Result<(), Fail> {
    let alloc = rt.alloc();
    let basis = basis(alloc, 2, &[[2, -1]]).ok_or("a basis")?;
    assert!(rt; halves_are_left(alloc, &basis));
    Ok(())
}
