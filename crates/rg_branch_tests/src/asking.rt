//! Whether single rows show the bounds of a form: once they do, and once for each thing that can be wrong.
use crate::bounds::{Top, can_branch};
use crate::systems::{Told, ToldForm, forms, system};
use std::alloc::{AllocError, Global};

// x and 1 - x: x is from 0 to 1.
const ROWS: [Told; 2] = [
    Told {
        coeffs: &[1],
        constant: 0,
    },
    Told {
        coeffs: &[-1],
        constant: 1,
    },
];

// The form x, with the bounds that the rows show.
const FORM: ToldForm = ToldForm {
    scale: 1,
    coeffs: &[1],
    low: 0,
    high: 1,
    row: 0,
    times: 1,
};

const TOP: Top = Top { row: 1, times: 1 };

// Whether a branching over the rows may be asked for.
fn is_shown(alloc: Global, told: &[ToldForm], tops: &[Top]) -> Result<bool, AllocError> {
    let system = system(alloc, 1, &ROWS)?;
    let forms = forms(alloc, told)?;
    Ok(can_branch(&system, &forms, tops))
}

// What the form may not be with its top.
const FORMS: [ToldForm; 9] = [
    ToldForm { scale: 0, ..FORM },
    ToldForm {
        scale: i128::MAX,
        high: 2,
        ..FORM
    },
    ToldForm {
        coeffs: &[1, 0],
        ..FORM
    },
    ToldForm {
        coeffs: &[2],
        ..FORM
    },
    ToldForm { low: 1, ..FORM },
    ToldForm { high: 0, ..FORM },
    ToldForm { low: 2, ..FORM },
    ToldForm { row: 2, ..FORM },
    ToldForm { times: -1, ..FORM },
];

// What the top may not be with its form.
const TOPS: [Top; 4] = [
    Top { row: 0, times: 1 },
    Top { row: 2, times: 1 },
    Top { row: 1, times: 0 },
    Top { row: 1, times: 2 },
];

#[test]
fn rows_show_the_bounds(rt: HostRuntime) -> Result<(), AllocError> {
    assert!(rt; is_shown(rt.alloc(), &[FORM], &[TOP])?);
    assert!(rt; is_shown(rt.alloc(), &[FORM, FORM], &[TOP, TOP])?);
    assert!(rt; !is_shown(rt.alloc(), &[FORM], &[])?);
    assert!(rt; !is_shown(rt.alloc(), &[FORM], &[TOP, TOP])?);
    for form in FORMS {
        assert!(rt;
            !is_shown(rt.alloc(), &[form], &[TOP])?,
            "{:?}",
            form.coeffs
        );
    }
    for top in TOPS {
        assert!(rt; !is_shown(rt.alloc(), &[FORM], &[top])?, "{top:?}");
    }
    Ok(())
}

// The bounds of the first form allow 2^31 - 2 splits. Those of two, a column and two rows are fewer than 2^32
// together. One more split is too many.
#[test]
fn splits_are_few(rt: HostRuntime) -> Result<(), AllocError> {
    let wide = ToldForm {
        low: -2147483644,
        high: 2,
        ..FORM
    };
    assert!(rt; is_shown(rt.alloc(), &[wide, wide], &[TOP, TOP])?);
    assert!(rt; !is_shown(rt.alloc(), &[wide, wide, FORM], &[TOP, TOP, TOP])?);
    Ok(())
}

// There are up to 1,000 forms.
#[test]
fn forms_are_few(rt: HostRuntime) -> Result<(), AllocError> {
    let (told, tops) = ([FORM; 1001], [TOP; 1001]);
    assert!(rt; is_shown(rt.alloc(), &told[..1000], &tops[..1000])?);
    assert!(rt; !is_shown(rt.alloc(), &told, &tops)?);
    Ok(())
}
