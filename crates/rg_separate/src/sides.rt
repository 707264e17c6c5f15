//! The sides of splits, with their forms by name.
ghost use Rattle.std.specs.Prelude.{◌≡◌, ◌<◌, length, map, All, IfOk};
ghost use Rattle.rg_cert_meaning.specs.Sides.{side_of};
ghost use Rattle.rg_rows.specs.Forms.{split_of};
ghost use Rattle.rg_separate.specs.Casing.{sides_among};

use rg_branch_trees::Side;
use rg_cert_meaning::{Form, Side as NamedSide};
use rg_rows::NamedForm;
use std::alloc::{AllocError, Global};

// The sides with their forms by name.
pub(crate) fn named_sides(
    alloc: Global,
    forms: &[NamedForm],
    above: &[Side<u32>],
) -> Result<Vec<NamedSide>, AllocError>
    requires { All (λ s. s.form < length forms.now) above.now }
    ensures { IfOk result (λ v. v.items ≡ sides_among (map split_of forms.now) above.now) }
{
    let mut sides = Vec::new(alloc);
    for &Side { form, at, high } in above {
        let form = forms[form as usize].form;
        sides.push(NamedSide { form, at, high })?;
    }
    Ok(sides)
}

// The sides as triples: the form by name, the number, and true in the high side.
pub(crate) fn named_triples(
    alloc: Global,
    forms: &[NamedForm],
    above: &[Side<u32>],
) -> Result<Vec<(Form, i64, bool)>, AllocError>
    requires { All (λ s. s.form < length forms.now) above.now }
    ensures { IfOk result (λ v. map side_of v.items ≡ sides_among (map split_of forms.now) above.now) }
{
    let mut triples = Vec::new(alloc);
    for &Side { form, at, high } in above {
        let form = forms[form as usize].form;
        triples.push((form, at, high))?;
    }
    Ok(triples)
}
