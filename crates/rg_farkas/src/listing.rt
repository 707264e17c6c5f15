//! The rows of the leaf.
ghost use Rattle.std.specs.Prelude.{◌≡◌, ◌<◌, ◌≤◌, ◌++◌, length, map, slice_index_or, All, AllPairs, Contains, IfOk, IfSome, IfNone, OnOk};
ghost use Rattle.rg_integers.specs.Range.{InRange};
ghost use Rattle.rg_cert_data.specs.Trees.{named_row};
ghost use Rattle.rg_case_folds.specs.Spreading.{named_from, not_zero, multiplier_among, arc_name};
ghost use Rattle.rg_theory.specs.System.{IsArcBefore};
ghost use Rattle.rg_farkas.specs.Leaves.{share_of};

use rg_cert_meaning::RowName;
use rg_fraction::Fraction;
use rg_theory::Arc;
use std::alloc::{AllocError, Global};

// The named rows with these multipliers, without those whose multiplier is 0.
pub(crate) fn named_rows(
    alloc: Global,
    named: &[(RowName, Fraction)],
    multipliers: &[i128],
) -> Result<Vec<(RowName, i128)>, AllocError>
    requires { length named.now ≤ length multipliers.now }
    ensures { IfOk result (λ v. map named_row v.items ≡ not_zero (named_from (map (λ s. s.name) (map share_of named.now)) multipliers.now)) }
{
    let mut rows = Vec::new(alloc);
    for (k, (name, _)) in named.iter().enumerate() {
        let part = multipliers[k];
        if part != 0 {
            rows.push((*name, part))?;
        }
    }
    Ok(rows)
}

// Adds the arcs of the system with the multipliers that `arcs` have, without those whose multiplier is 0.
pub(crate) fn push_arcs(
    alloc: Global,
    rows: &mut Vec<(RowName, i128)>,
    system: &[Arc],
    arcs: &[Arc],
    multipliers: &[i128],
) -> Result<(), AllocError>
    requires enough { length arcs.now ≤ length multipliers.now }
    requires order { AllPairs IsArcBefore system.now }
    ensures { OnOk result (map named_row rows.new.items ≡ map named_row rows.old.items ++ not_zero (map (λ a. record { multiplier = multiplier_among arcs.now multipliers.now a; name = arc_name a }) system.now)) }
{
    let system_multipliers = arc_multipliers(alloc, system, arcs, multipliers)?;
    for (k, arc) in system.iter().enumerate() {
        let multiplier = system_multipliers[k];
        if multiplier != 0 {
            rows.push((RowName::Arc(*arc), multiplier))?;
        }
    }
    Ok(())
}

// The multiplier of each arc of the system, 0 where it isn't among `arcs`.
fn arc_multipliers(
    alloc: Global,
    system: &[Arc],
    arcs: &[Arc],
    multipliers: &[i128],
) -> Result<Vec<i128>, AllocError>
    requires enough { length arcs.now ≤ length multipliers.now }
    requires order { AllPairs IsArcBefore system.now }
    ensures { IfOk result (λ v. v.items ≡ map (multiplier_among arcs.now multipliers.now) system.now) }
{
    let mut found = vec![in alloc; 0i128; system.len()]?;
    for k in (0..arcs.len()).rev() {
        if let Some(index) = index_of(system, &arcs[k]) {
            found[index] = multipliers[k];
        }
    }
    Ok(found)
}

// The index of the arc in a list in order; None where it isn't there.
fn index_of(system: &[Arc], arc: &Arc) -> Option<usize>
    requires { AllPairs IsArcBefore system.now }
    ensures found { IfSome result (λ i. (i < length system.now) × (slice_index_or system.now i arc.now ≡ arc.now)) }
    ensures none { IfNone result (¬ Contains system.now arc.now) }
{
    let index = system.partition_point(|a| a < arc);
    match system.get(index) {
        Some(a) if a == arc => Some(index),
        _ => None,
    }
}
