//! The chords that the basis uses, and their multipliers.
ghost use Rattle.std.specs.Prelude.{◌≡◌, ℕ, ◌<◌, ◌+◌, ◌^◌, List, ℤ, true, map, length, pos, neg_ℤ, ◌<ℤ◌, ◌≢◌, All, Contains, IfOk, slice_index_or, slice_index};
ghost use Rattle.rg_theory.specs.System.{labels};
ghost use Rattle.rg_theory.specs.declared.Arc.{Arc};
ghost use Rattle.rg_integers.specs.Range.{InRange};
ghost use Rattle.rg_integers.specs.Sum.{number_at};
ghost use Rattle.rg_spanning.specs.Spanning.{IsTreeOf};
ghost use Rattle.rg_linear.specs.Cycle.{IsCycleBasis};
ghost use Rattle.rg_cycles.specs.Basis.{number_with, IsRelationInRange};
ghost use Rattle.rg_cycles.specs.View.{labels_of};
ghost use Rattle.rg_case_parts.specs.SettingViews.{shown_setting};
ghost use Rattle.rg_case_folds.specs.Chords.{IsBasis};
ghost use Rattle.rg_folds.specs.Fold.{Comes, each, joined, add, whole, ratio_of, shown_result};
ghost use Rattle.rg_case_folds.specs.Placing.{negated};
ghost use Rattle.rg_folds.specs.Substitution.{is_in, dependent_labels};
ghost use Rattle.rg_case_folds.specs.Spreading.{used_chords, chord_arcs};
ghost use Rattle.rg_farkas.specs.View.{counted_of, counts_fold, count_fold};

use crate::multiplied::Counted;
use rg_case_parts::Setting;
use rg_cycles::Relation;
use rg_fraction::{FoldStop, Fraction};
use rg_integers::Wide;
use rg_theory::Arc;
use std::alloc::{AllocError, Global};

// The kept chords that are members of the basis, by number.
pub(crate) fn used_chords(alloc: Global, setting: Setting<'_>) -> Result<Vec<u32>, AllocError>
    requires labels { labels_of setting.basis.now ≡ labels setting.lts.now }
    requires few { let s = shown_setting setting in length s.basis.kept < 2 ^ 31 }
    ensures { let s = shown_setting setting.entry in IfOk result (λ v. v.items ≡ used_chords s.lts s.basis) }
{
    let labels = setting.lts.labels();
    let mut used = Vec::new(alloc);
    for chord in 0..setting.basis.kept().len() as u32 {
        if is_member(setting.basis.members(), labels + chord) {
            used.push(chord)?;
        }
    }
    Ok(used)
}

// Whether the variable is among the members.
fn is_member(members: &[u32], variable: u32) -> bool
    ensures { result ≡ is_in members.now variable }
{
    for m in members {
        if *m == variable {
            return true;
        }
    }
    false
}

// The arcs of these chords.
pub(crate) fn chord_arcs(
    alloc: Global,
    setting: Setting<'_>,
    used: &[u32],
) -> Result<Vec<Arc>, AllocError>
    requires tree { IsTreeOf setting.lts.now setting.tree.now }
    requires basis { let s = shown_setting setting in IsBasis s.lts s.tree s.basis }
    requires used { let s = shown_setting setting in used.now ≡ used_chords s.lts s.basis }
    ensures { let s = shown_setting setting.entry in IfOk result (λ v. v.items ≡ chord_arcs s.lts s.tree s.basis) }
{
    setting.lts.is_well_formed();
    let mut arcs = Vec::new(alloc);
    for &chord in used {
        let index = setting.basis.kept()[chord as usize];
        arcs.push(setting.tree.chords()[index as usize])?;
    }
    Ok(arcs)
}

// The multipliers of these chords.
pub(crate) fn chord_shares(
    alloc: Global,
    setting: Setting<'_>,
    counts: &[Counted],
    used: &[u32],
) -> Result<Vec<Fraction>, FoldStop>
    requires labels { labels_of setting.basis.now ≡ labels setting.lts.now }
    requires basis { let s = shown_setting setting in (vectors : List (List ℤ)) × IsCycleBasis (labels s.lts) vectors s.basis }
    requires counts { let s = shown_setting setting in All (λ k. (k.label < labels s.lts) × (¬ Contains s.basis.members k.label)) (map counted_of counts.now) }
    requires used { let s = shown_setting setting in All (λ c. (c < length s.basis.kept) × Contains s.basis.members (labels s.lts + c)) used.now }
    ensures { let s = shown_setting setting.entry in Comes (each (λ c. counts_fold s.basis (map counted_of counts.now) (labels s.lts + c)) used.now) (λ v. map ratio_of v.items) result }
{
    let mut shares = Vec::new(alloc);
    for &chord in used {
        let share = chord_share(setting, counts, chord)?;
        shares.push(share)?;
    }
    Ok(shares)
}

// The multiplier of the chord: what the counts give its number in the labels' relations, negated.
fn chord_share(setting: Setting<'_>, counts: &[Counted], chord: u32) -> Result<Fraction, Wide>
    requires labels { labels_of setting.basis.now ≡ labels setting.lts.now }
    requires basis { let s = shown_setting setting in (vectors : List (List ℤ)) × IsCycleBasis (labels s.lts) vectors s.basis }
    requires counts { let s = shown_setting setting in All (λ k. (k.label < labels s.lts) × (¬ Contains s.basis.members k.label)) (map counted_of counts.now) }
    requires chord { let s = shown_setting setting in chord < length s.basis.kept }
    requires member { let s = shown_setting setting in Contains s.basis.members (labels s.lts + chord) }
    ensures { let s = shown_setting setting.entry in counts_fold s.basis (map counted_of counts.now) (labels s.lts + chord) (shown_result ratio_of result) }
{
    let sum = chord_sum(setting, counts, chord)?;
    Ok(opposite(sum))
}

// What the counts give the chord's number in the labels' relations.
fn chord_sum(setting: Setting<'_>, counts: &[Counted], chord: u32) -> Result<Fraction, Wide>
    requires labels { labels_of setting.basis.now ≡ labels setting.lts.now }
    requires basis { let s = shown_setting setting in (vectors : List (List ℤ)) × IsCycleBasis (labels s.lts) vectors s.basis }
    requires counts { let s = shown_setting setting in All (λ k. (k.label < labels s.lts) × (¬ Contains s.basis.members k.label)) (map counted_of counts.now) }
    requires chord { let s = shown_setting setting in chord < length s.basis.kept }
    requires member { let s = shown_setting setting in Contains s.basis.members (labels s.lts + chord) }
    ensures { let s = shown_setting setting.entry in joined add (count_fold s.basis (labels s.lts + chord)) (whole (pos 0)) (map counted_of counts.now) (shown_result ratio_of result) }
{
    let Some((first, rest)) = counts.split_first() else {
        return Ok(Fraction::new(0, 1));
    };
    let mut sum = chord_term(setting, first, chord)?;
    for pair in rest {
        let term = chord_term(setting, pair, chord)?;
        if term.numerator() != 0 {
            sum = sum.add(term)?;
        }
    }
    Ok(sum)
}

// What a count gives the chord with this number: 0 where it is 0 or the label's relation doesn't name the chord.
fn chord_term(setting: Setting<'_>, pair: &Counted, chord: u32) -> Result<Fraction, Wide>
    requires labels { labels_of setting.basis.now ≡ labels setting.lts.now }
    requires basis { let s = shown_setting setting in (vectors : List (List ℤ)) × IsCycleBasis (labels s.lts) vectors s.basis }
    requires label { pair.now.label < labels setting.lts.now }
    requires dependent { let s = shown_setting setting in ¬ Contains s.basis.members pair.now.label }
    requires chord { let s = shown_setting setting in chord < length s.basis.kept }
    requires member { let s = shown_setting setting in Contains s.basis.members (labels s.lts + chord) }
    ensures { let s = shown_setting setting.entry in count_fold s.basis (labels s.lts + chord) (counted_of pair.now) (shown_result ratio_of result) }
{
    setting.lts.is_well_formed();
    let Some(relation) = setting.basis.relation(pair.label) else {
        unreachable!()
    };
    if pair.count == 0 {
        return Ok(Fraction::new(0, 1));
    }
    let count = Fraction::new(pair.count, 1);
    let product = pair.multiplier.mul(count)?;
    let index = setting.basis.kept()[chord as usize];
    let number = chord_number(relation, index);
    if number == 0 {
        return Ok(Fraction::new(0, 1));
    }
    product.mul(Fraction::new(number, relation.d))
}

// The number of the chord at this index in the relation, 0 where it isn't named.
fn chord_number(relation: &Relation, index: u32) -> i128
    requires { IsRelationInRange relation.now }
    ensures value { result ≡ number_with relation.now.chords.items index }
    ensures in_range { InRange result }
{
    for &(chord, number) in &relation.chords {
        if chord == index {
            return number;
        }
    }
    0
}

// The negated fraction.
fn opposite(f: Fraction) -> Fraction
    ensures { ratio_of result ≡ negated (ratio_of f) }
{
    Fraction::new(negative(f.numerator()), f.denominator())
}

// The negative, which is in range too.
fn negative(z: i128) -> i128
    requires { InRange z }
    ensures value { result ≡ neg_ℤ z }
    ensures in_range { InRange result }
{
    -z
}
