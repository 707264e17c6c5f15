//! Each case's system with shared rows against its system in one list, over all problems of small systems.
ghost use Rattle.std.specs.Prelude.{◌≡◌};
ghost use Rattle.rg_theory.specs.System.{labels};
ghost use Rattle.rg_spanning.specs.Spanning.{IsTreeOf};
ghost use Rattle.rg_cycles.specs.View.{labels_of};
ghost use Rattle.rg_rows.specs.Sharing.{IsCommonOf};
ghost use Rattle.rg_case_parts.specs.SettingViews.{shown_setting};

use crate::asked::{
    PLAIN_TWO_MARKING, PURE_NONBRANCHING, PURE_PLAIN, PURE_PLAIN_SAFE, PURE_PLAIN_TWO_MARKING,
    SAFE_NONBRANCHING, TWO_BOUNDED_TWO_MARKING, is_asked,
};
use crate::bases::basis;
use crate::rows::{IDLE, LOCK_BY_ARCS, ONE_A_OR_TWO_B};
use crate::shared_rows::{named_case, row_of};
use rg_case_parts::{CaseSetting, Setting};
use rg_cert_meaning::RowName;
use rg_rows::{Common, NamedCase, NamedForm, NamedSystem, cases};
use rg_samples::{
    ABA, CHOICE, CYCLE, DEAD, IN_TURN, LOOP_AND_STEP, PLAIN, PURE, SAFE, STEP, TWO_BOUNDED, system,
};
use rg_spanning::Tree;
use rg_theory::Problem::{self, Event, States};
use rg_theory::{ALL_NETS, Class};
use std::alloc::Global;

// Whether the rows, with their names and factors, are those of the system in one list.
fn has_rows_of(named: &NamedCase<'_>, listed: &NamedSystem) -> bool {
    let system = named.system();
    let rows = listed.system.rows();
    for i in 0..named.count() {
        let at = i as usize;
        if rows.get(at) != Some(system.row(i))
            || listed.names.get(at) != Some(&named.name(i))
            || listed.factors.get(at) != Some(&named.factor(i))
        {
            return false;
        }
    }
    system.columns() == listed.system.columns() && named.count() as usize == rows.len()
}

// Whether both forms are the same, but for the row.
fn is_same_form(form: &NamedForm, other: &NamedForm) -> bool {
    form.form == other.form
        && form.scale == other.scale
        && form.coeffs == other.coeffs
        && form.low == other.low
        && form.high == other.high
        && form.times == other.times
}

// Whether the forms are those of the system in one list, where all rows are counted.
fn has_forms_of(named: &NamedCase<'_>, listed: &NamedSystem) -> bool {
    let forms = named.forms();
    for (form, other) in forms.iter().zip(&listed.forms) {
        if !is_same_form(form, other) || row_of(form, named.before()) != u64::from(other.row) {
            return false;
        }
    }
    forms.len() == listed.forms.len()
}

// Whether a row speaks of the problem.
fn is_of_problem(name: RowName) -> bool {
    match name {
        RowName::Stop(_)
        | RowName::Block
        | RowName::Empty
        | RowName::Full(_)
        | RowName::Keep
        | RowName::Apart => true,
        _ => false,
    }
}

// Whether the rows that come before the shared ones are those that speak of the problem; where there are no shared
// rows, whether none come before.
fn has_own_rows_first(named: &NamedCase<'_>) -> bool {
    let before = named.before();
    for i in 0..named.count() {
        if named.has_shared_rows() && is_of_problem(named.name(i)) != (i < before) {
            return false;
        }
    }
    named.has_shared_rows() || before == 0
}

// The system of the case in one list; None where the case isn't one of the system, or a step is out of range.
fn listed_case(alloc: Global, c: CaseSetting<'_>) -> Option<NamedSystem>
    requires tree { IsTreeOf c.setting.lts.now c.setting.tree.now }
    requires labels { labels_of c.setting.basis.now ≡ labels c.setting.lts.now }
{
    let Setting {
        lts,
        tree,
        basis,
        class,
    } = c.setting;
    if c.number >= cases(lts, class, c.problem) || !is_asked(lts, c.problem) {
        return None;
    }
    rg_rows::system(alloc, lts, tree, basis, class, c.problem, c.number).ok()
}

// Whether the system of the case says the same with shared rows as in one list.
fn is_same_case(alloc: Global, common: &Common, c: CaseSetting<'_>) -> bool
    requires tree { IsTreeOf c.setting.lts.now c.setting.tree.now }
    requires labels { labels_of c.setting.basis.now ≡ labels c.setting.lts.now }
    requires common { IsCommonOf (shown_setting c.setting) common.now }
{
    let Some(named) = named_case(alloc, common, c) else {
        return false;
    };
    match listed_case(alloc, c) {
        Some(listed) => {
            has_rows_of(&named, &listed)
                && has_forms_of(&named, &listed)
                && has_own_rows_first(&named)
        }
        None => false,
    }
}

// The same of each case of the problem.
fn are_same_cases(alloc: Global, common: &Common, setting: Setting<'_>, problem: Problem) -> bool
    requires tree { IsTreeOf setting.lts.now setting.tree.now }
    requires labels { labels_of setting.basis.now ≡ labels setting.lts.now }
    requires common { IsCommonOf (shown_setting setting) common.now }
{
    for number in 0..cases(setting.lts, setting.class, problem) {
        let case = CaseSetting {
            setting,
            problem,
            number,
        };
        if !is_same_case(alloc, common, case) {
            return false;
        }
    }
    true
}

// The same of each label that has no arc at the state.
fn are_same_events(alloc: Global, common: &Common, setting: Setting<'_>, state: u32) -> bool
    requires tree { IsTreeOf setting.lts.now setting.tree.now }
    requires labels { labels_of setting.basis.now ≡ labels setting.lts.now }
    requires common { IsCommonOf (shown_setting setting) common.now }
{
    for label in 0..setting.lts.labels() {
        let problem = Event(state, label);
        if is_asked(setting.lts, problem) && !are_same_cases(alloc, common, setting, problem) {
            return false;
        }
    }
    true
}

// The same of the state and each state before it.
fn are_same_states(alloc: Global, common: &Common, setting: Setting<'_>, state: u32) -> bool
    requires tree { IsTreeOf setting.lts.now setting.tree.now }
    requires labels { labels_of setting.basis.now ≡ labels setting.lts.now }
    requires common { IsCommonOf (shown_setting setting) common.now }
{
    for other in 0..state {
        if !are_same_cases(alloc, common, setting, States(other, state)) {
            return false;
        }
    }
    true
}

// The same of each problem of the system.
fn are_all_same(alloc: Global, common: &Common, setting: Setting<'_>) -> bool
    requires tree { IsTreeOf setting.lts.now setting.tree.now }
    requires labels { labels_of setting.basis.now ≡ labels setting.lts.now }
    requires common { IsCommonOf (shown_setting setting) common.now }
{
    for state in 0..setting.lts.states() {
        if !are_same_events(alloc, common, setting, state)
            || !are_same_states(alloc, common, setting, state)
        {
            return false;
        }
    }
    true
}

// The same of the system that a text spells; None where it spells none with all states reachable.
fn is_same_text(alloc: Global, text: &str, class: Class) -> Option<bool> {
    let lts = system(alloc, text)?;
    let Ok(tree) = Tree::grow(alloc, &lts) else {
        return None;
    };
    let Ok(basis) = basis(alloc, &lts, &tree) else {
        return None;
    };
    let setting = Setting {
        lts: &lts,
        tree: &tree,
        basis: &basis,
        class,
    };
    let Ok(common) = Common::new(alloc, setting) else {
        return None;
    };
    Some(are_all_same(alloc, &common, setting))
}

const TEXTS: [&str; 9] = [
    DEAD,
    STEP,
    IN_TURN,
    LOOP_AND_STEP,
    CHOICE,
    CYCLE,
    ABA,
    ONE_A_OR_TWO_B,
    IDLE,
];

const CLASSES: [Class; 12] = [
    ALL_NETS,
    PURE,
    PLAIN,
    SAFE,
    TWO_BOUNDED,
    PURE_PLAIN,
    PURE_PLAIN_SAFE,
    PURE_NONBRANCHING,
    SAFE_NONBRANCHING,
    PLAIN_TWO_MARKING,
    PURE_PLAIN_TWO_MARKING,
    TWO_BOUNDED_TWO_MARKING,
];

#[test]
fn shared_rows_make_the_same_systems(rt: HostRuntime) {
    for text in TEXTS {
        for class in CLASSES {
            assert!(rt;
                is_same_text(rt.alloc(), text, class) == Some(true),
                "{class:?} {text}"
            );
        }
    }
}

#[test]
fn shared_rows_make_the_same_systems_of_two_users(rt: HostRuntime) {
    for class in CLASSES {
        assert!(rt;
            is_same_text(rt.alloc(), LOCK_BY_ARCS, class) == Some(true),
            "{class:?}"
        );
    }
}
