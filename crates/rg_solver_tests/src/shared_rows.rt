//! The systems of cases with the rows that all cases share, worked by hand.
ghost use Rattle.std.specs.Prelude.{◌≡◌};
ghost use Rattle.rg_theory.specs.System.{labels};
ghost use Rattle.rg_spanning.specs.Spanning.{IsTreeOf};
ghost use Rattle.rg_cycles.specs.View.{labels_of};
ghost use Rattle.rg_rows.specs.Sharing.{IsCommonOf};
ghost use Rattle.rg_case_parts.specs.SettingViews.{shown_setting};

use crate::asked::{
    PLAIN_NONBRANCHING, PLAIN_TWO_MARKING, PURE_PLAIN, PURE_PLAIN_TWO_MARKING, SAFE_NONBRANCHING,
    TWO_BOUNDED_TWO_MARKING, is_asked,
};
use crate::bases::basis;
use crate::rows::{write_form, write_row};
use rg_case_parts::{CaseSetting, Setting};
use rg_cert_meaning::Form::{self, Effect, Start, Tokens};
use rg_rows::{Common, NamedCase, NamedForm, cases, system_with};
use rg_samples::{
    ABA, CHOICE, CYCLE, DEAD, IN_TURN, LOOP_AND_STEP, NONBRANCHING, PLAIN, PURE, SAFE, STEP,
    TWO_BOUNDED, TWO_MARKING, system,
};
use rg_spanning::Tree;
use rg_theory::Problem::{self, Event, States};
use rg_theory::{ALL_NETS, Class};
use std::alloc::{AllocError, Global};
use std::test::Fail;

/// Returns the number of a form's row among all rows, if so many rows come before that from which the forms count
/// theirs.
pub(crate) fn row_of(form: &NamedForm, before: u32) -> u64 {
    if form.times == 0 {
        return u64::from(form.row);
    }
    u64::from(before) + u64::from(form.row)
}

// How many cases and columns there are; then each row, and then each form.
fn text_of(alloc: Global, cases: u32, named: &NamedCase<'_>) -> Result<String, AllocError> {
    let system = named.system();
    let mut text = format!(in alloc; "{cases} {}", system.columns())?;
    for i in 0..named.count() {
        write_row(&mut text, &named.name(i), &named.factor(i), system.row(i))?;
    }
    write_forms(&mut text, named)?;
    Ok(text)
}

// Writes each form.
fn write_forms(text: &mut String, named: &NamedCase<'_>) -> Result<(), AllocError> {
    for form in named.forms() {
        write_form(text, form, row_of(form, named.before()))?;
    }
    Ok(())
}

/// Returns the system of a case with the rows that all cases share; None where the case isn't one of the system, or a
/// step is out of range.
pub(crate) fn named_case<'a>(
    alloc: Global,
    common: &'a Common,
    c: CaseSetting<'_>,
) -> Option<NamedCase<'a>>
    requires tree { IsTreeOf c.setting.lts.now c.setting.tree.now }
    requires labels { labels_of c.setting.basis.now ≡ labels c.setting.lts.now }
    requires common { IsCommonOf (shown_setting c.setting) common.now }
{
    let count = cases(c.setting.lts, c.setting.class, c.problem);
    if c.number >= count || !is_asked(c.setting.lts, c.problem) {
        return None;
    }
    system_with(alloc, common, c).ok()
}

// What the systems of several problems say, each made with the same rows that they share.
fn texts_over_common(
    alloc: Global,
    common: &Common,
    setting: Setting<'_>,
    problems: &[(Problem, u32)],
) -> Option<String>
    requires tree { IsTreeOf setting.lts.now setting.tree.now }
    requires labels { labels_of setting.basis.now ≡ labels setting.lts.now }
    requires common { IsCommonOf (shown_setting setting) common.now }
{
    let mut told = String::new(alloc);
    for &(problem, number) in problems {
        let case = CaseSetting {
            setting,
            problem,
            number,
        };
        let named = named_case(alloc, common, case)?;
        let count = cases(setting.lts, setting.class, problem);
        let text = text_of(alloc, count, &named).ok()?;
        writeln!(told, "{text}").ok()?;
    }
    Some(told)
}

// The same of the system that a text spells.
fn all_told(
    alloc: Global,
    text: &str,
    class: Class,
    problems: &[(Problem, u32)],
) -> Option<String> {
    let lts = system(alloc, text)?;
    let Ok(tree) = Tree::grow(alloc, &lts) else {
        return None;
    };
    let Ok(basis) = basis(alloc, &lts, &tree) else {
        return None;
    };
    let setting = Setting {
        lts: &lts,
        tree: &tree,
        basis: &basis,
        class,
    };
    let Ok(common) = Common::new(alloc, setting) else {
        return None;
    };
    texts_over_common(alloc, &common, setting, problems)
}

// Texts, classes, problems, and what their systems say.
const SHARED: [(&str, Class, [(Problem, u32); 3], &str); 6] = [
    (
        LOOP_AND_STEP,
        PURE,
        [(Event(1, 0), 0), (Event(1, 1), 0), (States(0, 1), 1)],
        "1 2; Block [-1, -1] -1 1/1; Tokens(0) [1, 0] 0 1/1; Tokens(1) [1, 1] 0 1/1
1 2; Block [-1, -2] -1 1/1; Tokens(0) [1, 0] 0 1/1; Tokens(1) [1, 1] 0 1/1
2 2; Apart [0, -1] -1 1/1; Tokens(0) [1, 0] 0 1/1; Tokens(1) [1, 1] 0 1/1
",
    ),
    (
        CYCLE,
        PLAIN,
        [(Event(0, 1), 0), (Event(1, 1), 0), (States(0, 1), 0)],
        "1 2; Empty [-1, 0] 0 1/1; Full(2) [1, -1] -1 1/1; Keep [0, -1] 0 1/1; Tokens(0) [1, 0] 0 1/1; Tokens(1) [2, -1] 0 2/1; Tokens(2) [1, -1] 0 1/1; Up(0) [0, 1] 2 2/1; Up(1) [0, -1] 1 1/1; Down(0) [0, -1] 2 2/1; Down(1) [0, 1] 1 1/1; Effect(0) 2 [0, -1] -1 1 8 1; Effect(1) 1 [0, 1] -1 1 9 1
1 2; Empty [-2, 1] 0 2/1; Full(2) [1, -1] -1 1/1; Keep [0, -1] 0 1/1; Tokens(0) [1, 0] 0 1/1; Tokens(1) [2, -1] 0 2/1; Tokens(2) [1, -1] 0 1/1; Up(0) [0, 1] 2 2/1; Up(1) [0, -1] 1 1/1; Down(0) [0, -1] 2 2/1; Down(1) [0, 1] 1 1/1; Effect(0) 2 [0, -1] -1 1 8 1; Effect(1) 1 [0, 1] -1 1 9 1
2 2; Apart [0, -1] -2 2/1; Tokens(0) [1, 0] 0 1/1; Tokens(1) [2, -1] 0 2/1; Tokens(2) [1, -1] 0 1/1; Up(0) [0, 1] 2 2/1; Up(1) [0, -1] 1 1/1; Down(0) [0, -1] 2 2/1; Down(1) [0, 1] 1 1/1; Effect(0) 2 [0, -1] -1 1 6 1; Effect(1) 1 [0, 1] -1 1 7 1
",
    ),
    (
        CYCLE,
        SAFE,
        [(Event(0, 1), 0), (States(0, 1), 1), (Event(0, 1), 0)],
        "1 2; Stop(2) [0, -1] -1 1/1; Tokens(0) [1, 0] 0 1/1; Tokens(1) [2, -1] 0 2/1; Tokens(2) [1, -1] 0 1/1; Cap(0) [-1, 0] 1 1/1; Cap(1) [-2, 1] 2 2/1; Cap(2) [-1, 1] 1 1/1; Tokens(0) 1 [1, 0] 0 1 1 1; Tokens(1) 2 [2, -1] 0 1 2 1; Tokens(2) 1 [1, -1] 0 1 3 1
2 2; Apart [0, 1] -2 2/1; Tokens(0) [1, 0] 0 1/1; Tokens(1) [2, -1] 0 2/1; Tokens(2) [1, -1] 0 1/1; Cap(0) [-1, 0] 1 1/1; Cap(1) [-2, 1] 2 2/1; Cap(2) [-1, 1] 1 1/1; Tokens(0) 1 [1, 0] 0 1 1 1; Tokens(1) 2 [2, -1] 0 1 2 1; Tokens(2) 1 [1, -1] 0 1 3 1
1 2; Stop(2) [0, -1] -1 1/1; Tokens(0) [1, 0] 0 1/1; Tokens(1) [2, -1] 0 2/1; Tokens(2) [1, -1] 0 1/1; Cap(0) [-1, 0] 1 1/1; Cap(1) [-2, 1] 2 2/1; Cap(2) [-1, 1] 1 1/1; Tokens(0) 1 [1, 0] 0 1 1 1; Tokens(1) 2 [2, -1] 0 1 2 1; Tokens(2) 1 [1, -1] 0 1 3 1
",
    ),
    // Down(1) differs from Apart by its constant alone
    (
        LOOP_AND_STEP,
        PLAIN,
        [(Event(1, 0), 0), (Event(1, 1), 0), (States(0, 1), 0)],
        "1 2; Empty [-1, -1] 0 1/1; Full(0) [1, 0] -1 1/1; Tokens(0) [1, 0] 0 1/1; Tokens(1) [1, 1] 0 1/1; Up(1) [0, -1] 1 1/1; Down(1) [0, 1] 1 1/1; Effect(0) 1 [0, 0] -1 1 0 0; Effect(1) 1 [0, 1] -1 1 5 1
1 2; Empty [-1, -1] 0 1/1; Full(0) [1, 0] -1 1/1; Keep [0, -1] 0 1/1; Tokens(0) [1, 0] 0 1/1; Tokens(1) [1, 1] 0 1/1; Up(1) [0, -1] 1 1/1; Down(1) [0, 1] 1 1/1; Effect(0) 1 [0, 0] -1 1 0 0; Effect(1) 1 [0, 1] -1 1 6 1
2 2; Apart [0, 1] -1 1/1; Tokens(0) [1, 0] 0 1/1; Tokens(1) [1, 1] 0 1/1; Up(1) [0, -1] 1 1/1; Down(1) [0, 1] 1 1/1; Effect(0) 1 [0, 0] -1 1 0 0; Effect(1) 1 [0, 1] -1 1 4 1
",
    ),
    // the consumer of each case has no row `makes`
    (
        CHOICE,
        NONBRANCHING,
        [(States(1, 2), 0), (States(1, 2), 3), (Event(1, 0), 0)],
        "4 2; Apart [-1, 1] -1 1/1; Makes(1) [0, 1] 0 1/1
4 2; Apart [1, -1] -1 1/1; Makes(0) [1, 0] 0 1/1
1 2; Stop(0) [-1, 0] -1 1/1; Makes(1) [0, 1] 0 1/1
",
    ),
    // `makes` is equal to Keep in the events, and no row of the states
    (
        IN_TURN,
        PLAIN_NONBRANCHING,
        [(Event(0, 1), 0), (Event(1, 0), 0), (States(0, 1), 1)],
        "1 2; Empty [-1, 0] 0 1/1; Full(1) [1, -1] -1 1/1; Keep [0, -1] 0 1/1; Tokens(0) [1, 0] 0 1/1; Tokens(1) [1, -1] 0 1/1; Up(0) [0, 1] 1 1/1; Up(1) [0, -1] 1 1/1; Effect(0) 1 [0, -1] -1 1 6 1; Effect(1) 1 [0, 1] -1 1 5 1
1 2; Empty [-1, 1] 0 1/1; Full(0) [1, 0] -1 1/1; Keep [0, 1] 0 1/1; Tokens(0) [1, 0] 0 1/1; Tokens(1) [1, -1] 0 1/1; Up(0) [0, 1] 1 1/1; Up(1) [0, -1] 1 1/1; Effect(0) 1 [0, -1] -1 1 6 1; Effect(1) 1 [0, 1] -1 1 5 1
4 2; Apart [0, -1] -1 1/1; Tokens(0) [1, 0] 0 1/1; Tokens(1) [1, -1] 0 1/1; Up(0) [0, 1] 1 1/1; Up(1) [0, -1] 1 1/1; Makes(0) [0, -1] 0 1/1; Effect(0) 1 [0, -1] -1 1 4 1; Effect(1) 1 [0, 1] -1 1 3 1
",
    ),
];

#[test]
fn problems_share_their_rows(rt: HostRuntime) -> Result<(), Fail> {
    for (text, class, problems, rows) in SHARED {
        let told = all_told(rt.alloc(), text, class, &problems).ok_or("rows")?;
        assert!(rt; told.as_str() == rows, "{class:?} {text}");
    }
    Ok(())
}

// Whether the case has shared rows, and how many rows come before those; None where it isn't one of the system.
fn rows_before(alloc: Global, text: &str, class: Class, problem: Problem) -> Option<(bool, u32)> {
    let lts = system(alloc, text)?;
    let Ok(tree) = Tree::grow(alloc, &lts) else {
        return None;
    };
    let Ok(basis) = basis(alloc, &lts, &tree) else {
        return None;
    };
    let setting = Setting {
        lts: &lts,
        tree: &tree,
        basis: &basis,
        class,
    };
    let Ok(common) = Common::new(alloc, setting) else {
        return None;
    };
    let case = CaseSetting {
        setting,
        problem,
        number: 0,
    };
    let named = named_case(alloc, &common, case)?;
    Some((named.has_shared_rows(), named.before()))
}

// Texts, classes, problems, whether their first cases have shared rows, and how many rows come before those.
const SHARING: [(&str, Class, Problem, bool, u32); 20] = [
    (ABA, ALL_NETS, Event(1, 0), true, 2),
    (ABA, ALL_NETS, States(0, 1), true, 1),
    (LOOP_AND_STEP, PURE, Event(1, 0), true, 1),
    (CYCLE, SAFE, Event(0, 1), true, 1),
    (CYCLE, SAFE, States(0, 1), true, 1),
    (CYCLE, SAFE, Event(1, 1), true, 1),
    (STEP, TWO_BOUNDED, Event(1, 0), true, 1),
    // a label without an arc has no row of its own
    (DEAD, SAFE, Event(0, 0), true, 0),
    // the rows Empty, Full(1) and Keep are none of the shared ones, though some of these have the constant 0 too
    (IN_TURN, PLAIN, Event(0, 1), true, 3),
    (IN_TURN, PLAIN, States(0, 1), true, 1),
    (STEP, PURE_PLAIN, Event(1, 0), true, 1),
    // a class that asks a marking shares its rows too, whether the case splits on the start or not
    (STEP, TWO_MARKING, Event(1, 0), true, 1),
    (STEP, PURE_PLAIN_TWO_MARKING, Event(1, 0), true, 1),
    (STEP, PURE_PLAIN_TWO_MARKING, States(0, 1), true, 1),
    (STEP, TWO_BOUNDED_TWO_MARKING, Event(1, 0), true, 1),
    (STEP, TWO_BOUNDED_TWO_MARKING, States(0, 1), true, 1),
    // which rows Makes a case has depends on its consumer
    (CHOICE, NONBRANCHING, Event(1, 0), false, 0),
    (CHOICE, NONBRANCHING, States(1, 2), false, 0),
    (CHOICE, SAFE_NONBRANCHING, Event(1, 0), false, 0),
    (IN_TURN, PLAIN_NONBRANCHING, States(0, 1), false, 0),
];

#[test]
fn cases_have_shared_rows_where_the_class_has_them(rt: HostRuntime) {
    for (text, class, problem, shared, before) in SHARING {
        let found = rows_before(rt.alloc(), text, class, problem);
        assert!(rt;
            found == Some((shared, before)),
            "{class:?} {problem:?} {text}"
        );
    }
}

// Whether these are the shared forms of the class, in order; None where the text spells no system with all states
// reachable.
fn has_shared_forms(alloc: Global, text: &str, class: Class, forms: &[Form]) -> Option<bool> {
    let lts = system(alloc, text)?;
    let Ok(tree) = Tree::grow(alloc, &lts) else {
        return None;
    };
    let Ok(basis) = basis(alloc, &lts, &tree) else {
        return None;
    };
    let setting = Setting {
        lts: &lts,
        tree: &tree,
        basis: &basis,
        class,
    };
    let Ok(common) = Common::new(alloc, setting) else {
        return None;
    };
    Some(are_named(common.shared_forms(), forms))
}

// Whether these are the names of the forms, in order.
fn are_named(named: &[NamedForm], forms: &[Form]) -> bool {
    for (form, wanted) in named.iter().zip(forms) {
        if form.form != *wanted {
            return false;
        }
    }
    named.len() == forms.len()
}

// Texts, classes, and their shared forms: in a bounded class one for each state, and in one that asks a marking the
// start.
const SHARED_FORMS: [(&str, Class, &[Form]); 13] = [
    (CYCLE, SAFE, &[Tokens(0), Tokens(1), Tokens(2)]),
    (CYCLE, TWO_BOUNDED, &[Tokens(0), Tokens(1), Tokens(2)]),
    (ABA, SAFE, &[Tokens(0), Tokens(1), Tokens(2), Tokens(3)]),
    (DEAD, SAFE, &[Tokens(0)]),
    (
        STEP,
        TWO_BOUNDED_TWO_MARKING,
        &[Tokens(0), Tokens(1), Start],
    ),
    (CYCLE, PLAIN, &[Effect(0), Effect(1)]),
    (STEP, PLAIN_TWO_MARKING, &[Effect(0), Start]),
    (CYCLE, ALL_NETS, &[]),
    (CYCLE, PURE, &[]),
    (STEP, TWO_MARKING, &[]),
    (CHOICE, NONBRANCHING, &[]),
    (CHOICE, SAFE_NONBRANCHING, &[]),
    (IN_TURN, PLAIN_NONBRANCHING, &[]),
];

#[test]
fn classes_have_shared_forms(rt: HostRuntime) {
    for (text, class, forms) in SHARED_FORMS {
        assert!(rt;
            has_shared_forms(rt.alloc(), text, class, forms) == Some(true),
            "{class:?} {text}"
        );
    }
}
