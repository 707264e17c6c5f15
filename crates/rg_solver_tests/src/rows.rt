//! The systems of problems, with rows, names, factors and forms worked by hand.
ghost use Rattle.std.specs.Prelude.{◌≡◌};
ghost use Rattle.rg_theory.specs.System.{labels};
ghost use Rattle.rg_spanning.specs.Spanning.{IsTreeOf};
ghost use Rattle.rg_cycles.specs.View.{labels_of};

use crate::asked::{
    PLAIN_TWO_MARKING, PURE_NONBRANCHING, PURE_PLAIN, PURE_PLAIN_SAFE, TWO_BOUNDED_TWO_MARKING,
    is_asked,
};
use crate::bases::basis;
use rg_case_parts::{CaseSetting, Setting};
use rg_cert_meaning::RowName;
use rg_fraction::Fraction;
use rg_linear::Row;
use rg_rows::{NamedForm, NamedSystem, cases};
use rg_samples::{
    ABA, CHOICE, CYCLE, IN_TURN, LOOP_AND_STEP, NONBRANCHING, PLAIN, PURE, SAFE, STEP, system,
};
use rg_spanning::Tree;
use rg_theory::Problem::{self, Event, States};
use rg_theory::{ALL_NETS, Class};
use std::alloc::{AllocError, Global};
use std::test::Fail;

/// Each of two users is idle, asks for the lock, gets it and puts it back. States and labels are in the order in
/// which the arcs name them.
pub(crate) const LOCK_BY_ARCS: &str =
    ".type LTS .states ii[initial] wi iw ww ic wc ci cw .labels ask1 ask2 get2 put2 get1 put1 .arcs ii ask1 wi ii ask2 iw iw ask1 ww iw get2 ic ic ask1 wc ic put2 ii wi get1 ci wi ask2 ww ww get1 cw ww get2 wc wc put2 wi ci put1 ii ci ask2 cw cw put1 iw";

/// One a or two b lead from s0 to s1.
pub(crate) const ONE_A_OR_TWO_B: &str =
    ".type LTS .states s0[initial] s1 s2 .labels a b .arcs s0 a s1 s0 b s2 s2 b s1";

/// The effect of a is 0, so s1 and s2 have equal tokens.
pub(crate) const IDLE: &str =
    ".type LTS .states s0[initial] s1 s2 .labels a b .arcs s0 a s0 s0 b s1 s1 a s2";

// What the system of a case says.
fn text_of_case(
    alloc: Global,
    text: &str,
    class: Class,
    problem: Problem,
    number: u32,
) -> Option<String> {
    let lts = system(alloc, text)?;
    let Ok(tree) = Tree::grow(alloc, &lts) else {
        return None;
    };
    let Ok(basis) = basis(alloc, &lts, &tree) else {
        return None;
    };
    let setting = Setting {
        lts: &lts,
        tree: &tree,
        basis: &basis,
        class,
    };
    let case = CaseSetting {
        setting,
        problem,
        number,
    };
    case_text(alloc, case)
}

// The system of a case, as a text.
fn case_text(alloc: Global, c: CaseSetting<'_>) -> Option<String>
    requires tree { IsTreeOf c.setting.lts.now c.setting.tree.now }
    requires labels { labels_of c.setting.basis.now ≡ labels c.setting.lts.now }
{
    let count = cases(c.setting.lts, c.setting.class, c.problem);
    if c.number >= count || !is_asked(c.setting.lts, c.problem) {
        return None;
    }
    let Setting {
        lts,
        tree,
        basis,
        class,
    } = c.setting;
    let named = rg_rows::system(alloc, lts, tree, basis, class, c.problem, c.number).ok()?;
    text_of(alloc, count, &named).ok()
}

/// Writes a row as its name, its coefficients, its constant and its factor.
pub(crate) fn write_row(
    text: &mut String,
    name: &RowName,
    factor: &Fraction,
    row: &Row,
) -> Result<(), AllocError> {
    let (top, bottom) = (factor.numerator(), factor.denominator());
    write!(
        text,
        "; {name:?} {:?} {} {top}/{bottom}",
        row.coeffs, row.constant
    )
}

/// Writes a form as its name, its scale, its coefficients, its bounds, the row of this number and how many times that
/// it is.
pub(crate) fn write_form(text: &mut String, form: &NamedForm, row: u64) -> Result<(), AllocError> {
    write!(
        text,
        "; {:?} {} {:?} {} {} {} {}",
        form.form, form.scale, form.coeffs, form.low, form.high, row, form.times
    )
}

// How many cases and columns there are; then each row, and then each form.
fn text_of(alloc: Global, cases: u32, named: &NamedSystem) -> Result<String, AllocError> {
    let columns = named.system.columns();
    let mut text = format!(in alloc; "{cases} {columns}")?;
    let rows = named.system.rows().iter();
    for ((name, factor), row) in named.names.iter().zip(&named.factors).zip(rows) {
        write_row(&mut text, name, factor, row)?;
    }
    for form in &named.forms {
        write_form(&mut text, form, u64::from(form.row))?;
    }
    Ok(text)
}

// Texts, classes, problems, cases, and what their systems say.
const SYSTEMS: [(&str, Class, Problem, u32, &str); 19] = [
    (
        LOOP_AND_STEP,
        PURE,
        Event(1, 0),
        0,
        "1 2; Block [-1, -1] -1 1/1; Tokens(0) [1, 0] 0 1/1; Tokens(1) [1, 1] 0 1/1",
    ),
    (
        LOOP_AND_STEP,
        PURE,
        States(0, 1),
        1,
        "2 2; Apart [0, -1] -1 1/1; Tokens(0) [1, 0] 0 1/1; Tokens(1) [1, 1] 0 1/1",
    ),
    (
        ABA,
        ALL_NETS,
        Event(1, 0),
        0,
        "1 2; Stop(0) [-1, 0] -1 1/1; Stop(2) [0, 1] -1 1/1",
    ),
    (IN_TURN, ALL_NETS, States(0, 1), 0, "2 1; Apart [-1] -1 1/1"),
    (
        CHOICE,
        NONBRANCHING,
        States(1, 2),
        3,
        "4 2; Apart [1, -1] -1 1/1; Makes(0) [1, 0] 0 1/1",
    ),
    (
        CHOICE,
        PURE_NONBRANCHING,
        Event(1, 0),
        0,
        "1 3; Block [-1, -2, 0] -1 1/1; Tokens(0) [1, 0, 0] 0 1/1; Tokens(1) [1, 1, 0] 0 1/1; Tokens(2) [1, 0, 1] 0 1/1; Makes(1) [0, 0, 1] 0 1/1",
    ),
    // a row that is divided, and one that is multiplied
    (
        ONE_A_OR_TWO_B,
        NONBRANCHING,
        States(0, 1),
        1,
        "4 1; Apart [2] -1 1/1; Makes(0) [1] 0 1/2",
    ),
    (CYCLE, ALL_NETS, States(0, 1), 0, "2 1; Apart [-1] -2 2/1"),
    // idle and equal rows are left out
    (
        IDLE,
        PURE_NONBRANCHING,
        States(1, 2),
        1,
        "4 2; Apart [0, 0] -1 1/1; Tokens(0) [1, 0] 0 1/1; Tokens(1) [1, 1] 0 1/1",
    ),
    // the forms of plain and of bounded classes
    (
        CYCLE,
        PLAIN,
        Event(0, 1),
        0,
        "1 2; Empty [-1, 0] 0 1/1; Full(2) [1, -1] -1 1/1; Keep [0, -1] 0 1/1; Tokens(0) [1, 0] 0 1/1; Tokens(1) [2, -1] 0 2/1; Tokens(2) [1, -1] 0 1/1; Up(0) [0, 1] 2 2/1; Up(1) [0, -1] 1 1/1; Down(0) [0, -1] 2 2/1; Down(1) [0, 1] 1 1/1; Effect(0) 2 [0, -1] -1 1 8 1; Effect(1) 1 [0, 1] -1 1 9 1",
    ),
    (
        CYCLE,
        SAFE,
        Event(0, 1),
        0,
        "1 2; Stop(2) [0, -1] -1 1/1; Tokens(0) [1, 0] 0 1/1; Tokens(1) [2, -1] 0 2/1; Tokens(2) [1, -1] 0 1/1; Cap(0) [-1, 0] 1 1/1; Cap(1) [-2, 1] 2 2/1; Cap(2) [-1, 1] 1 1/1; Tokens(0) 1 [1, 0] 0 1 1 1; Tokens(1) 2 [2, -1] 0 1 2 1; Tokens(2) 1 [1, -1] 0 1 3 1",
    ),
    (
        LOOP_AND_STEP,
        PLAIN,
        Event(1, 0),
        0,
        "1 2; Empty [-1, -1] 0 1/1; Full(0) [1, 0] -1 1/1; Tokens(0) [1, 0] 0 1/1; Tokens(1) [1, 1] 0 1/1; Up(1) [0, -1] 1 1/1; Down(1) [0, 1] 1 1/1; Effect(0) 1 [0, 0] -1 1 0 0; Effect(1) 1 [0, 1] -1 1 5 1",
    ),
    (
        STEP,
        PURE_PLAIN,
        Event(1, 0),
        0,
        "1 2; Block [-1, -2] -1 1/1; Tokens(0) [1, 0] 0 1/1; Tokens(1) [1, 1] 0 1/1; Up(0) [0, -1] 1 1/1; Down(0) [0, 1] 1 1/1; Effect(0) 1 [0, 1] -1 1 4 1",
    ),
    // a class that asks a marking counts the start by its steps: in the event problems of a plain class, and in all
    // of a bounded one
    (
        STEP,
        PLAIN_TWO_MARKING,
        Event(1, 0),
        0,
        "1 2; Empty [-1, -1] 0 1/1; Full(0) [1, 0] -1 1/1; Keep [0, -1] 0 1/1; Tokens(0) [1, 0] 0 1/1; Tokens(1) [1, 1] 0 1/1; Up(0) [0, -1] 1 1/1; Down(0) [0, 1] 1 1/1; Effect(0) 1 [0, 1] -1 1 6 1; Start 2 [1, 0] 0 2 3 1",
    ),
    (
        STEP,
        PLAIN_TWO_MARKING,
        States(0, 1),
        0,
        "2 2; Apart [0, 1] -1 1/1; Tokens(0) [1, 0] 0 1/1; Tokens(1) [1, 1] 0 1/1; Up(0) [0, -1] 1 1/1; Down(0) [0, 1] 1 1/1; Effect(0) 1 [0, 1] -1 1 4 1",
    ),
    (
        STEP,
        TWO_BOUNDED_TWO_MARKING,
        Event(1, 0),
        0,
        "1 2; Stop(0) [0, -1] -1 1/1; Tokens(0) [1, 0] 0 1/1; Tokens(1) [1, 1] 0 1/1; Cap(0) [-1, 0] 2 1/1; Cap(1) [-1, -1] 2 1/1; Tokens(0) 1 [1, 0] 0 2 1 1; Tokens(1) 1 [1, 1] 0 2 2 1; Start 2 [1, 0] 0 2 1 1",
    ),
    (
        STEP,
        TWO_BOUNDED_TWO_MARKING,
        States(0, 1),
        1,
        "2 2; Apart [0, -1] -1 1/1; Tokens(0) [1, 0] 0 1/1; Tokens(1) [1, 1] 0 1/1; Cap(0) [-1, 0] 2 1/1; Cap(1) [-1, -1] 2 1/1; Tokens(0) 1 [1, 0] 0 2 1 1; Tokens(1) 1 [1, 1] 0 2 2 1; Start 2 [1, 0] 0 2 1 1",
    ),
    (
        LOCK_BY_ARCS,
        ALL_NETS,
        Event(5, 4),
        0,
        "1 4; Stop(1) [0, 1, 0, 0] -1 1/1; Stop(3) [-1, 0, 0, 0] -1 1/1",
    ),
    (
        LOCK_BY_ARCS,
        PURE_PLAIN_SAFE,
        Event(0, 2),
        0,
        "1 5; Block [-1, -1, 0, 0, 0] -1 1/1; Tokens(0) [1, 0, 0, 0, 0] 0 1/1; Tokens(1) [1, 0, 0, -1, -1] 0 1/1; Tokens(2) [1, -1, -1, 0, 0] 0 1/1; Tokens(3) [1, -1, -1, -1, -1] 0 1/1; Tokens(4) [1, 0, -1, 0, 0] 0 1/1; Tokens(5) [1, 0, -1, -1, -1] 0 1/1; Tokens(6) [1, 0, 0, 0, -1] 0 1/1; Tokens(7) [1, -1, -1, 0, -1] 0 1/1; Cap(0) [-1, 0, 0, 0, 0] 1 1/1; Cap(1) [-1, 0, 0, 1, 1] 1 1/1; Cap(2) [-1, 1, 1, 0, 0] 1 1/1; Cap(3) [-1, 1, 1, 1, 1] 1 1/1; Cap(4) [-1, 0, 1, 0, 0] 1 1/1; Cap(5) [-1, 0, 1, 1, 1] 1 1/1; Cap(6) [-1, 0, 0, 0, 1] 1 1/1; Cap(7) [-1, 1, 1, 0, 1] 1 1/1; Up(0) [0, 0, 0, 1, 1] 1 1/1; Up(1) [0, 1, 1, 0, 0] 1 1/1; Up(2) [0, -1, 0, 0, 0] 1 1/1; Up(3) [0, 0, -1, 0, 0] 1 1/1; Up(4) [0, 0, 0, -1, 0] 1 1/1; Up(5) [0, 0, 0, 0, -1] 1 1/1; Down(0) [0, 0, 0, -1, -1] 1 1/1; Down(1) [0, -1, -1, 0, 0] 1 1/1; Down(2) [0, 1, 0, 0, 0] 1 1/1; Down(3) [0, 0, 1, 0, 0] 1 1/1; Down(4) [0, 0, 0, 1, 0] 1 1/1; Down(5) [0, 0, 0, 0, 1] 1 1/1; Tokens(0) 1 [1, 0, 0, 0, 0] 0 1 1 1; Tokens(1) 1 [1, 0, 0, -1, -1] 0 1 2 1; Tokens(2) 1 [1, -1, -1, 0, 0] 0 1 3 1; Tokens(3) 1 [1, -1, -1, -1, -1] 0 1 4 1; Tokens(4) 1 [1, 0, -1, 0, 0] 0 1 5 1; Tokens(5) 1 [1, 0, -1, -1, -1] 0 1 6 1; Tokens(6) 1 [1, 0, 0, 0, -1] 0 1 7 1; Tokens(7) 1 [1, -1, -1, 0, -1] 0 1 8 1",
    ),
];

#[test]
fn systems_of_cases(rt: HostRuntime) -> Result<(), Fail> {
    for (text, class, problem, number, rows) in SYSTEMS {
        let told = text_of_case(rt.alloc(), text, class, problem, number).ok_or("rows")?;
        assert!(rt; told.as_str() == rows, "{class:?} {problem:?} {text}");
    }
    Ok(())
}
