//! Rows and counts of the word a b a.
use rg_case_parts::{count, counts, start};
use rg_cert_data::Term::{Minus, Plus};
use rg_cert_data::{Expression, ProblemCase, expression};
use rg_cert_meaning::Variable::{Effect, Tokens};
use rg_cert_meaning::{Form, RowName, Side};
use rg_lts::Lts;
use rg_samples::{ABA, NONBRANCHING, system};
use rg_spanning::Tree;
use rg_theory::ALL_NETS;
use rg_theory::Problem::{Event, States};
use std::alloc::Global;
use std::test::Fail;

// The states 0 and 2, of a class in which each label's place has one consumer.
const APART: ProblemCase = ProblemCase {
    class: NONBRANCHING,
    problem: States(0, 2),
    number: 3,
};

#[test]
fn the_order_and_the_consumer_are_told(rt: HostRuntime) -> Result<(), Fail> {
    let lts = system(rt.alloc(), ABA).ok_or("a system")?;
    assert!(rt; APART.order(&lts) == 1);
    assert!(rt; APART.consumer(&lts) == 1);
    Ok(())
}

// Label 0 at state 1.
const STOPPED: ProblemCase = ProblemCase {
    class: ALL_NETS,
    problem: Event(1, 0),
    number: 0,
};

// Whether the row `stop` at state 2 is its tokens less those of state 1, less 1.
fn is_stop(lts: &Lts) -> bool {
    let row = expression(lts, STOPPED, &[], RowName::Stop(2));
    row.constant == -1
        && row.terms == [Some(Plus(Tokens(2))), Some(Minus(Tokens(1))), None]
        && start(&row) == 0
}

// Whether the row of the high side of the effect of label 1 at 4 has the constant -5.
fn is_above(lts: &Lts) -> bool {
    let side = [Side {
        form: Form::Effect(1),
        at: 4,
        high: true,
    }];
    expression(lts, STOPPED, &side, RowName::Above(0)).constant == -5
}

#[test]
fn a_stop_is_told_and_counted(rt: HostRuntime) -> Result<(), Fail> {
    let lts = system(rt.alloc(), ABA).ok_or("a system")?;
    assert!(rt; is_stop(&lts));
    assert!(rt; is_above(&lts));
    Ok(())
}

// The tokens of state 2 less the effect of label 1.
const SUM: Expression = Expression {
    terms: [Some(Plus(Tokens(2))), Some(Minus(Effect(1))), None],
    constant: 0,
};

// Whether label 0 is counted once along the tree, and label 1 not at all.
fn are_counted(alloc: Global, lts: &Lts) -> bool {
    if lts.labels() < 2 || lts.states() < 3 {
        return false;
    }
    match Tree::grow(alloc, lts) {
        Ok(tree) => count(&tree, &SUM, 0) == 1 && count(&tree, &SUM, 1) == 0,
        Err(_) => false,
    }
}

#[test]
fn labels_count_along_the_tree(rt: HostRuntime) -> Result<(), Fail> {
    let lts = system(rt.alloc(), ABA).ok_or("a system")?;
    assert!(rt; are_counted(rt.alloc(), &lts));
    Ok(())
}

// Whether all labels together are counted as each of them alone.
fn are_counted_together(alloc: Global, lts: &Lts) -> bool {
    if lts.labels() < 2 || lts.states() < 3 {
        return false;
    }
    let Ok(tree) = Tree::grow(alloc, lts) else {
        return false;
    };
    match counts(alloc, &tree, lts.labels(), &SUM) {
        Ok(both) => both.as_slice() == [1, 0].as_slice(),
        Err(_) => false,
    }
}

#[test]
fn labels_count_together_as_alone(rt: HostRuntime) -> Result<(), Fail> {
    let lts = system(rt.alloc(), ABA).ok_or("a system")?;
    assert!(rt; are_counted_together(rt.alloc(), &lts));
    Ok(())
}
