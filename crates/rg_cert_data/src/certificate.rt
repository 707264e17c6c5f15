//! Certificates that no net of a class solves a system.
use rg_cert_meaning::{Form, RowName};
use rg_theory::Class;

/// A node of a tree of splits, as in branch and bound (Schrijver, Theory of Linear and Integer Programming).
#[derive(Debug, PartialEq, Eq, Drop)]
pub enum Node {
    /// Rows with their multipliers, in any order. By the lemma of Farkas they refute where the multiplied
    /// expressions add up to a number below 0.
    Leaf(Vec<(RowName, i128)>),
    /// The form is at most the number in the low side, and above it in the high side; the start counts its steps.
    Split(Form, i64),
}

/// The tree of splits for one case of a problem.
#[derive(Debug, PartialEq, Eq, Drop)]
pub struct Case {
    /// The nodes in preorder: each split, then its low side, then its high side.
    pub nodes: Vec<Node>,
}

/// Why there is no net. States and labels are the system's numbers.
#[derive(Debug, PartialEq, Eq, Drop)]
pub enum Reason {
    /// A state that can't be reached.
    Unreachable(u32),
    /// A state, a label, and two different states to which the label leads from there.
    Fork(u32, u32, u32, u32),
    /// No region of the class stops the label, the second number, at the state; with a tree.
    Event(u32, u32, Case),
    /// No region of the class distinguishes the two states; with one tree for each case.
    States(u32, u32, Vec<Case>),
}

/// A claim that no net of the class solves a system, and why.
#[derive(Debug, PartialEq, Eq, Drop)]
pub struct Certificate {
    pub class: Class,
    pub reason: Reason,
}
