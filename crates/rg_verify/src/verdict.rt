//! What is said of a certificate.
ghost use Rattle.std.specs.Prelude.{◌↔◌, IsTrue};
ghost use Rattle.rg_verify.specs.Judged.{IsVariableBefore};

use rg_cert_meaning::Variable;

// Whether the one variable comes before the other: tokens come first, by state, then effects, by label.
pub(crate) fn comes_before(one: Variable, other: Variable) -> bool
    ensures { IsTrue result ↔ IsVariableBefore one other }
{
    match (one, other) {
        (Variable::Tokens(q), Variable::Tokens(r)) => q < r,
        (Variable::Tokens(_), Variable::Effect(_)) => true,
        (Variable::Effect(_), Variable::Tokens(_)) => false,
        (Variable::Effect(t), Variable::Effect(u)) => t < u,
    }
}

/// What is wrong with a certificate: the first defect. `NotSo` precedes `CaseMissing`, and then the order is by case
/// and by node, in preorder: `WrongForm` of a split, or of a leaf that of the first wrong row, `SumPasses`,
/// `LeftOver` and `NoContradiction`.
#[derive(Clone, Copy, Debug, PartialEq, Eq)]
pub enum Defect {
    /// A row doesn't apply: the class, the problem or its case hasn't it, there is no such arc, or no split so deep
    /// above.
    WrongRow,
    /// A row other than an arc's has a multiplier below 1.
    NotPositive,
    /// The multiplied coefficients of the variable don't add up to 0, and it is the first such variable.
    LeftOver(Variable),
    /// The multiplied constants add up to 0 or more.
    NoContradiction,
    /// The absolute values of a variable's multiplied coefficients, or of the multiplied constants, add up to more
    /// than 2^127 - 1.
    SumPasses,
    /// A split is on the start, and the class asks no marking.
    WrongForm,
    /// The number of cases isn't that of the problem, or is 0.
    CaseMissing,
    /// The reason doesn't hold of the system: the state can be reached, the two arcs aren't a fork, the label has an
    /// arc at the state, or the two states are one.
    NotSo,
}

/// The verdict on a certificate.
#[derive(Clone, Copy, Debug, PartialEq, Eq)]
pub enum Verdict {
    /// The reason holds, so no net of the class solves the system.
    Accepted,
    /// The first defect, with the case and the node of its tree, in preorder and from 0; both are 0 for `NotSo` and
    /// `CaseMissing`.
    Refused {
        case: u32,
        node: u64,
        defect: Defect,
    },
}
