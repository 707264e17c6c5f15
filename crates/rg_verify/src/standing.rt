//! Whether a row applies.
ghost use Rattle.std.specs.Prelude.{◌≡◌, ◌<◌, ◌↔◌, AllPairs, Contains, IsTrue};
ghost use Rattle.rg_theory.specs.System.{arc, states, labels, IsArcBefore};
ghost use Rattle.rg_cert_meaning.specs.Row.{HasArcAt, SharedStands, EventStands};
ghost use Rattle.rg_cert_meaning.specs.Refutes.{IsSeparationProblem};
ghost use Rattle.rg_cert_data.specs.Certificates.{IsRowNameOf};
ghost use Rattle.rg_verify.specs.Settings.{StandsIn};

use rg_cert_data::ProblemCase;
use rg_cert_meaning::{RowName, Side};
use rg_lts::Lts;
use rg_theory::{Arc, Class, Problem};

/// Returns whether the row applies in a case of a problem, below the sides above it.
pub(crate) fn stands(lts: &Lts, problem_case: ProblemCase, above: &[Side], name: RowName) -> bool
    requires asked { IsSeparationProblem lts.now problem_case.problem }
    requires name { IsRowNameOf lts.now name }
    ensures { IsTrue result ↔ StandsIn lts.now problem_case above.now name }
{
    match problem_case.problem {
        Problem::Event(_, t) => event_stands(lts, problem_case.class, t, above, name),
        Problem::States(_, _) => match name {
            RowName::Apart => true,
            _ => shared_stands(
                lts,
                problem_case.class,
                problem_case.consumer(lts),
                above,
                name,
            ),
        },
    }
}

// Whether the row is allowed in a problem of the label, at whatever state.
fn event_stands(lts: &Lts, class: Class, t: u32, above: &[Side], name: RowName) -> bool
    requires label { t < labels lts.now }
    requires name { IsRowNameOf lts.now name }
    ensures { IsTrue result ↔ EventStands lts.now class 0 t above.now name }
{
    match name {
        RowName::Stop(q) => !class.pure && !class.plain && has_arc_at(lts, q, t),
        RowName::Block => class.pure,
        RowName::Empty | RowName::Keep => class.plain && !class.pure,
        RowName::Full(q) => class.plain && !class.pure && has_arc_at(lts, q, t),
        _ => shared_stands(lts, class, t, above, name),
    }
}

// Whether the row speaks of no problem and is allowed, where the consumer alone may take from the place.
fn shared_stands(lts: &Lts, class: Class, consumer: u32, above: &[Side], name: RowName) -> bool
    requires name { IsRowNameOf lts.now name }
    ensures { IsTrue result ↔ SharedStands lts.now class consumer above.now name }
{
    match name {
        RowName::Arc(arc) => has_arc(lts.arcs(), &arc),
        RowName::Tokens(_) => true,
        RowName::Cap(_) => class.bound.is_some(),
        RowName::Up(_) | RowName::Down(_) => class.plain,
        RowName::Makes(t) => class.nonbranching && t != consumer,
        RowName::Above(depth) => match above.get(depth as usize) {
            Some(side) => side.form.stands(class),
            None => false,
        },
        _ => false,
    }
}

/// Returns whether some arc of the label begins at the state.
pub(crate) fn has_arc_at(lts: &Lts, q: u32, t: u32) -> bool
    requires state { q < states lts.now }
    requires label { t < labels lts.now }
    ensures { IsTrue result ↔ HasArcAt lts.now q t }
{
    lts.arc_at(q, t).is_some()
}

/// Returns whether the arc is among arcs in order.
pub(crate) fn has_arc(arcs: &[Arc], arc: &Arc) -> bool
    requires { AllPairs IsArcBefore arcs.now }
    ensures { IsTrue result ↔ Contains arcs.now arc.now }
{
    arcs.binary_search(arc).is_ok()
}
