//! The place of a point of one case.
ghost use Rattle.std.specs.Prelude.{◌≡◌, ◌<◌, length, IfOk};
ghost use Rattle.rg_theory.specs.System.{labels};
ghost use Rattle.rg_cert_meaning.specs.Refutes.{IsSeparationProblem};
ghost use Rattle.rg_cert_meaning.specs.Row.{cases_of};
ghost use Rattle.rg_spanning.specs.Spanning.{IsTreeOf};
ghost use Rattle.rg_cycles.specs.View.{labels_of, cycle_of};
ghost use Rattle.rg_case_folds.specs.Setting.{setting_at};
ghost use Rattle.rg_case_folds.specs.Rewriting.{column_count};
ghost use Rattle.rg_folds.specs.Fold.{Comes};
ghost use Rattle.rg_case_folds.specs.Placing.{place_fold};
ghost use Rattle.rg_net.specs.Shown.{shown_place};
ghost use Rattle.rg_places.specs.PointValues.{point_start, point_value};
ghost use Rattle.rg_separate.specs.Points.{IsPlaceOf};

use rg_case_parts::Setting;
use rg_cycles::Basis;
use rg_fraction::{FoldStop, Fraction};
use rg_lts::Lts;
use rg_net::Place;
use rg_places::make_place as make_region;
use rg_spanning::Tree;
use rg_theory::{Class, Problem};
use std::alloc::Global;

/// Returns the place that a point of the system of a case makes (`rg_places::make_place` returns its tokens too). The
/// point has one fraction for each column of that system.
///
/// If the point meets every row of the system of this case, and the forms of the case are whole at it, the place is a
/// region of the class that separates the problem. Returns `FoldStop::Wide` exactly if a step of the computation is
/// out of range, with the first such step, and `FoldStop::NoMemory` if memory runs out.
pub fn make_place(
    alloc: Global,
    lts: &Lts,
    tree: &Tree,
    basis: &Basis,
    class: Class,
    problem: Problem,
    case: u32,
    point: &[Fraction],
) -> Result<Place, FoldStop>
    requires tree { IsTreeOf lts.now tree.now }
    requires labels { labels_of basis.now ≡ labels lts.now }
    requires asked { IsSeparationProblem lts.now problem }
    requires case { case < cases_of lts.now class problem }
    requires columns { length point.now ≡ column_count lts.now (cycle_of basis.now) class }
    ensures comes { let s = setting_at lts.now tree.now.arcs (cycle_of basis.now) class in
        Comes (place_fold s problem (point_start s.class point.now) (point_value s.lts s.basis s.class point.now)) shown_place result }
    ensures region { let s = setting_at lts.now tree.now.arcs (cycle_of basis.now) class in IfOk result (IsPlaceOf s problem case point.now) }
{
    let setting = Setting {
        lts,
        tree,
        basis,
        class,
    };
    let made = make_region(alloc, setting, problem, point)?;
    Ok(made.place)
}
