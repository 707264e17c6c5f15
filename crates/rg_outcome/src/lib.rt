//! The one answer for a system and a class, as a definition, and the laws about it. The functions here do nothing:
//! each contract is a law.
//!
//! Regions that separate all problems make a net that solves the system, and a problem that no region of the class
//! separates leaves none (Badouel, Bernardinello and Darondeau, *Petri Net Synthesis*). Whether a region separates a
//! problem is asked of linear systems, by branching where numbers have to be whole (Schrijver, *Theory of Linear and
//! Integer Programming*).
#![tactic(auto)]

ghost use Rattle.std.specs.Prelude.{◌≡◌, ◌↔◌, ℕ, List, Option, None, All};
ghost use Rattle.rg_theory.specs.System.{System, IsInRange, IsAllReachable};
ghost use Rattle.rg_theory.specs.ClassWords.{HasNumbersInRange};
ghost use Rattle.rg_theory.specs.Net.{Place};
ghost use Rattle.rg_theory.specs.Problem.{IsProblem, IsInseparable};
ghost use Rattle.rg_theory.specs.Region.{IsRegionIn};
ghost use Rattle.rg_theory.specs.Tree.{IsTree};
ghost use Rattle.rg_cert_meaning.specs.Refutes.{Tree};
ghost use Rattle.rg_case_folds.specs.Setting.{Setting, CaseSetting};
ghost use Rattle.rg_case_folds.specs.Chords.{IsBasis};
ghost use Rattle.rg_outcome.specs.Casing.{CaseResult, CaseComes};
ghost use Rattle.rg_outcome.specs.Solving.{Solved, ProblemComes};
ghost use Rattle.rg_outcome.specs.Coming.{Separation, Separation.unsolvable, ComesFrom, AllComeTo, IsSeparatedIn, Says};
ghost use Rattle.rg_outcome.specs.Blocks.{ComesByBlocks};
ghost use Rattle.rg_outcome.specs.Outcome.{Answer, SearchedFrom, Searched, Out, IsSearchRight, IsRight};

use rg_theory::{Class, Problem, one_least_fork, pruned_is_one};

/// Law: a case of a problem has one outcome: a place, a tree that refutes it, or a term out of range. A problem has
/// one too, and each problem of a system has some: every computation ends, or stops at its first step out of range.
/// Neither depends on places that are kept, so a problem may be solved at any time.
pub fn solving_is_one()
    ensures case { (s : CaseSetting) (r r' : CaseResult) → CaseComes s r → CaseComes s r' → r ≡ r' }
    ensures problem { (s : Setting) (problem : Problem) (r r' : Solved) → ProblemComes s problem r → ProblemComes s problem r' → r ≡ r' }
    ensures some { (s : Setting) (problem : Problem) → IsInRange s.lts → HasNumbersInRange s.class → IsAllReachable s.lts → IsTree s.lts s.tree
        → IsBasis s.lts s.tree s.basis → IsProblem s.lts problem → (r : Solved) × ProblemComes s problem r }
{}

/// Law: what is left of all problems, with the places kept so far, has one outcome, and all problems of a system have
/// some.
pub fn separation_is_one()
    ensures one { (s : Setting) (last : Option Problem) (kept : List Place) (o o' : Separation) → ComesFrom s.lts (ProblemComes s) last kept o → ComesFrom s.lts (ProblemComes s) last kept o' → o ≡ o' }
    ensures some { (s : Setting) → IsInRange s.lts → HasNumbersInRange s.class → IsAllReachable s.lts → IsTree s.lts s.tree → IsBasis s.lts s.tree s.basis → (o : Separation) × AllComeTo s.lts (ProblemComes s) o }
{}

/// Law: problems solved in blocks of any lengths, whose outcomes are taken over in the order of the problems, have
/// the same outcome as problems solved one after the other.
pub fn blocks_come_to_the_same()
    ensures { (s : Setting) (last : Option Problem) (kept : List Place) (o : Separation) → ComesByBlocks s.lts (ProblemComes s) last kept o → ComesFrom s.lts (ProblemComes s) last kept o }
{}

/// Law: a refuted problem that ends the work is the first of all refuted problems, whatever places are kept. Else no
/// problem is refuted, each place that is kept is that of a problem, and the places separate all problems, or the
/// term is that of the first problem that none of them separates.
pub fn separation_says()
    ensures { (s : Setting) (o : Separation) → IsInRange s.lts → HasNumbersInRange s.class → IsAllReachable s.lts → IsTree s.lts s.tree → IsBasis s.lts s.tree s.basis
        → AllComeTo s.lts (ProblemComes s) o → Says s.lts (ProblemComes s) o }
{}

/// Law: the refuted problem that ends the work is the same one, with the same trees, if the work begins with regions
/// of the class that are kept already: no region separates it (`refuted_is_inseparable`), and no earlier problem is
/// refuted.
pub fn refusal_is_one()
    ensures { (s : Setting) (kept : List Place) (problem : Problem) (trees : List Tree) → IsInRange s.lts → HasNumbersInRange s.class → IsAllReachable s.lts
        → IsTree s.lts s.tree → IsBasis s.lts s.tree s.basis → All (IsRegionIn s.lts s.class) kept
        → ComesFrom s.lts (ProblemComes s) None kept (unsolvable problem trees) ↔ AllComeTo s.lts (ProblemComes s) (unsolvable problem trees) }
{}

/// Law: no region of the class separates a problem all of whose cases are refuted: a region would give some case a
/// point with whole forms, and branching leaves none (Schrijver, *Theory of Linear and Integer Programming*).
pub fn refuted_is_inseparable()
    ensures { (s : Setting) (problem : Problem) (trees : List Tree) → IsInRange s.lts → HasNumbersInRange s.class → IsAllReachable s.lts → IsTree s.lts s.tree
        → IsBasis s.lts s.tree s.basis → IsProblem s.lts problem → ProblemComes s problem (Solved.refuted trees) → IsInseparable s.lts s.class problem }
{}

/// Law: the place that is the outcome of a problem is a region of the class that separates it.
pub fn placed_separates()
    ensures { (s : Setting) (problem : Problem) (p : Place) → IsInRange s.lts → HasNumbersInRange s.class → IsAllReachable s.lts → IsTree s.lts s.tree
        → IsBasis s.lts s.tree s.basis → IsProblem s.lts problem → ProblemComes s problem (Solved.placed p) → IsSeparatedIn s.lts s.class problem p }
{}

/// Law: a search for places has one outcome, whichever places it begins with. A system and a class have exactly one
/// answer.
pub fn outcome_is_one()
    ensures search { (lts : System) (class : Class) (kept : List Place) (o o' : Separation) → SearchedFrom lts class kept o → SearchedFrom lts class kept o' → o ≡ o' }
    ensures answer { (lts : System) (class : Class) (a a' : Answer) → Out lts class a → Out lts class a' → a ≡ a' }
    ensures some { (lts : System) (class : Class) → IsInRange lts → HasNumbersInRange class → (a : Answer) × Out lts class a }
{
    one_least_fork();
    pruned_is_one();
}

/// Law: the places of a search are regions of the class that separate all problems, and no region of the class
/// separates the problem that it refutes. So the net of an answer is of the class and solves the system, a reason
/// leaves no net of the class (Badouel, Bernardinello and Darondeau, *Petri Net Synthesis*), and system and class fix
/// the term.
pub fn outcome_is_right()
    ensures search { (lts : System) (class : Class) (o : Separation) → IsInRange lts → HasNumbersInRange class → IsAllReachable lts → Searched lts class o → IsSearchRight lts class o }
    ensures answer { (lts : System) (class : Class) (a : Answer) → IsInRange lts → HasNumbersInRange class → Out lts class a → IsRight lts class a }
{}
