//! The outcome of a branching: there is one, and it is sound. Splits on a form that is not whole are those
//! of branch and bound (Schrijver, *Theory of Linear and Integer Programming*).

ghost use Rattle.std.specs.Prelude.{◌≡◌, ℕ, List, [], ℤ};
ghost use Rattle.rg_linear.specs.System.{LinearSystem, IsPoint, MeetsRows};
ghost use Rattle.rg_linear.specs.Descent.{IsAtZero};
ghost use Rattle.rg_linear.specs.Branching.{Form, SplitSide, SplitTree, BranchOutcome, BranchFrom, Branching, node_system, SplitTreeRefutes, ArePositive, AreBounded, FormsWhole, SplitsWithin};

/// Law: a branching has one outcome, and one wherever the forms lie between their bounds.
pub fn branching_is_one()
    ensures one { (system : LinearSystem) (forms : List Form) (above : List SplitSide) (o o' : BranchOutcome) → BranchFrom system forms above o → BranchFrom system forms above o' → o ≡ o' }
    ensures some { (system : LinearSystem) (forms : List Form) → AreBounded system forms → (o : BranchOutcome) × Branching system forms o }
    ensures splits { (system : LinearSystem) (forms : List Form) (o : BranchOutcome) → AreBounded system forms → Branching system forms o → SplitsWithin forms o }
{}

/// Law: the point that a branching finds meets the rows and has whole forms. The leaves of its tree refute, and then
/// no point with whole forms meets the rows.
pub fn branching_is_sound()
    ensures found { (system : LinearSystem) (forms : List Form) (above : List SplitSide) (members : List ℕ) → Branching system forms (BranchOutcome.found members above)
        → (scale : ℤ) (v : ℕ → ℤ) → IsPoint (node_system system forms above) scale v → IsAtZero members v → IsPoint system scale v × MeetsRows system v
        × FormsWhole system forms scale v }
    ensures leaves { (system : LinearSystem) (forms : List Form) (t : SplitTree) → Branching system forms (BranchOutcome.tree t) → SplitTreeRefutes system forms [] t }
    ensures none { (system : LinearSystem) (forms : List Form) (t : SplitTree) → ArePositive forms → Branching system forms (BranchOutcome.tree t) → (scale : ℤ) (v : ℕ → ℤ) → IsPoint system scale v → MeetsRows system v → ¬ FormsWhole system forms scale v }
{}
