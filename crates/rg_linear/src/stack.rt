//! The steps of a descent with an explicit stack. What is left to do at a state leads to the outcome of
//! the whole, from the last step back to the first.

ghost use Rattle.std.specs.Prelude.{ℕ, suc, ◌<◌, ◌≤◌, List, [], ◌∷◌, length};
ghost use Rattle.rg_linear.specs.System.{LinearSystem, row_variable};
ghost use Rattle.rg_integers.specs.declared.term.Wide.{Wide};
ghost use Rattle.rg_linear.specs.Exchange.{exchanged, AllFit, FirstWide};
ghost use Rattle.rg_linear.specs.Descent.{Outcome, IsSatisfied, IsStuck, Chooses};
ghost use Rattle.rg_linear.specs.Stack.{fixed_of, limit, Resumes, work_left, IsStackOf};

/// Law: what each step may conclude.
pub fn steps_resume()
    ensures satisfied { (system : LinearSystem) (stack members : List ℕ) (i : ℕ) (o : Outcome) → i < limit system stack → IsSatisfied system members i → Resumes system stack members (suc i) o → Resumes system stack members i o }
    ensures stuck { (system : LinearSystem) (stack members : List ℕ) (i : ℕ) → i < limit system stack → IsStuck system members (fixed_of system stack) i → Resumes system stack members i (Outcome.refuted members i (fixed_of system stack)) }
    ensures wide { (system : LinearSystem) (stack members : List ℕ) (i j w n : ℕ) (t : Wide) → i < limit system stack
        → Chooses system members (fixed_of system stack) i j → FirstWide system members (row_variable system i) j w n t
        → Resumes system stack members i (Outcome.wide (record { members = members; pivot = row_variable system i; leaves = j; target = w; entry = n; term = t })) }
    ensures exchanges { (system : LinearSystem) (stack members : List ℕ) (i j : ℕ) (o : Outcome) → i < limit system stack
        → Chooses system members (fixed_of system stack) i j → AllFit system members (row_variable system i) j
        → Resumes system (i ∷ stack) (exchanged members (row_variable system i) j) 0 o → Resumes system stack members i o }
    ensures returns { (system : LinearSystem) (s : ℕ) (stack members : List ℕ) (i : ℕ) (o : Outcome) → s ≤ i → Resumes system stack members (suc s) o → Resumes system (s ∷ stack) members i o }
    ensures ends { (system : LinearSystem) (members : List ℕ) (i : ℕ) → length system.rows ≤ i → Resumes system [] members i (Outcome.point members) }
{}

/// Law: the work that is left falls with each step.
pub fn steps_end()
    ensures satisfied { (system : LinearSystem) (stack : List ℕ) (i : ℕ) → i < limit system stack → work_left (length system.rows) stack (suc i) < work_left (length system.rows) stack i }
    ensures exchanges { (system : LinearSystem) (stack : List ℕ) (i : ℕ) → i < limit system stack → work_left (length system.rows) (i ∷ stack) 0 < work_left (length system.rows) stack i }
    ensures returns { (system : LinearSystem) (s : ℕ) (stack : List ℕ) (i : ℕ) → work_left (length system.rows) stack (suc s) < work_left (length system.rows) (s ∷ stack) i }
{}

/// Law: the stack has at most as many rows as there are columns.
pub fn stack_is_short()
    ensures room { (system : LinearSystem) (stack members : List ℕ) (i j : ℕ) → IsStackOf system stack members → Chooses system members (fixed_of system stack) i j → length stack < system.columns }
    ensures pushed { (system : LinearSystem) (stack members : List ℕ) (i j : ℕ) → i < limit system stack → IsStackOf system stack members → Chooses system members (fixed_of system stack) i j → IsStackOf system (i ∷ stack) (exchanged members (row_variable system i) j) }
    ensures popped { (system : LinearSystem) (s : ℕ) (stack members : List ℕ) → IsStackOf system (s ∷ stack) members → IsStackOf system stack members }
{}
