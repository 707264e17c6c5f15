//! A task for each number.
ghost use Rattle.std.specs.Prelude.{◌≡◌, ℕ, IfOk, OnOk};

use rg_memory::NoMemory;

/// Work for each number by itself. What a result shows is a function of the task and the number, so a block has one
/// list of answers.
pub trait Task {
    /// The result for one number.
    type Out;

    /// The data that a result shows.
    ghost Shown: { Type 0 };

    /// What a result shows.
    ghost show: { Self.Out → Shown };

    /// The condition on a number.
    ghost asks: { Self → ℕ → Type 0 };

    /// The answer for a number.
    ghost answer: { Self → ℕ → Shown };

    /// Does the work for number `i`: the result shows the answer for it. Returns `NoMemory` if memory runs out.
    fn run(&self, i: u32) -> Result<Self::Out, NoMemory>
        requires { asks self.now i }
        ensures { IfOk result (λ v. show v ≡ answer self.now i) };
}

/// Work for each number, in parts that keep something from one number to the next. The answers are a relation: where
/// it has one result for each number, so has a block, whatever its parts keep.
pub trait PartTask {
    /// What a part of a block keeps from one of its numbers to the next.
    type Part;

    /// The result for one number.
    type Out;

    /// The condition on what a part keeps.
    ghost holds: { Self → Self.Part → Type 0 };

    /// The condition on a number.
    ghost asks: { Self → ℕ → Type 0 };

    /// The results that answer a number.
    ghost answers: { Self → ℕ → Self.Out → Type 0 };

    /// Makes what a part keeps before its first number. Returns `NoMemory` if memory runs out.
    fn begin(&self) -> Result<Self::Part, NoMemory>
        ensures { IfOk result (holds self.now) };

    /// Does the work for number `i` in a part: the result answers it. Returns `NoMemory` if memory runs out.
    fn run(&self, part: &mut Self::Part, i: u32) -> Result<Self::Out, NoMemory>
        requires holds { holds self.now part.old }
        requires asked { asks self.now i }
        ensures holds { OnOk result (holds self.now part.new) }
        ensures answers { IfOk result (λ v. answers self.now i v) };
}
