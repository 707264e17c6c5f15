//! How a branching ends.
ghost use Rattle.std.specs.Prelude.{◌≡◌};
ghost use Rattle.rg_branch.specs.declared.whole.BranchStop.TheVariants as stop;

use rg_branch_trees::Side;
use rg_feasible::PivotWide;
use rg_fraction::Fraction;
use rg_memory::NoMemory;
use std::alloc::AllocFailed;

/// A point with whole forms, or a tree that leaves none.
#[derive(Debug, PartialEq, Eq, Drop)]
pub enum Whole {
    /// The values of the columns, and the sides above the node of the point, outermost first, each on the number of
    /// its form.
    Point(Vec<Fraction>, Vec<Side<u32>>),
    /// The nodes in preorder: each split, then its low side, then its high side.
    Tree(Vec<RawNode>),
}

/// A node of a tree of splits.
#[derive(Debug, PartialEq, Eq, Drop)]
pub enum RawNode {
    /// Rows with their multipliers, which refute. The system's rows are counted first, then those of the splits
    /// above the leaf, outermost first.
    Leaf(Vec<(u32, i128)>),
    /// The form with this number is at most the number on the low side, and above it on the high side.
    Split(u32, i64),
}

/// Why a branching stops.
#[derive(Debug, PartialEq, Eq, Drop)]
pub enum BranchStop {
    /// A term of the descent below these splits is out of range, at the set of these members.
    Wide {
        above: Vec<Side<u32>>,
        members: Vec<u32>,
        wide: PivotWide,
    },
    /// There is no memory.
    NoMemory,
}

impl<T: Drop> From<AllocFailed<T>> for BranchStop {
    ghost from_gives = { λ _ e. e ≡ stop.NoMemory };

    fn from(_: AllocFailed<T>) -> BranchStop {
        BranchStop::NoMemory
    }
}

impl From<NoMemory> for BranchStop {
    ghost from_gives = { λ _ e. e ≡ stop.NoMemory };

    fn from(_: NoMemory) -> BranchStop {
        BranchStop::NoMemory
    }
}
