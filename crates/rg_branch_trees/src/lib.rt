//! Trees of splits: the sides above a node, and the way through a tree in preorder.
#![tactic(auto)]

ghost use Rattle.std.specs.Prelude.{◌≡◌};
ghost use Rattle.rg_branch_trees.specs.Turning.{turned};

/// One side of a split: on the low side the form is at most the number, on the high side it is above the number.
#[derive(Clone, Copy, Debug, PartialEq, Eq)]
pub struct Side<F> {
    pub form: F,
    pub at: i64,
    pub high: bool,
}

/// Goes from the sides above the last node of a tree, or of a side, to those above the next node in preorder: the
/// innermost low side becomes the high one, and the high sides within it end. If all sides are high, none is left.
/// The outermost side is the first.
pub fn turn<F: Copy>(above: &mut Vec<Side<F>>)
    ensures { above.new.items ≡ turned above.old.items }
{
    let mut depth = above.len();
    while depth > 0 {
        depth -= 1;
        if !above[depth].high {
            above[depth].high = true;
            above.truncate(depth + 1);
            return;
        }
    }
    above.clear();
}
