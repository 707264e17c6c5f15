//! The way from one node of a tree of splits to the next.
use crate::systems::sides;
use rg_branch_trees::turn;
use std::test::Fail;

// The splits above a node, outermost first.
type Above<'a> = &'a [(u32, i64, bool)];

#[test]
fn sides_are_turned(rt: HostRuntime) -> Result<(), Fail> {
    let cases: [(Above, Above); 5] = [
        (&[], &[]),
        (&[(0, 3, false)], &[(0, 3, true)]),
        (&[(0, 3, true)], &[]),
        (
            &[(0, 3, false), (2, -1, false)],
            &[(0, 3, false), (2, -1, true)],
        ),
        (
            &[(0, 3, true), (1, 0, false), (2, -1, true), (2, 4, true)],
            &[(0, 3, true), (1, 0, true)],
        ),
    ];
    for (before, after) in cases {
        let mut above = sides(rt.alloc(), before)?;
        turn(&mut above);
        assert_eq!(rt; above, sides(rt.alloc(), after)?);
    }
    Ok(())
}
