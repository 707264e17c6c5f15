//! The plain branching ends as `solve_whole` does.
use crate::bounds::can_branch;
use crate::plain::{branching, system_of};
use crate::random::Generator;
use rg_branch::{Whole, solve_whole};
use std::test::Fail;

#[test]
fn plain_branching_agrees(rt: HostRuntime) -> Result<(), Fail> {
    let mut generator = Generator { state: 1 };
    let (mut points, mut trees) = (0u32, 0u32);
    for i in 0..200u32 {
        let columns = 2 + i % 2;
        let asked = generator.asked(rt.alloc(), columns)?;
        let system = system_of(rt.alloc(), columns, &asked.rows)?;
        assert!(rt;
            can_branch(&system, &asked.forms, &asked.tops),
            "system {i}"
        );
        let found = solve_whole(rt.alloc(), &system, &asked.forms);
        let plain = branching(rt.alloc(), columns, &asked.rows, &asked.forms, &[], 50)?;
        match &plain {
            Whole::Point(_, above) if !above.is_empty() => points = points.saturating_add(1),
            Whole::Tree(nodes) if nodes.len() > 1 => trees = trees.saturating_add(1),
            _ => {}
        }
        assert_eq!(rt; found, Ok(plain), "system {i}");
    }
    assert!(rt;
        points > 9 && trees > 9,
        "{points} points and {trees} trees with splits"
    );
    Ok(())
}
