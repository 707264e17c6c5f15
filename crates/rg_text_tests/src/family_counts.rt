//! How many states and arcs the systems have.
use rg_families::{Kind, MOST_DOUBLING, MOST_GRID, MOST_LOCK, generate, is_family_number};
use std::test::Fail;

// A family, a number, and how many states, labels and arcs the system has.
const COUNTS: [(Kind, u32, u32, u32, usize); 9] = [
    (Kind::Grid, 2, 9, 2, 12),
    (Kind::Grid, 40, 1681, 2, 3280),
    (Kind::Grid, MOST_GRID, 4096, 2, 8064),
    (Kind::Doubling, 40, 81, 41, 120),
    (Kind::Doubling, MOST_DOUBLING, 511, 256, 765),
    (Kind::Lock, 2, 8, 6, 14),
    (Kind::Lock, 3, 20, 9, 48),
    (Kind::Lock, 4, 48, 12, 144),
    (Kind::Lock, MOST_LOCK, 2816, 27, 16128),
];

#[test]
fn counts(rt: HostRuntime) -> Result<(), Fail> {
    let alloc = rt.alloc();
    for (kind, n, states, labels, arcs) in COUNTS {
        assert!(rt; is_family_number(kind, n), "{kind:?} {n}");
        let lts = generate(alloc, kind, n)?;
        assert!(rt; lts.states() == states, "{kind:?} {n}");
        assert!(rt; lts.labels() == labels, "{kind:?} {n}");
        assert!(rt; lts.arcs().len() == arcs, "{kind:?} {n}");
    }
    Ok(())
}
