//! Places of which only the weights that aren't 0 are kept.
use rg_marks::CompactPlace;
use rg_net::Place;
use std::test::Fail;

// Places over four labels: the start, how much each label takes, and how much it puts.
const PLACES: [(u128, [u128; 4], [u128; 4]); 5] = [
    (0, [0, 0, 0, 0], [0, 0, 0, 0]),
    (1, [3, 0, 0, 0], [0, 0, 0, 0]),
    (2, [0, 0, 0, 0], [0, 0, 0, 1]),
    (
        0,
        [0, 2, 0, 0],
        [0, 7, 0, 170141183460469231731687303715884105727],
    ),
    (4, [1, 1, 1, 1], [2, 2, 2, 2]),
];

#[test]
fn weights_come_back(rt: HostRuntime) -> Result<(), Fail> {
    let alloc = rt.alloc();
    for (start, pre, post) in PLACES {
        let place = Place {
            start,
            pre: Vec::from_slice(alloc, &pre)?,
            post: Vec::from_slice(alloc, &post)?,
        };
        let again = CompactPlace::new(alloc, &place)?.place(alloc)?;
        assert!(rt; again.start == start, "{start}");
        assert!(rt; again.pre.as_slice() == pre.as_slice(), "{start}");
        assert!(rt; again.post.as_slice() == post.as_slice(), "{start}");
    }
    Ok(())
}
