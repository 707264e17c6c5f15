//! Systems of no column to five, with numbers as great as such a system may have for `settle` never to be refused;
//! and one with greater numbers, which is refused.
use crate::descents::{Case, are_settled};
use rg_feasible::{PivotWide, Settled};
use rg_integers::Wide;

// The numbers of the rows, by the number of columns.
const OF_NONE: i128 = 9223372036854775807;

const OF_ONE: i128 = 2147483647;

const OF_TWO: i128 = 32767;

const OF_THREE: i128 = 127;

const OF_FOUR: i128 = 7;

const GREATEST: i128 = i128::MAX;

const CASES: [Case; 7] = [
    Case {
        columns: 0,
        rows: &[(&[], OF_NONE), (&[], -OF_NONE)],
        settled: Settled::Refuted(1),
        members: &[],
        values: &[],
        multipliers: &[0, 1],
    },
    Case {
        columns: 1,
        rows: &[(&[OF_ONE], 1 - OF_ONE), (&[1 - OF_ONE], OF_ONE - 2)],
        settled: Settled::Refuted(0),
        members: &[2],
        values: &[],
        multipliers: &[2147483646, 2147483647],
    },
    Case {
        columns: 2,
        rows: &[
            (&[OF_TWO, -OF_TWO], -OF_TWO),
            (&[-OF_TWO, OF_TWO - 1], 1),
            (&[0, -OF_TWO], OF_TWO),
        ],
        settled: Settled::Point,
        members: &[2, 3],
        values: &[(-32765, 1), (-32766, 1), (0, 1), (0, 1), (1073676289, 1)],
        multipliers: &[],
    },
    Case {
        columns: 3,
        rows: &[
            (&[OF_THREE, -OF_THREE, OF_THREE], -OF_THREE),
            (&[-OF_THREE, OF_THREE - 1, 1], 1),
            (&[1, -OF_THREE, -OF_THREE], -1),
            (&[0, 0, -1], -1),
        ],
        settled: Settled::Point,
        members: &[3, 4, 6],
        values: &[
            (-252, 1),
            (-254, 1),
            (-1, 1),
            (0, 1),
            (0, 1),
            (32132, 1),
            (0, 1),
        ],
        multipliers: &[],
    },
    Case {
        columns: 4,
        rows: &[
            (&[OF_FOUR, -OF_FOUR, OF_FOUR, -OF_FOUR], -OF_FOUR),
            (&[-OF_FOUR, OF_FOUR - 1, 1, 0], 1),
            (&[1, 0, -OF_FOUR, OF_FOUR], -1),
            (&[0, 1, -1, -OF_FOUR], -1),
            (&[0, 0, 0, -1], -1),
        ],
        settled: Settled::Refuted(0),
        members: &[5, 6, 7, 8],
        values: &[],
        multipliers: &[6, 7, 7, 0, 7],
    },
    Case {
        columns: 5,
        rows: &[
            (&[1, -1, 0, 0, 0], -1),
            (&[0, 1, -1, 0, 0], -1),
            (&[0, 0, 1, -1, 0], -1),
            (&[0, 0, 0, 1, -1], -1),
            (&[-1, 0, 0, 0, 1], 1),
        ],
        settled: Settled::Refuted(0),
        members: &[4, 6, 7, 8, 9],
        values: &[],
        multipliers: &[1, 1, 1, 1, 1],
    },
    Case {
        columns: 1,
        rows: &[(&[GREATEST], -1), (&[1 - GREATEST], 0)],
        settled: Settled::Wide(PivotWide {
            pivot: 2,
            leaves: 1,
            target: 0,
            entry: 0,
            wide: Wide {
                a: GREATEST,
                b: GREATEST - 1,
                c: 0,
                d: 0,
            },
        }),
        members: &[1],
        values: &[],
        multipliers: &[],
    },
];

#[test]
fn systems_are_settled(rt: HostRuntime) {
    are_settled(&rt, &CASES);
}
