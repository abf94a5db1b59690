//! What is filed for the shop of two grades.

use table::FiledLine;

/// Filed lines, and what answers them: the lines that the start page then shows, or the number, grade and row of the
/// fault.
pub(crate) struct Filing {
    pub(crate) lines: &'static [FiledLine],
    pub(crate) answer: Result<&'static [FiledLine], (u32, usize, usize)>,
}

/// Filings on the start page, by money only.
pub(crate) static FILINGS: [Filing; 38] = [
    // The exact costs keep every rule.
    Filing {
        lines: &[
            FiledLine {
                row: 1,
                floor: (6, 0),
                ceiling: (6, 0),
            },
            FiledLine {
                row: 3,
                floor: (30, 0),
                ceiling: (30, 0),
            },
        ],
        answer: Ok(&[
            FiledLine {
                row: 1,
                floor: (6, 0),
                ceiling: (6, 0),
            },
            FiledLine {
                row: 3,
                floor: (30, 0),
                ceiling: (30, 0),
            },
        ]),
    },
    // Not one line for each grade.
    Filing {
        lines: &[FiledLine {
            row: 1,
            floor: (6, 0),
            ceiling: (6, 0),
        }],
        answer: Err((16, 0, 0)),
    },
    Filing {
        lines: &[
            FiledLine {
                row: 1,
                floor: (6, 0),
                ceiling: (6, 0),
            },
            FiledLine {
                row: 3,
                floor: (30, 0),
                ceiling: (30, 0),
            },
            FiledLine {
                row: 3,
                floor: (30, 0),
                ceiling: (30, 0),
            },
        ],
        answer: Err((16, 0, 0)),
    },
    Filing {
        lines: &[],
        answer: Err((16, 0, 0)),
    },
    // Their number comes before everything else.
    Filing {
        lines: &[FiledLine {
            row: 0,
            floor: (10_000_000_001, 0),
            ceiling: (5, 0),
        }],
        answer: Err((16, 0, 0)),
    },
    // Floors and ceilings.
    Filing {
        lines: &[
            FiledLine {
                row: 1,
                floor: (6, 0),
                ceiling: (6, 0),
            },
            FiledLine {
                row: 3,
                floor: (31, 0),
                ceiling: (30, 0),
            },
        ],
        answer: Err((10, 2, 3)),
    },
    Filing {
        lines: &[
            FiledLine {
                row: 1,
                floor: (7, 0),
                ceiling: (6, 0),
            },
            FiledLine {
                row: 3,
                floor: (30, 0),
                ceiling: (30, 0),
            },
        ],
        answer: Err((10, 1, 1)),
    },
    Filing {
        lines: &[
            FiledLine {
                row: 1,
                floor: (0, 0),
                ceiling: (5, 0),
            },
            FiledLine {
                row: 3,
                floor: (0, 0),
                ceiling: (30, 0),
            },
        ],
        answer: Err((11, 1, 1)),
    },
    Filing {
        lines: &[
            FiledLine {
                row: 1,
                floor: (0, 0),
                ceiling: (6, 0),
            },
            FiledLine {
                row: 3,
                floor: (0, 0),
                ceiling: (29, 0),
            },
        ],
        answer: Err((11, 2, 3)),
    },
    Filing {
        lines: &[
            FiledLine {
                row: 1,
                floor: (6, 0),
                ceiling: (6, 0),
            },
            FiledLine {
                row: 2,
                floor: (30, 0),
                ceiling: (30, 0),
            },
        ],
        answer: Err((11, 2, 2)),
    },
    // A floor of a later grade comes before a ceiling.
    Filing {
        lines: &[
            FiledLine {
                row: 1,
                floor: (6, 0),
                ceiling: (5, 0),
            },
            FiledLine {
                row: 3,
                floor: (31, 0),
                ceiling: (30, 0),
            },
        ],
        answer: Err((10, 2, 3)),
    },
    // Plan rows that are not of their grade.
    Filing {
        lines: &[
            FiledLine {
                row: 1,
                floor: (6, 0),
                ceiling: (6, 0),
            },
            FiledLine {
                row: 1,
                floor: (30, 0),
                ceiling: (30, 0),
            },
        ],
        answer: Err((9, 2, 1)),
    },
    Filing {
        lines: &[
            FiledLine {
                row: 2,
                floor: (6, 0),
                ceiling: (6, 0),
            },
            FiledLine {
                row: 3,
                floor: (30, 0),
                ceiling: (30, 0),
            },
        ],
        answer: Err((9, 1, 2)),
    },
    Filing {
        lines: &[
            FiledLine {
                row: 1,
                floor: (6, 0),
                ceiling: (6, 0),
            },
            FiledLine {
                row: 0,
                floor: (30, 0),
                ceiling: (30, 0),
            },
        ],
        answer: Err((9, 2, 0)),
    },
    Filing {
        lines: &[
            FiledLine {
                row: 1,
                floor: (6, 0),
                ceiling: (6, 0),
            },
            FiledLine {
                row: 4,
                floor: (30, 0),
                ceiling: (30, 0),
            },
        ],
        answer: Err((9, 2, 4)),
    },
    Filing {
        lines: &[
            FiledLine {
                row: 0,
                floor: (6, 0),
                ceiling: (6, 0),
            },
            FiledLine {
                row: 3,
                floor: (30, 0),
                ceiling: (30, 0),
            },
        ],
        answer: Err((9, 1, 0)),
    },
    Filing {
        lines: &[
            FiledLine {
                row: 4,
                floor: (6, 0),
                ceiling: (6, 0),
            },
            FiledLine {
                row: 3,
                floor: (30, 0),
                ceiling: (30, 0),
            },
        ],
        answer: Err((9, 1, 4)),
    },
    // Parts beyond their range, in each place of both grades.
    Filing {
        lines: &[
            FiledLine {
                row: 1,
                floor: (10_000_000_001, 0),
                ceiling: (6, 0),
            },
            FiledLine {
                row: 3,
                floor: (30, 0),
                ceiling: (30, 0),
            },
        ],
        answer: Err((17, 1, 0)),
    },
    Filing {
        lines: &[
            FiledLine {
                row: 1,
                floor: (6, 10_000_000_001),
                ceiling: (6, 0),
            },
            FiledLine {
                row: 3,
                floor: (30, 0),
                ceiling: (30, 0),
            },
        ],
        answer: Err((17, 1, 0)),
    },
    Filing {
        lines: &[
            FiledLine {
                row: 1,
                floor: (6, 0),
                ceiling: (10_000_000_001, 0),
            },
            FiledLine {
                row: 3,
                floor: (30, 0),
                ceiling: (30, 0),
            },
        ],
        answer: Err((17, 1, 0)),
    },
    Filing {
        lines: &[
            FiledLine {
                row: 1,
                floor: (6, 0),
                ceiling: (6, 10_000_000_001),
            },
            FiledLine {
                row: 3,
                floor: (30, 0),
                ceiling: (30, 0),
            },
        ],
        answer: Err((17, 1, 0)),
    },
    Filing {
        lines: &[
            FiledLine {
                row: 1,
                floor: (-10_000_000_001, 0),
                ceiling: (6, 0),
            },
            FiledLine {
                row: 3,
                floor: (30, 0),
                ceiling: (30, 0),
            },
        ],
        answer: Err((17, 1, 0)),
    },
    Filing {
        lines: &[
            FiledLine {
                row: 1,
                floor: (6, -10_000_000_001),
                ceiling: (6, 0),
            },
            FiledLine {
                row: 3,
                floor: (30, 0),
                ceiling: (30, 0),
            },
        ],
        answer: Err((17, 1, 0)),
    },
    Filing {
        lines: &[
            FiledLine {
                row: 1,
                floor: (6, 0),
                ceiling: (-10_000_000_001, 0),
            },
            FiledLine {
                row: 3,
                floor: (30, 0),
                ceiling: (30, 0),
            },
        ],
        answer: Err((17, 1, 0)),
    },
    Filing {
        lines: &[
            FiledLine {
                row: 1,
                floor: (6, 0),
                ceiling: (6, -10_000_000_001),
            },
            FiledLine {
                row: 3,
                floor: (30, 0),
                ceiling: (30, 0),
            },
        ],
        answer: Err((17, 1, 0)),
    },
    Filing {
        lines: &[
            FiledLine {
                row: 1,
                floor: (6, 0),
                ceiling: (6, 0),
            },
            FiledLine {
                row: 3,
                floor: (10_000_000_001, 0),
                ceiling: (30, 0),
            },
        ],
        answer: Err((17, 2, 0)),
    },
    Filing {
        lines: &[
            FiledLine {
                row: 1,
                floor: (6, 0),
                ceiling: (6, 0),
            },
            FiledLine {
                row: 3,
                floor: (30, -10_000_000_001),
                ceiling: (30, 0),
            },
        ],
        answer: Err((17, 2, 0)),
    },
    Filing {
        lines: &[
            FiledLine {
                row: 1,
                floor: (6, 0),
                ceiling: (6, 0),
            },
            FiledLine {
                row: 3,
                floor: (30, 0),
                ceiling: (-10_000_000_001, 0),
            },
        ],
        answer: Err((17, 2, 0)),
    },
    Filing {
        lines: &[
            FiledLine {
                row: 1,
                floor: (6, 0),
                ceiling: (6, 0),
            },
            FiledLine {
                row: 3,
                floor: (30, 0),
                ceiling: (30, 10_000_000_001),
            },
        ],
        answer: Err((17, 2, 0)),
    },
    // A plan row of a later grade comes before them, and they come before a floor.
    Filing {
        lines: &[
            FiledLine {
                row: 1,
                floor: (10_000_000_001, 0),
                ceiling: (6, 0),
            },
            FiledLine {
                row: 1,
                floor: (30, 0),
                ceiling: (30, 0),
            },
        ],
        answer: Err((9, 2, 1)),
    },
    Filing {
        lines: &[
            FiledLine {
                row: 1,
                floor: (7, 0),
                ceiling: (6, 0),
            },
            FiledLine {
                row: 3,
                floor: (30, 0),
                ceiling: (10_000_000_001, 0),
            },
        ],
        answer: Err((17, 2, 0)),
    },
    // Parts at the ends of their range are no fault of range.
    Filing {
        lines: &[
            FiledLine {
                row: 1,
                floor: (-10_000_000_000, 10_000_000_000),
                ceiling: (10_000_000_000, -10_000_000_000),
            },
            FiledLine {
                row: 3,
                floor: (-10_000_000_000, 10_000_000_000),
                ceiling: (10_000_000_000, -10_000_000_000),
            },
        ],
        answer: Ok(&[
            FiledLine {
                row: 1,
                floor: (0, 0),
                ceiling: (54, 0),
            },
            FiledLine {
                row: 2,
                floor: (0, 0),
                ceiling: (54, 0),
            },
        ]),
    },
    Filing {
        lines: &[
            FiledLine {
                row: 1,
                floor: (10_000_000_000, -10_000_000_000),
                ceiling: (10_000_000_000, -10_000_000_000),
            },
            FiledLine {
                row: 3,
                floor: (10_000_000_000, -10_000_000_000),
                ceiling: (10_000_000_000, -10_000_000_000),
            },
        ],
        answer: Err((10, 1, 1)),
    },
    Filing {
        lines: &[
            FiledLine {
                row: 1,
                floor: (-10_000_000_000, -10_000_000_000),
                ceiling: (-10_000_000_000, 10_000_000_000),
            },
            FiledLine {
                row: 3,
                floor: (-10_000_000_000, -10_000_000_000),
                ceiling: (-10_000_000_000, 10_000_000_000),
            },
        ],
        answer: Err((11, 1, 1)),
    },
    // Ties: the standing row stays, and the standing minutes.
    Filing {
        lines: &[
            FiledLine {
                row: 1,
                floor: (0, 7),
                ceiling: (54, -7),
            },
            FiledLine {
                row: 3,
                floor: (0, -7),
                ceiling: (54, 7),
            },
        ],
        answer: Ok(&[
            FiledLine {
                row: 1,
                floor: (0, 0),
                ceiling: (54, 0),
            },
            FiledLine {
                row: 2,
                floor: (0, 0),
                ceiling: (54, 0),
            },
        ]),
    },
    // A tie in one grade only.
    Filing {
        lines: &[
            FiledLine {
                row: 1,
                floor: (0, 0),
                ceiling: (53, 0),
            },
            FiledLine {
                row: 3,
                floor: (0, 0),
                ceiling: (54, 0),
            },
        ],
        answer: Ok(&[
            FiledLine {
                row: 1,
                floor: (0, 0),
                ceiling: (53, 0),
            },
            FiledLine {
                row: 2,
                floor: (0, 0),
                ceiling: (54, 0),
            },
        ]),
    },
    // A cheaper ceiling comes with its row.
    Filing {
        lines: &[
            FiledLine {
                row: 1,
                floor: (0, 0),
                ceiling: (52, 0),
            },
            FiledLine {
                row: 3,
                floor: (20, 0),
                ceiling: (53, 0),
            },
        ],
        answer: Ok(&[
            FiledLine {
                row: 1,
                floor: (0, 0),
                ceiling: (52, 0),
            },
            FiledLine {
                row: 3,
                floor: (20, 0),
                ceiling: (53, 0),
            },
        ]),
    },
    // Worse figures change nothing.
    Filing {
        lines: &[
            FiledLine {
                row: 1,
                floor: (-1, 0),
                ceiling: (60, 0),
            },
            FiledLine {
                row: 3,
                floor: (-1, 0),
                ceiling: (60, 0),
            },
        ],
        answer: Ok(&[
            FiledLine {
                row: 1,
                floor: (0, 0),
                ceiling: (54, 0),
            },
            FiledLine {
                row: 2,
                floor: (0, 0),
                ceiling: (54, 0),
            },
        ]),
    },
];
