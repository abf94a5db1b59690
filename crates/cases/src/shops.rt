//! The shops that the tests use.

use table::FiledLine;

/// The shop of two grades, without figures.
pub(crate) const TWO_GRADES: &[u8] = b"\
sheet 2 3 4 4 1 2 1 0\n\
g 1 1 tidy\n\
g 2 2 drift\n\
r 1 0 0 0 1 leave\n\
r 2 3 20 0 3 leave\n\
r 3 0 27 0 4 count\n\
t 1 2 1 3\n\
t 2 0 2 1\n\
t 3 0 2 4\n\
t 4 0 1 4\n\
end\n\
";

/// The shop of two grades as a recount leaves it.
pub(crate) const TWO_GRADES_RECOUNTED: &[u8] = b"\
sheet 2 3 4 4 1 2 1 2\n\
g 1 1 tidy\n\
g 2 2 drift\n\
r 1 0 0 0 1 leave\n\
r 2 3 20 0 3 leave\n\
r 3 0 27 0 4 count\n\
t 1 2 1 3\n\
t 2 0 2 1\n\
t 3 0 2 4\n\
t 4 0 1 4\n\
f 1 1 5 0 7 0\n\
f 2 3 29 0 31 0\n\
end\n\
";

/// The shop of two grades with its exact costs as floors and as ceilings.
pub(crate) const TWO_GRADES_EXACT: &[u8] = b"\
sheet 2 3 4 4 1 2 1 2\n\
g 1 1 tidy\n\
g 2 2 drift\n\
r 1 0 0 0 1 leave\n\
r 2 3 20 0 3 leave\n\
r 3 0 27 0 4 count\n\
t 1 2 1 3\n\
t 2 0 2 1\n\
t 3 0 2 4\n\
t 4 0 1 4\n\
f 1 1 6 0 6 0\n\
f 2 3 30 0 30 0\n\
end\n\
";

/// A machine in four conditions, from a textbook on Markov decision processes, with discount 9/10 and fineness 10.
pub(crate) const MACHINE: &[u8] = b"\
sheet 4 7 12 16 9 10 10 0\n\
g 1 1 new\n\
g 2 2 minor\n\
g 3 4 major\n\
g 4 7 broken\n\
r 1 0 0 0 1 leave\n\
r 2 3 1000 0 4 leave\n\
r 3 0 6000 0 7 replace\n\
r 4 5 3000 0 8 leave\n\
r 5 6 4000 0 10 overhaul\n\
r 6 0 6000 0 11 replace\n\
r 7 0 6000 0 12 replace\n\
t 1 2 2 14\n\
t 2 3 3 1\n\
t 3 0 4 1\n\
t 4 5 2 12\n\
t 5 6 3 2\n\
t 6 0 4 2\n\
t 7 0 1 16\n\
t 8 9 3 8\n\
t 9 0 4 8\n\
t 10 0 2 16\n\
t 11 0 1 16\n\
t 12 0 1 16\n\
end\n\
";

/// The machine as a recount leaves it.
pub(crate) const MACHINE_RECOUNTED: &[u8] = b"\
sheet 4 7 12 16 9 10 10 4\n\
g 1 1 new\n\
g 2 2 minor\n\
g 3 4 major\n\
g 4 7 broken\n\
r 1 0 0 0 1 leave\n\
r 2 3 1000 0 4 leave\n\
r 3 0 6000 0 7 replace\n\
r 4 5 3000 0 8 leave\n\
r 5 6 4000 0 10 overhaul\n\
r 6 0 6000 0 11 replace\n\
r 7 0 6000 0 12 replace\n\
t 1 2 2 14\n\
t 2 3 3 1\n\
t 3 0 4 1\n\
t 4 5 2 12\n\
t 5 6 3 2\n\
t 6 0 4 2\n\
t 7 0 1 16\n\
t 8 9 3 8\n\
t 9 0 4 8\n\
t 10 0 2 16\n\
t 11 0 1 16\n\
t 12 0 1 16\n\
f 1 1 149478 0 149494 0\n\
f 2 2 162609 0 162625 0\n\
f 3 5 186348 0 186363 0\n\
f 4 7 194530 0 194545 0\n\
end\n\
";

/// What is known of a condition under the best plan: its cost in whole coins, and the row that this plan names.
pub(crate) struct Known {
    pub(crate) coins: i32,
    pub(crate) row: usize,
}

/// The conditions of the machine: leave, leave, overhaul, replace.
pub(crate) const MACHINE_KNOWN: [Known; 4] = [
    Known {
        coins: 14_949,
        row: 1,
    },
    Known {
        coins: 16_262,
        row: 2,
    },
    Known {
        coins: 18_636,
        row: 5,
    },
    Known {
        coins: 19_454,
        row: 7,
    },
];

/// The last lines of the shop of two grades as it is opened, after one sweep and after two.
pub(crate) const TWO_GRADES_SWEPT: [&[u8]; 3] = [
    b"\nf 1 1 0 0 54 0\nf 2 2 0 0 54 0\nend\n",
    b"\nf 1 1 0 0 27 0\nf 2 2 20 0 47 0\nend\n",
    b"\nf 1 1 2 0 16 0\nf 2 3 27 0 41 0\nend\n",
];

/// What so many rounds of improvement come to.
pub(crate) struct Improved {
    pub(crate) rounds: u32,
    pub(crate) lines: &'static [FiledLine],
}

/// The figures of the shop of two grades after 1, 2 and 20 rounds of improvement, with money only.
pub(crate) static TWO_GRADES_IMPROVED: [Improved; 3] = [
    Improved {
        rounds: 1,
        lines: &[
            FiledLine {
                row: 1,
                floor: (0, 0),
                ceiling: (27, 0),
            },
            FiledLine {
                row: 3,
                floor: (0, 0),
                ceiling: (47, 0),
            },
        ],
    },
    Improved {
        rounds: 2,
        lines: &[
            FiledLine {
                row: 1,
                floor: (0, 0),
                ceiling: (16, 0),
            },
            FiledLine {
                row: 3,
                floor: (0, 0),
                ceiling: (41, 0),
            },
        ],
    },
    Improved {
        rounds: 20,
        lines: &[
            FiledLine {
                row: 1,
                floor: (0, 0),
                ceiling: (7, 0),
            },
            FiledLine {
                row: 3,
                floor: (0, 0),
                ceiling: (31, 0),
            },
        ],
    },
];

/// One grade with two rows that cost the same money and not the same minutes; the discount is 0.
pub(crate) static ONE_GRADE: &[u8] = b"\
sheet 1 2 2 1 0 1 1 0\n\
g 1 1 only\n\
r 1 2 10 5 1 slow\n\
r 2 0 10 3 2 quick\n\
t 1 0 1 1\n\
t 2 0 1 1\n\
end\n\
";
