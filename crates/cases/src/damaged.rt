//! Changes to the shop of two grades, and the lines that refuse them: `no`, number, layer and both places.

use crate::edit::Edit;

/// Lines that have not the form due there.
pub(crate) const FORM: [Edit; 27] = [
    // The last line.
    Edit {
        old: b"end\n",
        new: b"",
        answer: b"no 2 1 11 0\n",
    },
    Edit {
        old: b"end\n",
        new: b"end",
        answer: b"no 2 1 11 0\n",
    },
    Edit {
        old: b"end\n",
        new: b"end\r\n",
        answer: b"no 2 1 11 0\n",
    },
    Edit {
        old: b"end\n",
        new: b"end\nend\n",
        answer: b"no 2 1 12 0\n",
    },
    Edit {
        old: b"end\n",
        new: b"end\n\n",
        answer: b"no 2 1 12 0\n",
    },
    Edit {
        old: b"end\n",
        new: b"end\nx",
        answer: b"no 2 1 12 0\n",
    },
    // Blanks and line ends.
    Edit {
        old: b"drift\n",
        new: b"drift\r\n",
        answer: b"no 2 1 3 0\n",
    },
    Edit {
        old: b"t 2 0",
        new: b"t 2  0",
        answer: b"no 2 1 8 0\n",
    },
    Edit {
        old: b"t 2 0 2 1",
        new: b"t 2 0 2 1 ",
        answer: b"no 2 1 8 0\n",
    },
    Edit {
        old: b"sheet",
        new: b"Sheet",
        answer: b"no 2 1 1 0\n",
    },
    // Numbers.
    Edit {
        old: b"r 1 0 0",
        new: b"r 1 0 -0",
        answer: b"no 2 1 4 0\n",
    },
    Edit {
        old: b"r 1 0 0",
        new: b"r 1 0 00",
        answer: b"no 2 1 4 0\n",
    },
    Edit {
        old: b"r 3 0 27",
        new: b"r 3 0 027",
        answer: b"no 2 1 6 0\n",
    },
    Edit {
        old: b"r 3 0 27",
        new: b"r 3 0 -027",
        answer: b"no 2 1 6 0\n",
    },
    Edit {
        old: b"r 3 0 27",
        new: b"r 3 0 100000000000",
        answer: b"no 2 1 6 0\n",
    },
    Edit {
        old: b"r 3 0 27",
        new: b"r 3 0 +27",
        answer: b"no 2 1 6 0\n",
    },
    // Labels.
    Edit {
        old: b"tidy",
        new: b"abcdefghijklmnopqrstuvwxy",
        answer: b"no 2 1 2 0\n",
    },
    Edit {
        old: b"tidy",
        new: b"",
        answer: b"no 2 1 2 0\n",
    },
    Edit {
        old: b"count",
        new: b"abcdefghijklmnopqrstuvwxy",
        answer: b"no 2 1 6 0\n",
    },
    Edit {
        old: b"count",
        new: b"",
        answer: b"no 2 1 6 0\n",
    },
    Edit {
        old: b"tidy",
        new: b"ti dy",
        answer: b"no 2 1 2 0\n",
    },
    Edit {
        old: b"tidy",
        new: b"ti\x7fdy",
        answer: b"no 2 1 2 0\n",
    },
    Edit {
        old: b"tidy",
        new: b"ti\xffdy",
        answer: b"no 2 1 2 0\n",
    },
    // Missing lines, and figures announced but not there.
    Edit {
        old: b"g 2 2 drift\n",
        new: b"",
        answer: b"no 2 1 3 0\n",
    },
    Edit {
        old: b"t 4 0 1 4\n",
        new: b"",
        answer: b"no 2 1 10 0\n",
    },
    Edit {
        old: b"1 2 1 0\n",
        new: b"1 2 1 2\n",
        answer: b"no 2 1 11 0\n",
    },
    // Of a fault of form and a number out of range in one line, the form counts.
    Edit {
        old: b"r 2 3 20 0",
        new: b"r 2 4 20 -0",
        answer: b"no 2 1 5 0\n",
    },
];

/// Numbers outside of their ranges or out of order.
pub(crate) const RANGE: [Edit; 33] = [
    // The first line: each of its numbers beyond an end of its range.
    Edit {
        old: b"sheet 2 3 4 4 1 2 1 0",
        new: b"sheet 33 3 4 4 1 2 1 0",
        answer: b"no 3 1 1 0\n",
    },
    Edit {
        old: b"sheet 2",
        new: b"sheet 0",
        answer: b"no 3 1 1 0\n",
    },
    Edit {
        old: b"sheet 2 3 4 4 1 2 1 0",
        new: b"sheet 2 97 4 4 1 2 1 0",
        answer: b"no 3 1 1 0\n",
    },
    Edit {
        old: b"sheet 2 3 4 4 1 2 1 0",
        new: b"sheet 2 3 513 4 1 2 1 0",
        answer: b"no 3 1 1 0\n",
    },
    Edit {
        old: b"sheet 2 3 4 4 1 2 1 0",
        new: b"sheet 2 3 4 1001 1 2 1 0",
        answer: b"no 3 1 1 0\n",
    },
    Edit {
        old: b"sheet 2 3 4 4 1 2 1 0",
        new: b"sheet 2 0 4 4 1 2 1 0",
        answer: b"no 3 1 1 0\n",
    },
    Edit {
        old: b"sheet 2 3 4 4 1 2 1 0",
        new: b"sheet 2 3 0 4 1 2 1 0",
        answer: b"no 3 1 1 0\n",
    },
    Edit {
        old: b"sheet 2 3 4 4 1 2 1 0",
        new: b"sheet 2 3 4 0 1 2 1 0",
        answer: b"no 3 1 1 0\n",
    },
    Edit {
        old: b"sheet 2 3 4 4 1 2 1 0",
        new: b"sheet 2 3 4 4 1 1001 1 0",
        answer: b"no 3 1 1 0\n",
    },
    Edit {
        old: b"sheet 2 3 4 4 1 2 1 0",
        new: b"sheet 2 3 4 4 0 0 1 0",
        answer: b"no 3 1 1 0\n",
    },
    Edit {
        old: b"sheet 2 3 4 4 1 2 1 0",
        new: b"sheet 2 3 4 4 -1 2 1 0",
        answer: b"no 3 1 1 0\n",
    },
    Edit {
        old: b"sheet 2 3 4 4 1 2 1 0",
        new: b"sheet 2 3 4 4 2 2 1 0",
        answer: b"no 3 1 1 0\n",
    },
    Edit {
        old: b"sheet 2 3 4 4 1 2 1 0",
        new: b"sheet 2 3 4 4 1 2 101 0",
        answer: b"no 3 1 1 0\n",
    },
    Edit {
        old: b"sheet 2 3 4 4 1 2 1 0",
        new: b"sheet 2 3 4 4 1 2 0 0",
        answer: b"no 3 1 1 0\n",
    },
    // Figures for some grades only.
    Edit {
        old: b"sheet 2 3 4 4 1 2 1 0",
        new: b"sheet 2 3 4 4 1 2 1 1",
        answer: b"no 3 1 1 0\n",
    },
    Edit {
        old: b"sheet 2 3 4 4 1 2 1 0",
        new: b"sheet 2 3 4 4 1 2 1 3",
        answer: b"no 3 1 1 0\n",
    },
    // Lines out of order.
    Edit {
        old: b"g 2 2",
        new: b"g 1 2",
        answer: b"no 3 1 3 0\n",
    },
    Edit {
        old: b"r 2 3 20",
        new: b"r 3 3 20",
        answer: b"no 3 1 5 0\n",
    },
    Edit {
        old: b"r 2 3 20 0 3 leave\n",
        new: b"",
        answer: b"no 3 1 5 0\n",
    },
    Edit {
        old: b"t 2 0 2 1",
        new: b"t 3 0 2 1",
        answer: b"no 3 1 8 0\n",
    },
    // Indices, costs and weights.
    Edit {
        old: b"g 2 2",
        new: b"g 2 0",
        answer: b"no 3 1 3 0\n",
    },
    Edit {
        old: b"g 2 2",
        new: b"g 2 4",
        answer: b"no 3 1 3 0\n",
    },
    Edit {
        old: b"r 2 3 20",
        new: b"r 2 4 20",
        answer: b"no 3 1 5 0\n",
    },
    Edit {
        old: b"r 2 3 20",
        new: b"r 2 3 100001",
        answer: b"no 3 1 5 0\n",
    },
    Edit {
        old: b"r 2 3 20 0",
        new: b"r 2 3 20 -100001",
        answer: b"no 3 1 5 0\n",
    },
    Edit {
        old: b"r 3 0 27",
        new: b"r 3 0 99999999999",
        answer: b"no 3 1 6 0\n",
    },
    Edit {
        old: b"r 3 0 27 0 4",
        new: b"r 3 0 27 0 0",
        answer: b"no 3 1 6 0\n",
    },
    Edit {
        old: b"r 3 0 27 0 4",
        new: b"r 3 0 27 0 5",
        answer: b"no 3 1 6 0\n",
    },
    Edit {
        old: b"t 2 0 2 1",
        new: b"t 2 5 2 1",
        answer: b"no 3 1 8 0\n",
    },
    Edit {
        old: b"t 2 0 2 1",
        new: b"t 2 0 0 1",
        answer: b"no 3 1 8 0\n",
    },
    Edit {
        old: b"t 2 0 2 1",
        new: b"t 2 0 3 1",
        answer: b"no 3 1 8 0\n",
    },
    Edit {
        old: b"t 2 0 2 1",
        new: b"t 2 0 2 0",
        answer: b"no 3 1 8 0\n",
    },
    Edit {
        old: b"t 2 0 2 1",
        new: b"t 2 0 2 5",
        answer: b"no 3 1 8 0\n",
    },
];

/// Tables that are not sound.
pub(crate) const TABLE: [Edit; 11] = [
    // Rows that two indices point to, or none; the lowest such row counts.
    Edit {
        old: b"r 1 0 0 0 1",
        new: b"r 1 2 0 0 1",
        answer: b"no 4 2 2 0\n",
    },
    Edit {
        old: b"r 2 3 20",
        new: b"r 2 0 20",
        answer: b"no 4 2 3 0\n",
    },
    Edit {
        old: b"g 1 1",
        new: b"g 1 2",
        answer: b"no 4 2 1 0\n",
    },
    // Arcs that two indices point to, or none.
    Edit {
        old: b"t 2 0 2 1",
        new: b"t 2 3 2 1",
        answer: b"no 6 2 3 0\n",
    },
    Edit {
        old: b"t 1 2 1 3",
        new: b"t 1 0 1 3",
        answer: b"no 6 2 2 0\n",
    },
    Edit {
        old: b"r 3 0 27 0 4",
        new: b"r 3 0 27 0 3",
        answer: b"no 6 2 3 0\n",
    },
    // Weights that miss the total.
    Edit {
        old: b"t 1 2 1 3",
        new: b"t 1 2 1 2",
        answer: b"no 8 2 1 0\n",
    },
    Edit {
        old: b"t 1 2 1 3",
        new: b"t 1 2 1 4",
        answer: b"no 8 2 1 0\n",
    },
    Edit {
        old: b"t 4 0 1 4",
        new: b"t 4 0 1 3",
        answer: b"no 8 2 3 0\n",
    },
    // A fault of an earlier number is found first, wherever it stands.
    Edit {
        old: b"g 2 2 drift",
        new: b"g 2 3 drift",
        answer: b"no 4 2 2 0\n",
    },
    Edit {
        old: b"r 3 0 27 0 4 count\nt 1 2 1 3",
        new: b"r 3 0 27 0 3 count\nt 1 2 1 2",
        answer: b"no 6 2 3 0\n",
    },
];

/// Changes to the shop with its exact costs as figures.
pub(crate) const FIGURES: [Edit; 15] = [
    // A plan row outside of its grade's chain.
    Edit {
        old: b"f 1 1 6",
        new: b"f 1 2 6",
        answer: b"no 9 3 1 2\n",
    },
    Edit {
        old: b"f 2 3 30",
        new: b"f 2 1 30",
        answer: b"no 9 3 2 1\n",
    },
    // Floors and ceilings; the first broken rule counts.
    Edit {
        old: b"f 2 3 30",
        new: b"f 2 3 31",
        answer: b"no 10 3 2 3\n",
    },
    Edit {
        old: b"f 1 1 6",
        new: b"f 1 1 7",
        answer: b"no 10 3 1 1\n",
    },
    Edit {
        old: b"f 1 1 6 0 6 0\nf 2 3 30",
        new: b"f 1 1 0 0 5 0\nf 2 3 0",
        answer: b"no 11 3 1 1\n",
    },
    Edit {
        old: b"f 2 3 30 0 30 0",
        new: b"f 2 3 30 0 29 0",
        answer: b"no 11 3 2 3\n",
    },
    // The lines of the figures themselves.
    Edit {
        old: b"f 2 3 30",
        new: b"f 1 3 30",
        answer: b"no 3 1 12 0\n",
    },
    Edit {
        old: b"f 2 3",
        new: b"f 2 0",
        answer: b"no 3 1 12 0\n",
    },
    Edit {
        old: b"f 2 3",
        new: b"f 2 4",
        answer: b"no 3 1 12 0\n",
    },
    Edit {
        old: b"30 0\nend",
        new: b"10000000001 0\nend",
        answer: b"no 3 1 12 0\n",
    },
    Edit {
        old: b"30 0\nend",
        new: b"30 -10000000001\nend",
        answer: b"no 3 1 12 0\n",
    },
    Edit {
        old: b"f 1 1 6 0",
        new: b"f 1 1 -10000000001 0",
        answer: b"no 3 1 11 0\n",
    },
    Edit {
        old: b"f 1 1 6 0",
        new: b"f 1 1 6 10000000001",
        answer: b"no 3 1 11 0\n",
    },
    Edit {
        old: b"f 2 3 30 0 30 0\n",
        new: b"",
        answer: b"no 2 1 12 0\n",
    },
    Edit {
        old: b"end",
        new: b"f 3 3 30 0 30 0\nend",
        answer: b"no 2 1 13 0\n",
    },
];

/// Changes to the ends of ranges, which are no faults, with the beginning of what a recount prints.
pub(crate) const WITHIN: [Edit; 5] = [
    Edit {
        old: b"sheet 2 3 4 4 1 2 1 0",
        new: b"sheet 2 3 4 4 1 1000 1 0",
        answer: b"sheet 2 3 4 4 1 1000 1 2\n",
    },
    Edit {
        old: b"sheet 2 3 4 4 1 2 1 0",
        new: b"sheet 2 3 4 4 999 1000 100 0",
        answer: b"sheet 2 3 4 4 999 1000 100 2\n",
    },
    Edit {
        old: b"sheet 2 3 4 4 1 2 1 0",
        new: b"sheet 2 3 4 4 0 1 1 0",
        answer: b"sheet 2 3 4 4 0 1 1 2\n",
    },
    Edit {
        old: b"tidy",
        new: b"abcdefghijklmnopqrstuvwx",
        answer: b"sheet 2 3 4 4 1 2 1 2\ng 1 1 abcdefghijklmnopqrstuvwx\n",
    },
    Edit {
        old: b"r 3 0 27 0",
        new: b"r 3 0 -100000 100000",
        answer: b"sheet 2 3 4 4 1 2 1 2\ng 1 1 tidy\ng 2 2 drift\nr 1 0 0 0 1 leave\nr 2 3 20 0 3 leave\nr 3 0 -100000 100000 4 count\n",
    },
];

/// A grade with three rows of which two point at each other: each row is pointed at once, but rows 2 and 3 hang loose.
pub(crate) const LOOSE_ROWS: &[u8] = b"\
sheet 1 3 3 1 1 2 1 0\n\
g 1 1 only\n\
r 1 0 0 0 1 first\n\
r 2 3 0 0 2 second\n\
r 3 2 0 0 3 third\n\
t 1 0 1 1\n\
t 2 0 1 1\n\
t 3 0 1 1\n\
end\n\
";

/// A row with three arcs of which two point at each other.
pub(crate) const LOOSE_ARCS: &[u8] = b"\
sheet 1 1 3 1 1 2 1 0\n\
g 1 1 only\n\
r 1 0 0 0 1 first\n\
t 1 0 1 1\n\
t 2 3 1 1\n\
t 3 2 1 1\n\
end\n\
";
