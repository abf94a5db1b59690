/// How many grades, rows and arcs a table may have; each has at least one.
pub const MAX_GRADES: usize = 32;

pub const MAX_ROWS: usize = 96;

pub const MAX_ARCS: usize = 512;

/// The largest weight total, discount denominator and fineness; each is at least one.
pub const MAX_TOTAL: u32 = 1_000;

pub const MAX_DENOMINATOR: u32 = 1_000;

pub const MAX_FINENESS: u32 = 100;

/// How far from 0 each part of a row's cost, and of a figure, may lie.
pub const MAX_COST_PART: i64 = 100_000;

pub const MAX_FIGURE_PART: i64 = 10_000_000_000;
