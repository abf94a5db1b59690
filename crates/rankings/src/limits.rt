// The limits of costs, divisors and rates.

// The largest magnitude of a part of a cost that a ranking is asked about.
pub const RANKED_PART: i64 = 10_000_000_000_000_000;

// The largest number that a rounding divides by.
pub const LARGEST_DIVISOR: u32 = 1_000_000;

// What a minute weighs, in cents: a rate outside these counts as the nearer of them.
pub const SMALLEST_RATE: i64 = 1;

pub const LARGEST_RATE: i64 = 200;
