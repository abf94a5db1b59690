/// The most sweeps that one call runs.
pub const MAX_SWEEPS: usize = 1_000;

/// How many sweeps `recount` asks for.
pub const RECOUNT_SWEEPS: usize = 200;
