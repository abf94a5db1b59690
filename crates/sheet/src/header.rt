ghost use Rattle.std.specs.Prelude.{◌<◌};
ghost use Rattle.table.specs.Ranges.{Within};

/// What a sheet's first line says of the rest, all of its numbers in range.
// Seven of the fields are the table's too, and public there: every definition names them, so a struct of the seven
// would only add a name before each.
#[derive(Clone, Copy)]
pub struct Header {
    pub grades: usize,
    pub rows: usize,
    pub arcs: usize,
    pub total: u32,
    pub numerator: u32,
    pub denominator: u32,
    pub fineness: u32,
    /// Whether a figure line for each grade follows.
    // A flag with no value beside it: the figures are read later.
    pub figured: bool,
    ghost graded: { Within 1 32 grades },
    ghost rowed: { Within 1 96 rows },
    ghost arced: { Within 1 512 arcs },
    ghost weighed: { Within 1 1000 total },
    ghost discounted: { Within 1 1000 denominator },
    ghost shrinking: { numerator < denominator },
    ghost fine: { Within 1 100 fineness },
}
