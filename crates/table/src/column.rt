ghost use Rattle.std.specs.Prelude.{◌≡◌, length};
ghost use Rattle.table.specs.Ranges.{FiguresIn};

use crate::limits::MAX_GRADES;

/// A figure for each grade, floors or ceilings, each of its parts in range. The grade g has `at[g - 1]`; what lies
/// beyond the table's grades is never read.
#[derive(Clone, Copy)]
pub struct Column {
    pub at: [(i64, i64); MAX_GRADES],
    ghost within: { FiguresIn at },
    ghost long: { length at ≡ 32 },
}
