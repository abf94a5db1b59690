ghost use Rattle.std.specs.Prelude.{◌≡◌, length};

use crate::column::Column;
use crate::limits::MAX_GRADES;

/// For each grade its plan row, its floor (lower bound of what every policy costs) and its ceiling (upper bound of what
/// the plan costs).
// Three columns, not one array of lines: X is reckoned over one column, so a line would be taken apart at each use.
#[derive(Clone, Copy)]
pub struct Figures {
    pub row: [usize; MAX_GRADES],
    pub floor: Column,
    pub ceiling: Column,
    ghost long: { length row ≡ 32 },
}
