ghost use Rattle.std.specs.Prelude.{◌≡◌, ◌<◌, length};
ghost use Rattle.table.specs.Ranges.{Within, FirstsIn, RowsIn, ArcsIn};

use crate::limits::{MAX_ARCS, MAX_GRADES, MAX_ROWS};
use crate::rows::{Arc, Row};

/// One shop's table (a finite Markov decision process), all of its numbers in range. Grades, rows and arcs are numbered
/// from 1, so that the row k is `row[k - 1]`; what lies beyond `grades`, `rows` and `arcs` is never read.
// Counts stand beside fixed arrays by a rule of the project: the library allocates nothing, and its limits are fixed.
#[derive(Clone, Copy)]
pub struct Table {
    /// How many grades (states), rows (actions) and arcs (transitions) there are.
    pub grades: usize,
    pub rows: usize,
    pub arcs: usize,
    /// What the weights of each row's arcs should sum to: D.
    pub total: u32,
    /// The discount a/b.
    pub numerator: u32,
    pub denominator: u32,
    /// A figure w stands for the cost w/q; this is q.
    pub fineness: u32,
    /// The first row of each grade.
    pub first_row: [usize; MAX_GRADES],
    pub row: [Row; MAX_ROWS],
    pub arc: [Arc; MAX_ARCS],
    ghost graded: { Within 1 32 grades },
    ghost rowed: { Within 1 96 rows },
    ghost arced: { Within 1 512 arcs },
    ghost weighed: { Within 1 1000 total },
    ghost discounted: { Within 1 1000 denominator },
    ghost shrinking: { numerator < denominator },
    ghost fine: { Within 1 100 fineness },
    ghost firsts: { FirstsIn grades rows first_row },
    ghost rowsin: { RowsIn rows arcs row },
    ghost arcsin: { ArcsIn grades arcs total arc },
    ghost firstlong: { length first_row ≡ 32 },
    ghost rowlong: { length row ≡ 96 },
    ghost arclong: { length arc ≡ 512 },
}
