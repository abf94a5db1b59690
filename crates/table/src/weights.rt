ghost use Rattle.std.specs.Prelude.{◌≡◌};
ghost use Rattle.table.specs.Ranges.{Within};
ghost use Rattle.table.specs.Chains.{arcs_of, weights};
ghost use Rattle.table.specs.Faults.{lowest, unbalanced};

use crate::table::Table;

/// What the arcs of the row k weigh together.
fn row_weight(table: &Table, k: usize) -> u32
    requires { Within 1 table.now.rows k }
    ensures { result ≡ weights table.now (arcs_of table.now k) }
{
    table.arcs_of(k).map(|x| table.arc[x - 1].weight).sum()
}

/// The lowest row whose weights do not sum to the total.
pub(crate) fn unbalanced_row(table: &Table) -> Option<usize>
    ensures { result ≡ lowest (unbalanced table.now) table.now.rows }
{
    (1..=table.rows).find(|k| row_weight(table, *k) != table.total)
}
