ghost use Rattle.std.specs.Prelude.{◌<◌};
ghost use Rattle.table.specs.Ranges.{row0};
ghost use Rattle.lines.specs.Lines.{row_of};
ghost use Rattle.sheet.specs.Due.{row as row_due};
ghost use Rattle.sheet.specs.Halts.{counts_of};
ghost use Rattle.sheet.specs.Read.{RangedOf, row_said};

use crate::group::{Due, Group};
use crate::header::Header;
use crate::ranges::{cost, count};
use lines::{Line, RowLine, TextFault};
use table::{MAX_COST_PART, Row};

/// The rows.
pub(crate) struct Rows;

/// The row that the line of the row `i + 1` says, where its numbers are in range.
fn row_of(line: &RowLine<'_>, due: &Due<'_>) -> Option<Row>
    ensures { RangedOf (counts_of due.now.header.now) (row_due due.now.i) (row_said line.now.label.now due.now.i) (row_of line.now) result }
{
    if line.number != due.number() {
        return None;
    }
    let next = count(line.next, 0, due.header.rows)?;
    let cost = cost(line.first_part, line.second_part, MAX_COST_PART)?;
    let first_arc = count(line.first_arc, 1, due.header.arcs)?;
    Some(Row {
        next,
        cost,
        first_arc,
    })
}

impl Group for Rows {
    type Kept = Row;

    const EMPTY: Row = Row {
        next: 0,
        cost: (0, 0),
        first_arc: 0,
    };

    ghost EMPTY = { row0 };

    ghost count = { λ c. c.rows };

    ghost slot = { row_due };

    ghost said = { row_said };

    fn count(header: &Header) -> usize {
        header.rows
    }

    fn keep(text: &Line<'_>, due: &Due<'_>) -> Result<Row, TextFault> {
        let Line::Row(row) = text else {
            return Err(due.missing());
        };
        row_of(row, due).ok_or(due.wrong())
    }
}
