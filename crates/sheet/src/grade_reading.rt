ghost use Rattle.std.specs.Prelude.{◌<◌};
ghost use Rattle.lines.specs.Lines.{grade_of};
ghost use Rattle.sheet.specs.Due.{grade};
ghost use Rattle.sheet.specs.Halts.{counts_of};
ghost use Rattle.sheet.specs.Read.{RangedOf, grade_said};

use crate::group::{Due, Group};
use crate::header::Header;
use crate::ranges::count;
use lines::{GradeLine, Line, TextFault};

/// The grades. Of a line its first row is kept.
pub(crate) struct Grades;

/// The first row that the line of the grade `i + 1` says, where its numbers are in range.
fn grade_of(line: &GradeLine<'_>, due: &Due<'_>) -> Option<usize>
    ensures { RangedOf (counts_of due.now.header.now) (grade due.now.i) (grade_said line.now.label.now due.now.i) (grade_of line.now) result }
{
    if line.number != due.number() {
        return None;
    }
    count(line.first_row, 1, due.header.rows)
}

impl Group for Grades {
    type Kept = usize;

    const EMPTY: usize = 0;

    ghost EMPTY = { 0 };

    ghost count = { λ c. c.grades };

    ghost slot = { grade };

    ghost said = { grade_said };

    fn count(header: &Header) -> usize {
        header.grades
    }

    fn keep(text: &Line<'_>, due: &Due<'_>) -> Result<usize, TextFault> {
        let Line::Grade(grade) = text else {
            return Err(due.missing());
        };
        grade_of(grade, due).ok_or(due.wrong())
    }
}
