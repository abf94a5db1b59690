ghost use Rattle.std.specs.Prelude.{◌<◌, ◌≤◌, [], length, drop, Ok, Err};
ghost use Rattle.table.specs.Filing.{no_line};
ghost use Rattle.lines.specs.Lines.{figure_of};
ghost use Rattle.sheet.specs.Due.{figure as figure_due};
ghost use Rattle.sheet.specs.Halts.{counts_of, Halted};
ghost use Rattle.sheet.specs.Read.{RangedOf, figure_said, FigurePartRead};

use crate::group::{Due, Group, read_group};
use crate::header::Header;
use crate::ranges::{cost, count};
use crate::table_lines::figure_count;
use lines::{FigureLine, Line, TextFault};
use table::{Column, Figures, FiledLine, MAX_FIGURE_PART, MAX_GRADES};

/// The figures of the grades.
struct FigureLines;

/// The figures that the line of the grade `i + 1` says, where its numbers are in range.
fn figure_of(line: &FigureLine, due: &Due<'_>) -> Option<FiledLine>
    ensures { RangedOf (counts_of due.now.header.now) (figure_due due.now.i) (figure_said [] due.now.i) (figure_of line.now) result }
{
    if line.grade != due.number() {
        return None;
    }
    let row = count(line.row, 1, due.header.rows)?;
    let floor = cost(line.floor_first, line.floor_second, MAX_FIGURE_PART)?;
    let ceiling = cost(line.ceiling_first, line.ceiling_second, MAX_FIGURE_PART)?;
    Some(FiledLine {
        row,
        floor,
        ceiling,
    })
}

impl Group for FigureLines {
    type Kept = FiledLine;

    const EMPTY: FiledLine = FiledLine {
        row: 0,
        floor: (0, 0),
        ceiling: (0, 0),
    };

    ghost EMPTY = { no_line };

    ghost count = { λ c. c.figures };

    ghost slot = { figure_due };

    ghost said = { figure_said };

    fn count(header: &Header) -> usize {
        figure_count(header.figured, header.grades)
    }

    fn keep(text: &Line<'_>, due: &Due<'_>) -> Result<FiledLine, TextFault> {
        let Line::Figure(figure) = text else {
            return Err(due.missing());
        };
        figure_of(figure, due).ok_or(due.wrong())
    }
}

/// The figure lines, from the place `at` on and the first of them the sheet's line `line`, where the header says that
/// there are any; and the place after them.
pub(crate) fn read_figures(
    sheet: &[u8],
    at: usize,
    line: usize,
    header: &Header,
) -> Result<(Option<Figures>, usize), TextFault>
    requires place { at ≤ length sheet.now }
    requires line { line < 1000 }
    ensures { elim result [ Ok p ↦ FigurePartRead header.now sheet.now at p.0 p.1 | Err e ↦ Halted (counts_of header.now) figure_due (counts_of header.now).figures line (drop at sheet.now) e ] }
{
    if !header.figured {
        return Ok((None, at));
    }
    let mut kept = [FigureLines::EMPTY; MAX_GRADES];
    let at = read_group::<FigureLines>(sheet, at, line, header, &mut kept, &mut [])?;
    let figures = Figures {
        row: kept.map(|figure| figure.row),
        floor: Column {
            at: kept.map(|figure| figure.floor),
        },
        ceiling: Column {
            at: kept.map(|figure| figure.ceiling),
        },
    };
    Ok((Some(figures), at))
}
