//! The lines that say what a table, its figures and its labels say.
//!
//! `as` loses nothing here, as the check proves; no `From` joins these types, and `try_from` would add a refusal that
//! never comes.

ghost use Rattle.std.specs.Prelude.{◌≡◌, ◌<◌, ◌≤◌, length, slice_index, cond};
ghost use Rattle.lines.specs.Lines.{entry_of};
ghost use Rattle.sheet.specs.Render.{part_of, header_entry, grade_entry, row_entry, arc_entry, figure_entry};
ghost use Rattle.sheet.specs.Spans.{SpanIn};

use crate::labels::Span;
use lines::{ArcLine, FigureLine, GradeLine, HeaderLine, Line, RowLine};
use table::{Figures, Table};

/// The label that lies there.
pub(crate) fn part(sheet: &[u8], span: Span) -> &[u8]
    requires { SpanIn (length sheet.now) span }
    ensures { result.now ≡ part_of sheet.now span }
{
    let Span { start, end } = span;
    &sheet[start..end]
}

/// The first line, with the number of figure lines.
pub(crate) fn header_line(table: &Table, figures: usize) -> Line<'static>
    requires { figures ≤ 32 }
    ensures { entry_of result ≡ header_entry table.now figures }
{
    Line::Header(HeaderLine {
        grades: table.grades as i64,
        rows: table.rows as i64,
        arcs: table.arcs as i64,
        total: i64::from(table.total),
        numerator: i64::from(table.numerator),
        denominator: i64::from(table.denominator),
        fineness: i64::from(table.fineness),
        figures: figures as i64,
    })
}

/// The line of the grade `i + 1`.
pub(crate) fn grade_line<'a>(table: &Table, i: usize, label: &'a [u8]) -> Line<'a>
    requires { i < table.now.grades }
    ensures { entry_of result ≡ grade_entry table.now.first_row label.now i }
{
    Line::Grade(GradeLine {
        number: (i + 1) as i64,
        first_row: table.first_row[i] as i64,
        label,
    })
}

/// The line of the row `i + 1`.
pub(crate) fn row_line<'a>(table: &Table, i: usize, label: &'a [u8]) -> Line<'a>
    requires { i < table.now.rows }
    ensures { entry_of result ≡ row_entry table.now.row label.now i }
{
    let row = table.row[i];
    Line::Row(RowLine {
        number: (i + 1) as i64,
        next: row.next as i64,
        first_part: row.cost.0,
        second_part: row.cost.1,
        first_arc: row.first_arc as i64,
        label,
    })
}

/// The line of the arc `i + 1`.
pub(crate) fn arc_line(table: &Table, i: usize) -> Line<'static>
    requires { i < table.now.arcs }
    ensures { entry_of result ≡ arc_entry table.now.arc i }
{
    let arc = table.arc[i];
    Line::Arc(ArcLine {
        number: (i + 1) as i64,
        next: arc.next as i64,
        destination: arc.destination as i64,
        weight: i64::from(arc.weight),
    })
}

/// The figure line of the grade `i + 1`.
pub(crate) fn figure_line(figures: &Figures, i: usize) -> Line<'static>
    requires { (i < 32) × (slice_index figures.now.row i ≤ 96) }
    ensures { entry_of result ≡ figure_entry figures.now.row figures.now.floor.at figures.now.ceiling.at i }
{
    let (floor_first, floor_second) = figures.floor.at[i];
    let (ceiling_first, ceiling_second) = figures.ceiling.at[i];
    Line::Figure(FigureLine {
        grade: (i + 1) as i64,
        row: figures.row[i] as i64,
        floor_first,
        floor_second,
        ceiling_first,
        ceiling_second,
    })
}

/// How many figure lines there are, one for each grade or none.
// `figured` comes from the public call or from the header: there is no figure beside it to put in an `Option`.
pub(crate) fn figure_count(figured: bool, grades: usize) -> usize
    ensures { result ≡ cond figured grades 0 }
{
    if figured { grades } else { 0 }
}
