//! Writing one line, each kind by a function of its own as in reading.
//!
//! `out` and `at` go along as two, as in `text`, whose functions take them.

ghost use Rattle.text.specs.Fields.{byte_of};
ghost use Rattle.text.specs.Writing.{Writes};
ghost use Rattle.lines.specs.Lines.{four_text, header_text, grade_text, row_text, arc_text, figure_text, line_text, four_of, header_of, grade_of, row_of, arc_of, figure_of, entry_of};

use crate::records::{ArcLine, FigureLine, GradeLine, HeaderLine, Line, RowLine};
use text::End;

/// Writes four numbers, the last of them before `end`.
fn write_four(out: &mut [u8], at: usize, numbers: (i64, i64, i64, i64), end: End) -> Option<usize>
    ensures { Writes out.old at (four_text (byte_of end) (four_of numbers)) result out.new }
{
    let at = text::write_field(out, at, numbers.0, End::Blank)?;
    let at = text::write_field(out, at, numbers.1, End::Blank)?;
    let at = text::write_field(out, at, numbers.2, End::Blank)?;
    text::write_field(out, at, numbers.3, end)
}

fn write_header(out: &mut [u8], at: usize, line: &HeaderLine) -> Option<usize>
    ensures { Writes out.old at (header_text (header_of line.now)) result out.new }
{
    let at = write_four(
        out,
        at,
        (line.grades, line.rows, line.arcs, line.total),
        End::Blank,
    )?;
    write_four(
        out,
        at,
        (
            line.numerator,
            line.denominator,
            line.fineness,
            line.figures,
        ),
        End::Line,
    )
}

fn write_grade(out: &mut [u8], at: usize, line: &GradeLine<'_>) -> Option<usize>
    ensures { Writes out.old at (grade_text (grade_of line.now)) result out.new }
{
    let at = text::write_field(out, at, line.number, End::Blank)?;
    let at = text::write_field(out, at, line.first_row, End::Blank)?;
    text::write_label(out, at, line.label)
}

fn write_row(out: &mut [u8], at: usize, line: &RowLine<'_>) -> Option<usize>
    ensures { Writes out.old at (row_text (row_of line.now)) result out.new }
{
    let at = write_four(
        out,
        at,
        (line.number, line.next, line.first_part, line.second_part),
        End::Blank,
    )?;
    let at = text::write_field(out, at, line.first_arc, End::Blank)?;
    text::write_label(out, at, line.label)
}

fn write_arc(out: &mut [u8], at: usize, line: &ArcLine) -> Option<usize>
    ensures { Writes out.old at (arc_text (arc_of line.now)) result out.new }
{
    write_four(
        out,
        at,
        (line.number, line.next, line.destination, line.weight),
        End::Line,
    )
}

fn write_figure(out: &mut [u8], at: usize, line: &FigureLine) -> Option<usize>
    ensures { Writes out.old at (figure_text (figure_of line.now)) result out.new }
{
    let at = text::write_field(out, at, line.grade, End::Blank)?;
    let at = text::write_field(out, at, line.row, End::Blank)?;
    let bounds = (
        line.floor_first,
        line.floor_second,
        line.ceiling_first,
        line.ceiling_second,
    );
    write_four(out, at, bounds, End::Line)
}

/// Writes a line from the place `at` on, and returns the place after it, or `None` where it has no room.
pub fn write_line(out: &mut [u8], at: usize, line: &Line<'_>) -> Option<usize>
    ensures { Writes out.old at (line_text (entry_of line.now)) result out.new }
{
    match line {
        Line::Header(header) => {
            let at = text::write_bytes(out, at, b"sheet ")?;
            write_header(out, at, header)
        }
        Line::Grade(grade) => {
            let at = text::write_bytes(out, at, b"g ")?;
            write_grade(out, at, grade)
        }
        Line::Row(row) => {
            let at = text::write_bytes(out, at, b"r ")?;
            write_row(out, at, row)
        }
        Line::Arc(arc) => {
            let at = text::write_bytes(out, at, b"t ")?;
            write_arc(out, at, arc)
        }
        Line::Figure(figure) => {
            let at = text::write_bytes(out, at, b"f ")?;
            write_figure(out, at, figure)
        }
        Line::End => text::write_bytes(out, at, b"end\n"),
    }
}
