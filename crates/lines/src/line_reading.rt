//! Reading one line: its form, and no ranges.
//!
//! Each kind has other fields, so each has a function of its own: no code would use a trait of them.

ghost use Rattle.std.specs.Prelude.{◌≡◌, ◌+◌, ◌<◌, ◌≤◌, length, drop, MatchResult};
ghost use Rattle.text.specs.Fields.{byte_of};
ghost use Rattle.text.specs.Reading.{Reads, seen};
ghost use Rattle.lines.specs.Lines.{four_text, header_text, grade_text, row_text, arc_text, figure_text, line_text, GoodFour, GoodHeader, GoodGrade, GoodRow, GoodArc, GoodFigure, Good, four_of, header_of, grade_of, row_of, arc_of, figure_of, entry_of, PrefixFree};
ghost use Rattle.lines.specs.Places.{seen_at, label_of};

use crate::fault::TextFault;
use crate::records::{ArcLine, FigureLine, GradeLine, HeaderLine, Line, RowLine};
use text::End;

/// Four numbers, the last of them before `end`.
fn read_four(bytes: &[u8], end: End) -> Option<((i64, i64, i64, i64), &[u8])>
    ensures { Reads GoodFour (four_text (byte_of end)) bytes.now (seen four_of result) }
{
    let (first, rest) = text::number(bytes, End::Blank)?;
    let (second, rest) = text::number(rest, End::Blank)?;
    let (third, rest) = text::number(rest, End::Blank)?;
    let (fourth, rest) = text::number(rest, end)?;
    Some(((first, second, third, fourth), rest))
}

fn read_header(bytes: &[u8]) -> Option<(HeaderLine, &[u8])>
    ensures { Reads GoodHeader header_text bytes.now (seen header_of result) }
{
    let ((grades, rows, arcs, total), rest) = read_four(bytes, End::Blank)?;
    let ((numerator, denominator, fineness, figures), rest) = read_four(rest, End::Line)?;
    let line = HeaderLine {
        grades,
        rows,
        arcs,
        total,
        numerator,
        denominator,
        fineness,
        figures,
    };
    Some((line, rest))
}

fn read_grade(bytes: &[u8]) -> Option<(GradeLine<'_>, &[u8])>
    ensures { Reads GoodGrade grade_text bytes.now (seen grade_of result) }
{
    let (number, rest) = text::number(bytes, End::Blank)?;
    let (first_row, rest) = text::number(rest, End::Blank)?;
    let (label, rest) = text::label(rest)?;
    Some((
        GradeLine {
            number,
            first_row,
            label,
        },
        rest,
    ))
}

fn read_row(bytes: &[u8]) -> Option<(RowLine<'_>, &[u8])>
    ensures { Reads GoodRow row_text bytes.now (seen row_of result) }
{
    let ((number, next, first_part, second_part), rest) = read_four(bytes, End::Blank)?;
    let (first_arc, rest) = text::number(rest, End::Blank)?;
    let (label, rest) = text::label(rest)?;
    Some((
        RowLine {
            number,
            next,
            first_part,
            second_part,
            first_arc,
            label,
        },
        rest,
    ))
}

fn read_arc(bytes: &[u8]) -> Option<(ArcLine, &[u8])>
    ensures { Reads GoodArc arc_text bytes.now (seen arc_of result) }
{
    let ((number, next, destination, weight), rest) = read_four(bytes, End::Line)?;
    Some((
        ArcLine {
            number,
            next,
            destination,
            weight,
        },
        rest,
    ))
}

fn read_figure(bytes: &[u8]) -> Option<(FigureLine, &[u8])>
    ensures { Reads GoodFigure figure_text bytes.now (seen figure_of result) }
{
    let (grade, rest) = text::number(bytes, End::Blank)?;
    let (row, rest) = text::number(rest, End::Blank)?;
    let ((floor_first, floor_second, ceiling_first, ceiling_second), rest) = read_four(
        rest,
        End::Line,
    )?;
    let line = FigureLine {
        grade,
        row,
        floor_first,
        floor_second,
        ceiling_first,
        ceiling_second,
    };
    Some((line, rest))
}

/// The line at the front, and what follows it. No bytes begin with two lines.
pub fn read_line(bytes: &[u8]) -> Option<(Line<'_>, &[u8])>
    ensures reads { Reads Good line_text bytes.now (seen entry_of result) }
    ensures alone { PrefixFree }
{
    match bytes {
        [b's', b'h', b'e', b'e', b't', b' ', rest @ ..] => {
            let (header, rest) = read_header(rest)?;
            Some((Line::Header(header), rest))
        }
        [b'g', b' ', rest @ ..] => {
            let (grade, rest) = read_grade(rest)?;
            Some((Line::Grade(grade), rest))
        }
        [b'r', b' ', rest @ ..] => {
            let (row, rest) = read_row(rest)?;
            Some((Line::Row(row), rest))
        }
        [b't', b' ', rest @ ..] => {
            let (arc, rest) = read_arc(rest)?;
            Some((Line::Arc(arc), rest))
        }
        [b'f', b' ', rest @ ..] => {
            let (figure, rest) = read_figure(rest)?;
            Some((Line::Figure(figure), rest))
        }
        [b'e', b'n', b'd', b'\n', rest @ ..] => Some((Line::End, rest)),
        // Byte patterns choose the kind, a form that the project keeps: what none of them matches is no line.
        _ => None,
    }
}

/// The line at the byte place `at` of a sheet, and the place after it.
pub fn line_at(sheet: &[u8], at: usize) -> Result<(Line<'_>, usize), TextFault>
    ensures reads { Reads Good line_text (drop at sheet.now) (seen_at sheet.now result) }
    ensures place { MatchResult result (λ p. (at < p.1) × (p.1 ≤ length sheet.now) × (length (label_of p.0) + 1 + at ≤ p.1)) (λ e. e ≡ TextFault.NoLine at) }
{
    let (line, rest) = sheet
        .get(at..)
        .and_then(read_line)
        .ok_or(TextFault::NoLine { place: at })?;
    Ok((line, sheet.len() - rest.len()))
}
