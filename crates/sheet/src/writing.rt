ghost use Rattle.std.specs.Prelude.{◌≡◌, ℕ, ◌<◌, ◌≤◌, length, IfSome};
ghost use Rattle.text.specs.Writing.{Writes};
ghost use Rattle.lines.specs.declared.records.Line.{Line};
ghost use Rattle.lines.specs.Lines.{Entry, entry_of, line_text};
ghost use Rattle.sheet.specs.Render.{series, labels_of, render};
ghost use Rattle.sheet.specs.Spans.{SpansIn};
ghost use Rattle.sheet.specs.Written.{Wrote, OldTold, shown_of};

use crate::labels::Labels;
use crate::reading::{MAX_SHEET, read_sheet};
use crate::table_lines::{
    arc_line, figure_count, figure_line, grade_line, header_line, part, row_line,
};
use crate::write_fault::WriteFault;
use lines::{Line, write_line};
use table::Page;

/// Writes `n` lines, each as `line` makes it from its index.
fn write_lines<'a, F: Fn(usize) -> Line<'a>>(
    out: &mut [u8],
    at: usize,
    n: usize,
    line: F,
) -> Option<usize>
    requires made { (i : ℕ) → i < n → F.pre line i }
    requires room { at ≤ length out.old }
    ensures place { IfSome result (λ j. j ≤ length out.new) }
    ensures lines { (g : ℕ → Entry) → ((i : ℕ) (l : Line) → i < n → F.post line i l → entry_of l ≡ g i) → Writes out.old at (series (λ i. line_text (g i)) n) result out.new }
{
    let mut at = at;
    // By index, from which the closure makes the line: a `try_fold` would have to borrow `out` in a closure too.
    for i in 0..n {
        at = write_line(out, at, &line(i))?;
    }
    Some(at)
}

/// Writes the whole sheet, and returns its length, or `None` where it has no room.
// `figured` is the public call's: it says what is wanted, and the page has its figures in any case.
fn write_all(
    out: &mut [u8],
    page: &Page,
    figured: bool,
    labels: &Labels,
    old: &[u8],
) -> Option<usize>
    requires { (SpansIn page.now.sound.table.grades (length old.now) labels.now.grade) × (SpansIn page.now.sound.table.rows (length old.now) labels.now.row) }
    ensures { Writes out.old 0 (render page.now.sound.table (shown_of figured page.now.figures) (labels_of old.now labels.now.grade) (labels_of old.now labels.now.row)) result out.new }
{
    let table = &page.sound.table;
    let figures = figure_count(figured, table.grades);
    let at = write_line(out, 0, &header_line(table, figures))?;
    let at = write_lines(
        out,
        at,
        table.grades,
        |i| grade_line(table, i, part(old, labels.grade[i])),
    )?;
    let at = write_lines(
        out,
        at,
        table.rows,
        |i| row_line(table, i, part(old, labels.row[i])),
    )?;
    let at = write_lines(out, at, table.arcs, |i| arc_line(table, i))?;
    let at = write_lines(out, at, figures, |i| figure_line(&page.figures, i))?;
    write_line(out, at, &Line::End)
}

/// Writes the page, with figures where they are wanted, as a sheet with the labels of the sheet `old`, and returns the
/// sheet's length. What `out` holds beyond that stays.
pub(crate) fn write(
    out: &mut [u8],
    page: &Page,
    figured: bool,
    old: &[u8],
) -> Result<usize, WriteFault>
    ensures wrote { Wrote out.old old.now page.now.sound.table (shown_of figured page.now.figures) result out.new }
    ensures old { OldTold old.now page.now.sound.table result }
{
    let sheet = read_sheet(old)?;
    let table = &page.sound.table;
    if sheet.table.grades != table.grades || sheet.table.rows != table.rows {
        return Err(WriteFault::OldSheet { line: 0 });
    }
    // The draft has room for every sheet, so that the length is known before `out` is touched.
    let mut draft = [0; MAX_SHEET];
    let Some(n) = write_all(&mut draft, page, figured, &sheet.labels, old) else {
        unreachable()
    };
    if n > out.len() {
        return Err(WriteFault::Room { length: n });
    }
    out[..n].copy_from_slice(&draft[..n]);
    Ok(n)
}
