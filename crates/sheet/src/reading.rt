ghost use Rattle.std.specs.Prelude.{◌≡◌, ◌≤◌, length, drop, Ok, Err};
ghost use Rattle.lines.specs.Lines.{line_text, end};
ghost use Rattle.sheet.specs.Halts.{EndFault};
ghost use Rattle.sheet.specs.Laws.{Answered, Once, Exactly};
ghost use Rattle.sheet.specs.Whole.{SheetIn, Refused};

use crate::arc_reading::Arcs;
use crate::figure_reading::read_figures;
use crate::grade_reading::Grades;
use crate::group::{Group, read_group};
use crate::header_reading::read_header;
use crate::labels::{Labels, NO_LABEL};
use crate::row_reading::Rows;
use crate::table_lines::figure_count;
use crate::whole::Sheet;
use lines::{Line, TextFault, line_at};
use table::{MAX_ARCS, MAX_GRADES, MAX_ROWS, Table};

/// The longest sheet, in bytes.
pub const MAX_SHEET: usize = 32_768;

/// The line `end`, the sheet's line `line`, with nothing after it.
fn read_end(sheet: &[u8], at: usize, line: usize) -> Result<(), TextFault>
    requires { line ≤ 674 }
    ensures { elim result [ Ok _ ↦ drop at sheet.now ≡ line_text end | Err e ↦ EndFault line (drop at sheet.now) e ] }
{
    let Ok((Line::End, next)) = line_at(sheet, at) else {
        return Err(TextFault::Form { line });
    };
    if next < sheet.len() {
        return Err(TextFault::Form { line: line + 1 });
    }
    Ok(())
}

/// What a whole sheet says, where every line is of the form due there and every number in range.
pub(crate) fn read_sheet(sheet: &[u8]) -> Result<Sheet, TextFault>
    ensures { Answered sheet.now result }
{
    if sheet.len() > MAX_SHEET {
        return Err(TextFault::TooLong);
    }
    let (header, at) = read_header(sheet)?;
    let mut first_row = [Grades::EMPTY; MAX_GRADES];
    let mut grade = [NO_LABEL; MAX_GRADES];
    let at = read_group::<Grades>(sheet, at, 2, &header, &mut first_row, &mut grade)?;
    let line = 2 + header.grades;
    let mut row = [Rows::EMPTY; MAX_ROWS];
    let mut label = [NO_LABEL; MAX_ROWS];
    let at = read_group::<Rows>(sheet, at, line, &header, &mut row, &mut label)?;
    let line = line + header.rows;
    let mut arc = [Arcs::EMPTY; MAX_ARCS];
    let at = read_group::<Arcs>(sheet, at, line, &header, &mut arc, &mut [])?;
    let line = line + header.arcs;
    let (figures, at) = read_figures(sheet, at, line, &header)?;
    let line = line + figure_count(header.figured, header.grades);
    read_end(sheet, at, line)?;
    let table = Table {
        grades: header.grades,
        rows: header.rows,
        arcs: header.arcs,
        total: header.total,
        numerator: header.numerator,
        denominator: header.denominator,
        fineness: header.fineness,
        first_row,
        row,
        arc,
    };
    Ok(Sheet {
        table,
        figures,
        labels: Labels { grade, row: label },
    })
}

/// What a whole sheet says, or the first refusal of its text. It is the only answer that those bytes have, and for a
/// rendering it is what was rendered.
pub fn read(sheet: &[u8]) -> Result<Sheet, TextFault>
    ensures says { elim result [ Ok s ↦ SheetIn sheet.now s | Err e ↦ Refused (length sheet.now) e ] }
    ensures answered { Answered sheet.now result }
    ensures once { Once sheet.now result }
    ensures exactly { Exactly sheet.now result }
{
    read_sheet(sheet)
}
