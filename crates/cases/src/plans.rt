//! What the tests of plans do with a sheet and with pages.

ghost use Rattle.std.specs.Prelude.{◌≡◌, IfOk};
ghost use Rattle.std.specs.Bool.{OnTrue};
ghost use Rattle.cases.specs.Shows.{Starts, Swept, LineShown, LinesShown, filing_refusal, Answers};

use planner::{start_page, sweep_once};
use rankings::{Ranking, Rounding};
use sheet::read;
use std::test::Fail;
use table::{FiguresFault, FiledLine, FilingFault, MAX_GRADES, Page, check_table};

/// The page that plans for the sheet's table start from; a test fails where the sheet has a fault.
pub(crate) fn started<R: Ranking>(ranking: &R, text: &[u8]) -> Result<Page, Fail>
    ensures { IfOk result (Starts (R.ranks ranking.now) text.now) }
{
    let sheet = read(text)?;
    let sound = check_table(&sheet.table)?;
    Ok(start_page(ranking, &sound))
}

/// That page after one sweep.
pub(crate) fn swept<R: Rounding>(ranking: &R, text: &[u8]) -> Result<Page, Fail>
    ensures { IfOk result (Swept (R.Ranking.ranks ranking.now) (R.cheap ranking.now) (R.dear ranking.now) text.now) }
{
    let page = started(ranking, text)?;
    Ok(sweep_once(ranking, &page).page)
}

/// Whether the page has the line's row, floor and ceiling at the place k, from 0.
// By hand: a line is compared with three columns.
fn shows_line(page: &Page, k: usize, line: &FiledLine) -> bool
    ensures { OnTrue result (LineShown page.now.figures line.now k) }
{
    k < MAX_GRADES
        && page.figures.row[k] == line.row
        && page.figures.floor.at[k] == line.floor
        && page.figures.ceiling.at[k] == line.ceiling
}

/// Whether the first grades of the page have just these rows, floors and ceilings.
pub(crate) fn shows(page: &Page, lines: &[FiledLine]) -> bool
    ensures { OnTrue result (LinesShown page.now.figures lines.now) }
{
    lines
        .iter()
        .enumerate()
        .all(|(k, line)| shows_line(page, k, line))
}

/// The number, grade and row by which the fault of a filing is known, 0 where none is named.
fn known_by(fault: FilingFault) -> (u32, usize, usize)
    ensures { result ≡ filing_refusal fault }
{
    match fault {
        FilingFault::Lines => (16, 0, 0),
        FilingFault::Figures(FiguresFault::PlanRow { grade, row }) => (9, grade, row),
        FilingFault::Figures(FiguresFault::Part { grade }) => (17, grade, 0),
        FilingFault::Figures(FiguresFault::Floor { grade, row }) => (10, grade, row),
        FilingFault::Figures(FiguresFault::Ceiling { grade, row }) => (11, grade, row),
    }
}

/// Whether a filing is answered by the fault of this number, grade and row, or by a page that shows these lines.
pub(crate) fn answered(
    answer: Result<Page, FilingFault>,
    due: Result<&[FiledLine], (u32, usize, usize)>,
) -> bool
    ensures { OnTrue result (Answers answer due.entry) }
{
    match (answer, due) {
        (Ok(page), Ok(lines)) => shows(&page, lines),
        (Err(fault), Err(due)) => known_by(fault) == due,
        _ => false,
    }
}
