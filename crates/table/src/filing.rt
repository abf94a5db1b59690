ghost use Rattle.std.specs.Prelude.{◌≡◌, ◌≤◌, ◌&&◌, length, None, slice_index_or};
ghost use Rattle.std.specs.Result.{result_err};
ghost use Rattle.rankings.specs.Costs.{zero};
ghost use Rattle.table.specs.Faults.{lowest};
ghost use Rattle.table.specs.Filing.{is_figure, no_line, outsized, or_part, Copies, Filed, FilingTells};

use crate::column::Column;
use crate::fault::{FiguresFault, FilingFault};
use crate::figures::Figures;
use crate::limits::{MAX_FIGURE_PART, MAX_GRADES};
use crate::page::Page;
use crate::rules::{check_ceilings, check_floors, check_plan};
use crate::sound::SoundTable;
use rankings::Ranking;
use std::array;

/// What somebody files for a grade: a plan row, a floor and a ceiling. Nothing is known of its numbers.
#[derive(Clone, Copy, Debug, PartialEq, Eq)]
pub struct FiledLine {
    pub row: usize,
    pub floor: (i64, i64),
    pub ceiling: (i64, i64),
}

/// Whether each part of a figure is in range.
fn is_figure(figure: (i64, i64)) -> bool
    ensures { result ≡ is_figure figure }
{
    let (first, second) = figure;
    let most = MAX_FIGURE_PART.unsigned_abs();
    first.unsigned_abs() <= most && second.unsigned_abs() <= most
}

impl FiledLine {
    /// Whether each part of the line's floor and ceiling is in range.
    fn in_range(&self) -> bool
        ensures { result ≡ (is_figure self.now.floor && is_figure self.now.ceiling) }
    {
        is_figure(self.floor) && is_figure(self.ceiling)
    }
}

/// Refuses the first grade with a part of its floor or ceiling out of range.
fn check_ranges(lines: &[FiledLine]) -> Result<(), FiguresFault>
    ensures { result_err result ≡ or_part (lowest (outsized lines.now) (length lines.now)) None }
{
    let outsized = lines.iter().position(|line| !line.in_range());
    outsized.map_or(Ok(()), |i| Err(FiguresFault::Part { grade: i + 1 }))
}

/// The line at an index, and one that says nothing past the end.
fn line_at(lines: &[FiledLine], i: usize) -> FiledLine
    ensures { result ≡ slice_index_or lines.now i no_line }
{
    let none = FiledLine {
        row: 0,
        floor: (0, 0),
        ceiling: (0, 0),
    };
    lines.get(i).copied().unwrap_or(none)
}

/// The plan rows, the floors and the ceilings of the lines.
fn columns(
    lines: &[FiledLine],
) -> (
    [usize; MAX_GRADES],
    [(i64, i64); MAX_GRADES],
    [(i64, i64); MAX_GRADES],
)
    requires { length lines.now ≤ 32 }
    ensures rows { Copies (λ l. l.row) 0 lines.now result.0 }
    ensures floors { Copies (λ l. l.floor) zero lines.now result.1 }
    ensures ceilings { Copies (λ l. l.ceiling) zero lines.now result.2 }
{
    let rows = array::from_fn(|i| line_at(lines, i).row);
    let floors = array::from_fn(|i| line_at(lines, i).floor);
    let ceilings = array::from_fn(|i| line_at(lines, i).ceiling);
    (rows, floors, ceilings)
}

/// The filed lines as a page of the table, or the first rule that they break.
fn filed_page<R: Ranking>(
    ranking: &R,
    sound: &SoundTable,
    lines: &[FiledLine],
) -> Result<Page, FilingFault>
    ensures { Filed (R.ranks ranking.now) sound.now lines.now result }
{
    if lines.len() != sound.table.grades {
        return Err(FilingFault::Lines);
    }
    let (row, floors, ceilings) = columns(lines);
    check_plan(sound, &row)?;
    check_ranges(lines)?;
    let floor = Column { at: floors };
    check_floors(ranking, sound, &floor)?;
    let ceiling = Column { at: ceilings };
    check_ceilings(ranking, sound, &row, &ceiling)?;
    let figures = Figures {
        row,
        floor,
        ceiling,
    };
    let sound = *sound;
    Ok(Page { sound, figures })
}

/// The filed lines as a page of the table, exactly where they keep the filing rules; or the first rule that they break:
/// one line for each grade, then plan rows, ranges, floors and ceilings, each over all grades before the next.
pub fn check_filing<R: Ranking>(
    ranking: &R,
    sound: &SoundTable,
    lines: &[FiledLine],
) -> Result<Page, FilingFault>
    ensures answer { Filed (R.ranks ranking.now) sound.now lines.now result }
    ensures kept { FilingTells (R.ranks ranking.now) sound.now.table lines.now result }
{
    filed_page(ranking, sound, lines)
}
