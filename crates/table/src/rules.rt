ghost use Rattle.std.specs.Prelude.{◌≡◌, None};
ghost use Rattle.std.specs.Result.{result_err};
ghost use Rattle.table.specs.Lookahead.{figure_at, lookahead_of};
ghost use Rattle.table.specs.Kept.{Tells};
ghost use Rattle.table.specs.Rules.{keeps_floor, keeps_ceiling, first_stray, first_floor, first_ceiling, or_later, figures_fault};
ghost use Rattle.table.specs.declared.fault.FiguresFault.TheVariants.{PlanRow, Floor, Ceiling};

use crate::ahead::lookahead;
use crate::column::Column;
use crate::fault::FiguresFault;
use crate::figures::Figures;
use crate::grade::Grade;
use crate::limits::MAX_GRADES;
use crate::sound::SoundTable;
use rankings::Ranking;

// Floors and ceilings have a function each: one for both would take the side as a parameter and branch on it.

/// Whether the grade's floor keeps to what the row k allows.
fn keeps_floor<R: Ranking>(ranking: &R, grade: Grade<'_>, floors: &Column, k: usize) -> bool
    ensures { result ≡ keeps_floor (R.ranks ranking.now) grade.entry.sound.now.table (figure_at floors.now.at) grade.entry.number (lookahead_of grade.entry.sound.now.table k (figure_at floors.now.at)) }
{
    let floor = grade.scaled_figure(floors);
    lookahead(grade.sound, k, floors).is_some_and(|x| ranking.no_dearer(floor, x))
}

/// Whether the grade's ceiling covers what the row k needs.
fn keeps_ceiling<R: Ranking>(ranking: &R, grade: Grade<'_>, ceilings: &Column, k: usize) -> bool
    ensures { result ≡ keeps_ceiling (R.ranks ranking.now) grade.entry.sound.now.table (figure_at ceilings.now.at) grade.entry.number (lookahead_of grade.entry.sound.now.table k (figure_at ceilings.now.at)) }
{
    let ceiling = grade.scaled_figure(ceilings);
    lookahead(grade.sound, k, ceilings).is_some_and(|x| ranking.no_dearer(x, ceiling))
}

/// Refuses the first plan row that is not one of its grade's rows.
// A loop beside check_ceilings': one for both would take the test and the fault as parameters.
pub(crate) fn check_plan(sound: &SoundTable, rows: &[usize; MAX_GRADES]) -> Result<(), FiguresFault>
    ensures { result_err result ≡ or_later (first_stray sound.now.table rows.now) PlanRow None }
{
    for grade in sound.grades() {
        let row = grade.plan_row(rows);
        if !grade.has_row(row) {
            return Err(FiguresFault::PlanRow {
                grade: grade.number,
                row,
            });
        }
    }
    Ok(())
}

/// Refuses the first floor that breaks its rule, in grade order and then chain order.
// The loops and the labelled break that carries grade and row are a form that the project's scope fixes.
pub(crate) fn check_floors<R: Ranking>(
    ranking: &R,
    sound: &SoundTable,
    floors: &Column,
) -> Result<(), FiguresFault>
    ensures { result_err result ≡ or_later (first_floor (R.ranks ranking.now) sound.now.table floors.now.at) Floor None }
{
    let (grade, row) = 'check: {
        for grade in sound.grades() {
            for row in grade.rows() {
                if !keeps_floor(ranking, grade, floors, row) {
                    break 'check (grade.number, row);
                }
            }
        }
        return Ok(());
    };
    Err(FiguresFault::Floor { grade, row })
}

/// Refuses the first ceiling that breaks its rule at its grade's plan row.
// A loop beside check_plan's: one for both would take the test and the fault as parameters.
pub(crate) fn check_ceilings<R: Ranking>(
    ranking: &R,
    sound: &SoundTable,
    rows: &[usize; MAX_GRADES],
    ceilings: &Column,
) -> Result<(), FiguresFault>
    ensures { result_err result ≡ or_later (first_ceiling (R.ranks ranking.now) sound.now.table rows.now ceilings.now.at) Ceiling None }
{
    for grade in sound.grades() {
        let row = grade.plan_row(rows);
        if !keeps_ceiling(ranking, grade, ceilings, row) {
            return Err(FiguresFault::Ceiling {
                grade: grade.number,
                row,
            });
        }
    }
    Ok(())
}

/// Refuses the first rule that the figures break: plan rows before floors before ceilings, each over all grades.
pub fn check_figures<R: Ranking>(
    ranking: &R,
    sound: &SoundTable,
    figures: &Figures,
) -> Result<(), FiguresFault>
    ensures is { result_err result ≡ figures_fault (R.ranks ranking.now) sound.now.table figures.now }
    ensures kept { Tells (R.ranks ranking.now) sound.now.table figures.now (result_err result) }
{
    check_plan(sound, &figures.row)?;
    check_floors(ranking, sound, &figures.floor)?;
    check_ceilings(ranking, sound, &figures.row, &figures.ceiling)
}

/// The first rule that the figures break, and none exactly where they keep all of them.
pub fn first_broken<R: Ranking>(
    ranking: &R,
    sound: &SoundTable,
    figures: &Figures,
) -> Option<FiguresFault>
    ensures is { result ≡ figures_fault (R.ranks ranking.now) sound.now.table figures.now }
    ensures kept { Tells (R.ranks ranking.now) sound.now.table figures.now result }
{
    check_figures(ranking, sound, figures).err()
}
