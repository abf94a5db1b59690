ghost use Rattle.std.specs.Prelude.{◌≡◌, IfSome};
ghost use Rattle.table.specs.Ranges.{FigureIn};
ghost use Rattle.table.specs.Lookahead.{figure_at, scaling};
ghost use Rattle.planner.specs.Grades.{ChoiceIn};
ghost use Rattle.planner.specs.Keeping.{Keeping};
ghost use Rattle.planner.specs.Sweeps.{raised, lowered, shown, sweep_of, moves, sweeps};

use crate::choice::{Choice, cheapest};
use crate::grades::{per_grade, revised, some_given};
use rankings::{Divisor, Rounding};
use table::{Column, Figures, Grade, Page, SoundTable};

/// b · D, by which X is divided to give a figure.
pub(crate) fn divisor(sound: &SoundTable) -> Divisor
    ensures { result.by ≡ scaling sound.now.table }
{
    Divisor {
        by: sound.table.denominator * sound.table.total,
    }
}

/// The grade's floor after a sweep, if the sweep raises it.
fn raised_floor<R: Rounding>(ranking: &R, grade: Grade<'_>, floors: &Column) -> Option<(i64, i64)>
    ensures is { result ≡ raised (R.Ranking.ranks ranking.now) (R.cheap ranking.now) (R.dear ranking.now) grade.entry.sound.now.table (figure_at floors.now.at) grade.entry.number }
    ensures within { IfSome result FigureIn }
{
    let best = cheapest(ranking, grade, floors)?;
    let floor = ranking.round_cheap(best.cost, divisor(grade.sound));
    ranking.dearer(floor, grade.figure(floors)).then_some(floor)
}

/// The grade's ceiling after a sweep with the row that it is for, if the sweep lowers it.
fn lowered_ceiling<R: Rounding>(ranking: &R, grade: Grade<'_>, ceilings: &Column) -> Option<Choice>
    ensures is { result ≡ lowered (R.Ranking.ranks ranking.now) (R.cheap ranking.now) (R.dear ranking.now) grade.entry.sound.now.table (figure_at ceilings.now.at) grade.entry.number }
    ensures within { IfSome result (ChoiceIn grade.entry.sound.now.table.rows) }
{
    let best = cheapest(ranking, grade, ceilings)?;
    let cost = ranking.round_dear(best.cost, divisor(grade.sound));
    let choice = Choice {
        row: best.row,
        cost,
    };
    ranking
        .cheaper(cost, grade.figure(ceilings))
        .then_some(choice)
}

/// What one sweep comes to.
#[derive(Clone, Copy)]
pub struct Sweep {
    pub page: Page,
    /// Whether some floor or ceiling changed. The page is there in any case.
    pub moved: bool,
}

/// One sweep: each new figure is reckoned from the figures before it, and none from another new one.
pub fn sweep_once<R: Rounding>(ranking: &R, page: &Page) -> Sweep
    ensures table { result.page.sound ≡ page.now.sound }
    ensures after { shown result.page.figures ≡ sweep_of (R.Ranking.ranks ranking.now) (R.cheap ranking.now) (R.dear ranking.now) page.now.sound.table (shown page.now.figures) }
    ensures moved { result.moved ≡ moves (R.Ranking.ranks ranking.now) (R.cheap ranking.now) (R.dear ranking.now) page.now.sound.table (shown page.now.figures) }
    ensures keeps { Keeping (R.Ranking.ranks ranking.now) page.now.sound.table (shown page.now.figures) (shown result.page.figures) }
{
    let n = page.sound.table.grades;
    let old = &page.figures;
    let mut swept = *page;
    let raised = per_grade(
        &page.sound,
        |grade| raised_floor(ranking, grade, &old.floor),
    );
    let lowered = per_grade(
        &page.sound,
        |grade| lowered_ceiling(ranking, grade, &old.ceiling),
    );
    let figures = revised(page, &raised, &lowered);
    swept.figures = figures;
    Sweep {
        page: swept,
        moved: some_given(&raised, n) | some_given(&lowered, n),
    }
}

/// What several sweeps come to.
#[derive(Clone, Copy)]
pub struct Swept {
    pub page: Page,
    /// How many sweeps ran.
    pub runs: usize,
    /// Whether the last one changed no floor and no ceiling. The page is there in any case.
    pub settled: bool,
}

/// Sweeps n times, or up to the first sweep that changes no floor and no ceiling.
pub fn sweep_up_to<R: Rounding>(ranking: &R, page: &Page, n: usize) -> Swept
    ensures table { result.page.sound ≡ page.now.sound }
    ensures after { (shown result.page.figures, (result.runs, result.settled)) ≡ sweeps (R.Ranking.ranks ranking.now) (R.cheap ranking.now) (R.dear ranking.now) page.now.sound.table n (shown page.now.figures) }
    ensures keeps { Keeping (R.Ranking.ranks ranking.now) page.now.sound.table (shown page.now.figures) (shown result.page.figures) }
{
    let mut page = *page;
    // A count of turns, which indexes nothing.
    for turn in 0..n {
        let sweep = sweep_once(ranking, &page);
        page = sweep.page;
        if !sweep.moved {
            return Swept {
                page,
                runs: turn + 1,
                settled: true,
            };
        }
    }
    Swept {
        page,
        runs: n,
        settled: false,
    }
}
