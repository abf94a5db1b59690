ghost use Rattle.std.specs.Prelude.{◌≡◌, IfSome};
ghost use Rattle.table.specs.Ranges.{Within, FigureIn};
ghost use Rattle.table.specs.Lookahead.{figure_at};
ghost use Rattle.planner.specs.Sweeps.{shown};
ghost use Rattle.planner.specs.Keeping.{Keeping};
ghost use Rattle.planner.specs.Improvements.{eased, given, round_of, giving_way, rounds};

use crate::choice::cheapest;
use crate::grades::{count_given, per_grade, replaced};
use crate::sweep::divisor;
use rankings::Rounding;
use table::{Column, Figures, Grade, Page, lookahead};

/// The grade's ceiling after a round, if its plan row makes it cheaper.
fn eased_ceiling<R: Rounding>(
    ranking: &R,
    grade: Grade<'_>,
    figures: &Figures,
) -> Option<(i64, i64)>
    ensures is { result ≡ eased (R.Ranking.ranks ranking.now) (R.dear ranking.now) grade.entry.sound.now.table figures.now.row (figure_at figures.now.ceiling.at) grade.entry.number }
    ensures within { IfSome result FigureIn }
{
    let ahead = lookahead(grade.sound, grade.plan_row(&figures.row), &figures.ceiling)?;
    let ceiling = ranking.round_dear(ahead, divisor(grade.sound));
    ranking
        .cheaper(ceiling, grade.figure(&figures.ceiling))
        .then_some(ceiling)
}

/// The row that the grade's plan row gives way to: the grade's cheapest, if that is cheaper.
fn better_row<R: Rounding>(ranking: &R, grade: Grade<'_>, figures: &Figures) -> Option<usize>
    ensures is { result ≡ given (R.Ranking.ranks ranking.now) (R.dear ranking.now) grade.entry.sound.now.table figures.now.row (figure_at figures.now.ceiling.at) grade.entry.number }
    ensures row { IfSome result (Within 1 grade.entry.sound.now.table.rows) }
{
    let kept = lookahead(grade.sound, grade.plan_row(&figures.row), &figures.ceiling)?;
    let best = cheapest(ranking, grade, &figures.ceiling)?;
    ranking.cheaper(best.cost, kept).then_some(best.row)
}

/// What improvement comes to.
#[derive(Clone, Copy)]
pub struct Improved {
    pub page: Page,
    /// How many times, over all rounds, a plan row gave way to a cheaper one.
    pub gave_way: usize,
}

/// One improvement round (policy improvement): each ceiling follows its plan row over the ceilings before the round, and
/// then plan rows give way to cheaper ones over the new ceilings. Floors stay.
pub fn improve_once<R: Rounding>(ranking: &R, page: &Page) -> Improved
    ensures table { result.page.sound ≡ page.now.sound }
    ensures after { shown result.page.figures ≡ round_of (R.Ranking.ranks ranking.now) (R.dear ranking.now) page.now.sound.table (shown page.now.figures) }
    ensures gave_way { result.gave_way ≡ giving_way (R.Ranking.ranks ranking.now) (R.dear ranking.now) page.now.sound.table (shown page.now.figures) }
    ensures keeps { Keeping (R.Ranking.ranks ranking.now) page.now.sound.table (shown page.now.figures) (shown result.page.figures) }
{
    let n = page.sound.table.grades;
    let mut improved = *page;
    let eased = per_grade(
        &page.sound,
        |grade| eased_ceiling(ranking, grade, &page.figures),
    );
    let ceilings = replaced(&page.figures.ceiling.at, n, |i| eased[i]);
    improved.figures.ceiling = Column { at: ceilings };
    let better = per_grade(
        &page.sound,
        |grade| better_row(ranking, grade, &improved.figures),
    );
    improved.figures.row = replaced(&page.figures.row, n, |i| better[i]);
    Improved {
        page: improved,
        gave_way: count_given(&better, n),
    }
}

/// Runs n improvement rounds.
pub fn improve_rounds<R: Rounding>(ranking: &R, page: &Page, n: u32) -> Improved
    ensures table { result.page.sound ≡ page.now.sound }
    ensures after { (shown result.page.figures, result.gave_way) ≡ rounds (R.Ranking.ranks ranking.now) (R.dear ranking.now) page.now.sound.table n (shown page.now.figures) }
    ensures keeps { Keeping (R.Ranking.ranks ranking.now) page.now.sound.table (shown page.now.figures) (shown result.page.figures) }
{
    let mut page = *page;
    let mut gave_way = 0;
    // A count of turns, which indexes nothing.
    for _turn in 0..n {
        let round = improve_once(ranking, &page);
        page = round.page;
        gave_way += round.gave_way;
    }
    Improved { page, gave_way }
}
