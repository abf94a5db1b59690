ghost use Rattle.std.specs.Prelude.{◌≡◌, IfSome};
ghost use Rattle.table.specs.Ranges.{FigureIn};
ghost use Rattle.table.specs.Rules.{plan_row};
ghost use Rattle.table.specs.Filing.{FilingTells};
ghost use Rattle.planner.specs.Takings.{Taken, TakenKeeps};
ghost use Rattle.planner.specs.Sweeps.{shown};
ghost use Rattle.planner.specs.Keeping.{dearer_floor, cheaper_choice, nearer_of};

use crate::choice::Choice;
use crate::grades::{per_grade, revised};
use rankings::Ranking;
use table::{Figures, FiledLine, FilingFault, Grade, Page, check_filing};

/// The grade's filed floor, if it is dearer than the standing one.
fn dearer_floor<R: Ranking>(
    ranking: &R,
    grade: Grade<'_>,
    standing: &Figures,
    filed: &Figures,
) -> Option<(i64, i64)>
    ensures is { result ≡ dearer_floor (R.ranks ranking.now) (shown standing.now) (shown filed.now) grade.entry.number }
    ensures within { IfSome result FigureIn }
{
    let floor = grade.figure(&filed.floor);
    ranking
        .dearer(floor, grade.figure(&standing.floor))
        .then_some(floor)
}

/// The grade's filed ceiling with its row, if it is cheaper than the standing one.
fn cheaper_ceiling<R: Ranking>(
    ranking: &R,
    grade: Grade<'_>,
    standing: &Figures,
    filed: &Figures,
) -> Option<Choice>
    ensures is { result ≡ cheaper_choice (R.ranks ranking.now) (shown standing.now) (shown filed.now) grade.entry.number }
    ensures within { IfSome result (λ c. FigureIn c.cost) }
    ensures row { IfSome result (λ c. c.row ≡ plan_row filed.now.row grade.entry.number) }
{
    let choice = Choice {
        row: grade.plan_row(&filed.row),
        cost: grade.figure(&filed.ceiling),
    };
    ranking
        .cheaper(choice.cost, grade.figure(&standing.ceiling))
        .then_some(choice)
}

/// The standing figures, with each filed floor that is dearer and each filed ceiling that is cheaper in its place, the
/// ceiling with its row.
fn nearer_page<R: Ranking>(ranking: &R, standing: &Page, filed: &Page) -> Page
    requires { filed.now.sound ≡ standing.now.sound }
    ensures table { result.sound ≡ standing.now.sound }
    ensures after { shown result.figures ≡ nearer_of (R.ranks ranking.now) (shown standing.now.figures) (shown filed.now.figures) standing.now.sound.table.grades }
{
    let (old, new) = (&standing.figures, &filed.figures);
    let mut nearer = *standing;
    let floors = per_grade(
        &standing.sound,
        |grade| dearer_floor(ranking, grade, old, new),
    );
    let choices = per_grade(
        &standing.sound,
        |grade| cheaper_ceiling(ranking, grade, old, new),
    );
    let figures = revised(standing, &floors, &choices);
    nearer.figures = figures;
    nearer
}

/// Files lines: each grade keeps the dearer floor, and the cheaper ceiling with its row; the standing one at a tie. It is
/// refused exactly where the lines break a filing rule, and then nothing changes.
pub fn take_filing<R: Ranking>(
    ranking: &R,
    page: &Page,
    lines: &[FiledLine],
) -> Result<Page, FilingFault>
    ensures answer { Taken (R.ranks ranking.now) page.now lines.now result }
    ensures kept { FilingTells (R.ranks ranking.now) page.now.sound.table lines.now result }
    ensures keeps { TakenKeeps (R.ranks ranking.now) page.now lines.now result }
{
    let filed = check_filing(ranking, &page.sound, lines)?;
    Ok(nearer_page(ranking, page, &filed))
}
