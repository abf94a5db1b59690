ghost use Rattle.std.specs.Prelude.{◌≡◌, ◌*◌, ◌^◌, IfSome};
ghost use Rattle.rankings.specs.Costs.{Modest, Within as Sized};
ghost use Rattle.table.specs.Ranges.{Within};
ghost use Rattle.table.specs.Lookahead.{figure_at, scaling};
ghost use Rattle.planner.specs.Choices.{cheaper_of, cheapest_row, CheapestOf};

use rankings::Ranking;
use table::{Column, Grade, SoundTable, lookahead};

/// A row, and what it costs one step ahead.
#[derive(Clone, Copy)]
pub struct Choice {
    pub row: usize,
    pub cost: (i64, i64),
}

/// The cheaper of two choices; the first, if it is no dearer.
fn cheaper_of<R: Ranking>(ranking: &R, best: Choice, next: Choice) -> Choice
    requires { (Modest best.cost) × (Modest next.cost) }
    ensures { result ≡ cheaper_of (R.ranks ranking.now) best next }
{
    if ranking.cheaper(next.cost, best.cost) {
        next
    } else {
        best
    }
}

/// The grade's cheapest row one step ahead of the figures; the first in the chain among equals.
pub(crate) fn cheapest<R: Ranking>(
    ranking: &R,
    grade: Grade<'_>,
    figures: &Column,
) -> Option<Choice>
    ensures is { result ≡ cheapest_row (R.ranks ranking.now) grade.entry.sound.now.table (figure_at figures.now.at) grade.entry.number }
    ensures within { IfSome result (λ c. Sized (scaling grade.entry.sound.now.table * 10 ^ 10) c.cost) }
    ensures row { IfSome result (λ c. Within 1 grade.entry.sound.now.table.rows c.row) }
{
    let mut best = None;
    for row in grade.rows() {
        let cost = lookahead(grade.sound, row, figures)?;
        let next = Choice { row, cost };
        best = Some(best.map_or(next, |best| cheaper_of(ranking, best, next)));
    }
    best
}

/// The cheapest row of the grade g one step ahead of the figures; the first in the chain among equals. Absent where
/// there is no grade g.
pub fn cheapest_row<R: Ranking>(
    ranking: &R,
    sound: &SoundTable,
    g: usize,
    figures: &Column,
) -> Option<Choice>
    ensures is { result ≡ cheapest_row (R.ranks ranking.now) sound.now.table (figure_at figures.now.at) g }
    ensures within { IfSome result (λ c. Sized (scaling sound.now.table * 10 ^ 10) c.cost) }
    ensures row { IfSome result (λ c. Within 1 sound.now.table.rows c.row) }
    ensures cheapest { CheapestOf (R.ranks ranking.now) sound.now.table (figure_at figures.now.at) g result }
{
    if !(1..=sound.table.grades).contains(&g) {
        return None;
    }
    cheapest(ranking, Grade { sound, number: g }, figures)
}
