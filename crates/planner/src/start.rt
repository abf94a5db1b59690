ghost use Rattle.std.specs.Prelude.{◌≡◌, Bool};
ghost use Rattle.rankings.specs.Choice.{is_cheaper};
ghost use Rattle.rankings.specs.Costs.{Cost, Modest, Within as Sized};
ghost use Rattle.planner.specs.Keeping.{ShownKept};
ghost use Rattle.planner.specs.Sweeps.{shown};
ghost use Rattle.planner.specs.Start.{cheapest_cost, Extremes, Start};

use rankings::{Ranking, scale};
use table::{Column, Figures, MAX_GRADES, Page, SoundTable, Table};

/// Of zero and all row costs the one that comes before all others; among equals zero, then the lowest row.
fn first_cost<F: Fn((i64, i64), (i64, i64)) -> bool>(table: &Table, comes_before: F) -> (i64, i64)
    requires { (a b : Cost) → Modest a → Modest b → F.pre comes_before a b }
    ensures is { (le : Cost → Cost → Bool) → ((a b : Cost) (r : Bool) → F.post comes_before a b r → r ≡ is_cheaper le a b) → result ≡ cheapest_cost le table.now }
    ensures within { Sized 100000 result }
{
    let mut first = (0, 0);
    for row in &table.row[..table.rows] {
        if comes_before(row.cost, first) {
            first = row.cost;
        }
    }
    first
}

/// The table with the figures that every plan starts from: the same floor and the same ceiling for each grade, and its
/// first row.
pub fn start_page<R: Ranking>(ranking: &R, sound: &SoundTable) -> Page
    ensures table { result.sound ≡ sound.now }
    ensures start { Start (R.ranks ranking.now) result }
    ensures extremes { Extremes (R.ranks ranking.now) sound.now.table }
    ensures keeps { ShownKept (R.ranks ranking.now) sound.now.table (shown result.figures) }
{
    let table = &sound.table;
    let unit = table.fineness * table.denominator;
    let cheapest = first_cost(table, |a, b| ranking.cheaper(a, b));
    let dearest = first_cost(table, |a, b| ranking.dearer(a, b));
    let floors = [scale(unit, cheapest); MAX_GRADES];
    let ceilings = [scale(unit, dearest); MAX_GRADES];
    let figures = Figures {
        row: table.first_row,
        floor: Column { at: floors },
        ceiling: Column { at: ceilings },
    };
    Page {
        sound: *sound,
        figures,
    }
}
