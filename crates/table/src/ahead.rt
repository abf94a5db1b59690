ghost use Rattle.std.specs.Prelude.{◌≡◌, ◌*◌, ◌^◌, IfSome};
ghost use Rattle.rankings.specs.Costs.{Modest, Within as Sized, times};
ghost use Rattle.table.specs.Ranges.{Within};
ghost use Rattle.table.specs.Chains.{arcs_of};
ghost use Rattle.table.specs.Lookahead.{figure_at, mean, scaling, lookahead_of};

use crate::column::Column;
use crate::sound::SoundTable;
use rankings::{add, scale};

/// The sum over the arcs of the row k of weight times the destination's figure.
fn weighted_sum(sound: &SoundTable, k: usize, figures: &Column) -> (i64, i64)
    requires { Within 1 sound.now.table.rows k }
    ensures is { result ≡ mean sound.now.table (figure_at figures.now.at) (arcs_of sound.now.table k) }
    ensures within { Sized (sound.now.table.total * 10 ^ 10) result }
{
    let table = &sound.table;
    let mut sum = (0, 0);
    for x in table.arcs_of(k) {
        let arc = table.arc[x - 1];
        sum = add(sum, scale(arc.weight, figures.at[arc.destination - 1]));
    }
    sum
}

/// X(k, w): what the row k costs with the figures of where it leads, one step ahead (the Q-value), scaled to whole
/// numbers. Absent where there is no row k.
pub fn lookahead(sound: &SoundTable, k: usize, figures: &Column) -> Option<(i64, i64)>
    ensures is { result ≡ lookahead_of sound.now.table k (figure_at figures.now.at) }
    ensures within { IfSome result (Sized (scaling sound.now.table * 10 ^ 10)) }
    ensures modest { IfSome result Modest }
{
    let table = &sound.table;
    if !(1..=table.rows).contains(&k) {
        return None;
    }
    let scaling = table.fineness * (table.denominator * table.total);
    let now = scale(scaling, table.row[k - 1].cost);
    let later = scale(table.numerator, weighted_sum(sound, k, figures));
    Some(add(now, later))
}
