// The first cheapest of several costs, by any ranking.
ghost use Rattle.rankings.specs.Choice.{AllModest, Chosen};

use crate::ranking::Ranking;

// The place of the first cheapest of the costs, if there are any. A later one takes the place of an earlier only if it
// is cheaper, so that the first of equals stays.
pub fn first_cheapest<R: Ranking>(ranking: &R, costs: &[(i64, i64)]) -> Option<usize>
    requires { AllModest costs.now }
    ensures { Chosen (R.ranks ranking.now) costs.now result }
{
    if costs.is_empty() {
        return None;
    }
    let mut best = 0;
    for (i, cost) in costs.iter().enumerate() {
        if ranking.cheaper(*cost, costs[best]) {
            best = i;
        }
    }
    Some(best)
}
