// Weighed minutes.
ghost use Rattle.std.specs.Prelude.{◌≡◌, pos};
ghost use Rattle.rankings.specs.Costs.{Modest};
ghost use Rattle.rankings.specs.Models.{by_weight, counted_rate, weight};
ghost use Rattle.rankings.specs.Kept.{weight_ordered, weight_linear, weight_some, weight_le};

use crate::limits::{LARGEST_RATE, SMALLEST_RATE};
use crate::ranking::Ranking;
use crate::rounding::PartByPart;

// Ranks by the first part plus a rate times the second. Any rate may be given.
#[derive(Clone, Copy, Debug, PartialEq, Eq)]
pub struct Weighed {
    pub rate: i64,
}

impl Weighed {
    // What a minute weighs: the rate given, or the nearest that counts.
    fn price(&self) -> i64
        ensures { result ≡ pos (counted_rate self.now.rate) }
    {
        self.rate.clamp(SMALLEST_RATE, LARGEST_RATE)
    }

    // The money, and what the minutes weigh.
    fn weigh(&self, cost: (i64, i64)) -> i64
        requires { Modest cost }
        ensures { result ≡ weight (counted_rate self.now.rate) cost }
    {
        cost.0 + self.price() * cost.1
    }
}

impl Ranking for Weighed {
    ghost ranks = { λ s. by_weight (counted_rate s.rate) };

    ghost ordered = { λ s. weight_ordered (counted_rate s.rate) };

    ghost linear = { λ s. weight_linear (counted_rate s.rate) };

    ghost some = { λ s. weight_some (counted_rate s.rate) };

    fn no_dearer(&self, a: (i64, i64), b: (i64, i64)) -> bool {
        self.weigh(a) <= self.weigh(b)
    }
}

impl PartByPart for Weighed {
    ghost mono = { λ s. weight_le (counted_rate s.rate) };
}
