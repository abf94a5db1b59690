// Money only.
ghost use Rattle.rankings.specs.Models.{by_money};
ghost use Rattle.rankings.specs.Kept.{money_ordered, money_linear, money_some, money_mono};

use crate::ranking::Ranking;
use crate::rounding::PartByPart;

// Ranks by the first part alone.
#[derive(Clone, Copy, Debug, PartialEq, Eq)]
pub struct Money;

impl Ranking for Money {
    ghost ranks = { λ _. by_money };

    ghost ordered = { λ _. money_ordered };

    ghost linear = { λ _. money_linear };

    ghost some = { λ _. money_some };

    fn no_dearer(&self, a: (i64, i64), b: (i64, i64)) -> bool {
        a.0 <= b.0
    }
}

impl PartByPart for Money {
    ghost mono = { λ _. money_mono };
}
