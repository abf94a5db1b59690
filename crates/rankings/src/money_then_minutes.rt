// Money then minutes.
ghost use Rattle.rankings.specs.Models.{by_money_then_minutes};
ghost use Rattle.rankings.specs.Kept.{minutes_ordered, minutes_linear, minutes_some, minutes_mono};

use crate::ranking::Ranking;
use crate::rounding::PartByPart;

// Ranks by the first part, and by the second where the first parts are equal.
#[derive(Clone, Copy, Debug, PartialEq, Eq)]
pub struct MoneyThenMinutes;

impl Ranking for MoneyThenMinutes {
    ghost ranks = { λ _. by_money_then_minutes };

    ghost ordered = { λ _. minutes_ordered };

    ghost linear = { λ _. minutes_linear };

    ghost some = { λ _. minutes_some };

    fn no_dearer(&self, a: (i64, i64), b: (i64, i64)) -> bool {
        a <= b
    }
}

impl PartByPart for MoneyThenMinutes {
    ghost mono = { λ _. minutes_mono };
}
