// What a rounding of costs is, and the rounding part by part.
ghost use Rattle.std.specs.Prelude.{◌≡◌, ℕ, true, ◌≤ℤ◌};
ghost use Rattle.rankings.specs.Costs.{Cost, Modest};
ghost use Rattle.rankings.specs.Laws.{Rounds};
ghost use Rattle.rankings.specs.Models.{both_down, both_up};
ghost use Rattle.rankings.specs.Quotients.{rounds_by_parts};

use crate::division::{Divisor, ceil_div, floor_div};
use crate::ranking::Ranking;

// Two ways to divide a cost by m and take it to whole numbers, one to the cheap side and one to the dear side. They are
// functions of the cost and m, so that the same ones always round alike.
pub trait Rounding: Ranking {
    ghost cheap: { Self → Cost → ℕ → Cost };

    ghost dear: { Self → Cost → ℕ → Cost };

    fn round_cheap(&self, cost: (i64, i64), m: Divisor) -> (i64, i64)
        requires { Modest cost }
        ensures is { result ≡ cheap self.now cost m.by }
        ensures modest { Modest result };

    fn round_dear(&self, cost: (i64, i64), m: Divisor) -> (i64, i64)
        requires { Modest cost }
        ensures is { result ≡ dear self.now cost m.by }
        ensures modest { Modest result };

    ghost rounds: { (s : Self) → Rounds (Self.Ranking.ranks s) (cheap s) (dear s) };
}

// A ranking by which what is no more in either part is no dearer. For each of them both parts taken down, and both taken
// up, are a rounding.
pub trait PartByPart: Ranking {
    ghost mono: { (s : Self) (a b : Cost) → a.0 ≤ℤ b.0 → a.1 ≤ℤ b.1 → Self.Ranking.ranks s a b ≡ true };
}

impl<R: PartByPart> Rounding for R {
    ghost cheap = { λ _. both_down };

    ghost dear = { λ _. both_up };

    ghost rounds = { λ s. rounds_by_parts (R.Ranking.ranks s) (R.mono s) };

    fn round_cheap(&self, cost: (i64, i64), m: Divisor) -> (i64, i64) {
        (floor_div(cost.0, m), floor_div(cost.1, m))
    }

    fn round_dear(&self, cost: (i64, i64), m: Divisor) -> (i64, i64) {
        (ceil_div(cost.0, m), ceil_div(cost.1, m))
    }
}
