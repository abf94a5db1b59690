// What a ranking of costs is: its laws and its questions.
ghost use Rattle.std.specs.Prelude.{◌≡◌, Bool};
ghost use Rattle.rankings.specs.Costs.{Cost, Modest};
ghost use Rattle.rankings.specs.Choice.{is_cheaper, is_dearer};
ghost use Rattle.rankings.specs.Laws.{Ordered, Linear, SomeDearer};

// An order of costs by how dear they are. The relation speaks of costs of any size; the questions are for those whose
// parts are within `RANKED_PART` of zero. A cost passes as a bare pair by a rule of the project, so that no type says so.
pub trait Ranking {
    // a is no dearer than b
    ghost ranks: { Self → Cost → Cost → Bool };

    fn no_dearer(&self, a: (i64, i64), b: (i64, i64)) -> bool
        requires { (Modest a) × (Modest b) }
        ensures { result ≡ ranks self.now a b };

    // Whether a is dearer than b.
    fn dearer(&self, a: (i64, i64), b: (i64, i64)) -> bool
        requires { (Modest a) × (Modest b) }
        ensures { result ≡ is_dearer (ranks self.now) a b }
    {
        !self.no_dearer(a, b)
    }

    // Whether a is cheaper than b.
    fn cheaper(&self, a: (i64, i64), b: (i64, i64)) -> bool
        requires { (Modest a) × (Modest b) }
        ensures { result ≡ is_cheaper (ranks self.now) a b }
    {
        self.dearer(b, a)
    }

    ghost ordered: { (s : Self) → Ordered (ranks s) };

    ghost linear: { (s : Self) → Linear (ranks s) };

    ghost some: { (s : Self) → SomeDearer (ranks s) };
}
