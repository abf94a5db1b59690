// Sums and multiples of costs, part by part.
ghost use Rattle.std.specs.Prelude.{◌≡◌};
ghost use Rattle.rankings.specs.Costs.{Modest, plus, times};

// a and b together.
pub fn add(a: (i64, i64), b: (i64, i64)) -> (i64, i64)
    requires { Modest (plus a b) }
    ensures is { result ≡ plus a b }
    ensures modest { Modest result }
{
    (a.0 + b.0, a.1 + b.1)
}

// k times a.
pub fn scale(k: u32, a: (i64, i64)) -> (i64, i64)
    requires { Modest (times k a) }
    ensures is { result ≡ times k a }
    ensures modest { Modest result }
{
    let k = i64::from(k);
    (k * a.0, k * a.1)
}
