// Quotients taken to whole numbers, of either sign. The machine's `/` goes toward zero, so its quotient is put right
// where the remainder has the sign that shows that it went the wrong way. That form is the project's rule, and down and
// up are two functions, since one that took the side as a parameter would branch on it.
ghost use Rattle.std.specs.Prelude.{◌≡◌, ◌≤◌, unsigned_abs};
ghost use Rattle.rankings.specs.Costs.{Down, Up, floor, ceil, ranked_part, largest_divisor};

// What a rounding divides by: 1 to `LARGEST_DIVISOR`.
#[derive(Clone, Copy, Debug, PartialEq, Eq)]
pub struct Divisor {
    pub by: u32,
    ghost positive: { 1 ≤ by },
    ghost bounded: { by ≤ largest_divisor },
}

// x / m taken down to a whole number.
pub fn floor_div(x: i64, m: Divisor) -> i64
    requires { unsigned_abs x ≤ ranked_part }
    ensures is { result ≡ floor x m.by }
    ensures down { Down x m.by result }
    ensures small { unsigned_abs result ≤ unsigned_abs x }
{
    let m = i64::from(m.by);
    let quotient = x / m;
    if x % m < 0 { quotient - 1 } else { quotient }
}

// x / m taken up to a whole number.
pub fn ceil_div(x: i64, m: Divisor) -> i64
    requires { unsigned_abs x ≤ ranked_part }
    ensures is { result ≡ ceil x m.by }
    ensures up { Up x m.by result }
    ensures small { unsigned_abs result ≤ unsigned_abs x }
{
    let m = i64::from(m.by);
    let quotient = x / m;
    if x % m > 0 { quotient + 1 } else { quotient }
}
