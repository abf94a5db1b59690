ghost use Rattle.std.specs.Prelude.{T};
ghost use Rattle.worked.specs.Worked.{Worked};

/// The worked cases: what start figures, sweeps, improvement rounds, filed lines and roundings come to for two small
/// shops, in numbers that a reader can work out by hand. It answers yes: the table of cases is its contract.
pub fn worked_cases_stand() -> bool
    ensures answer { T result }
    ensures cases { Worked }
{
    true
}
