ghost use Rattle.std.specs.Prelude.{T};
ghost use Rattle.planner.specs.Policies.{FloorsBound, CeilingsBound};

/// What figures mean, for every ranking that keeps the laws and every sound table: floors that keep their rule lie under
/// what every policy costs, and ceilings that keep theirs over what the plan costs. It answers yes: the law is its
/// contract.
pub fn bounds_stand() -> bool
    ensures answer { T result }
    ensures floors { FloorsBound }
    ensures ceilings { CeilingsBound }
{
    true
}
