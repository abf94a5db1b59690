ghost use Rattle.std.specs.Prelude.{◌≡◌, ◌≤◌, Some, None, unsigned_abs};
ghost use Rattle.sheet.specs.Read.{CountOf};

/// `z` as a count from `low` to `high`, where it is one.
pub(crate) fn count(z: i64, low: usize, high: usize) -> Option<usize>
    ensures { CountOf z low high result }
{
    usize::try_from(z).ok().filter(|n| (low..=high).contains(n))
}

/// A cost of those two parts, where each lies at most `most` from 0, on either side.
pub(crate) fn cost(first: i64, second: i64, most: i64) -> Option<(i64, i64)>
    ensures { elim result [ Some c ↦ (c ≡ (first, second)) × (unsigned_abs first ≤ unsigned_abs most) × (unsigned_abs second ≤ unsigned_abs most) | None ↦ unsigned_abs first ≤ unsigned_abs most → unsigned_abs second ≤ unsigned_abs most → ⊥ ] }
{
    let near = |z: i64| z.unsigned_abs() <= most.unsigned_abs();
    (near(first) && near(second)).then_some((first, second))
}
