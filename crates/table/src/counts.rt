ghost use Rattle.std.specs.Prelude.{◌≡◌, ◌-◌, ◌<◌, ◌≤◌, length, slice_index};
ghost use Rattle.table.specs.Faults.{outside, lowest};
ghost use Rattle.table.specs.Counts.{one_more};

/// Counts one more of what is numbered `number`; 0 numbers nothing.
pub(crate) fn tally(counts: &mut [u16], number: usize)
    requires inside { number ≤ length counts.old }
    requires room { 0 < number → slice_index counts.old (number - 1) < 65535 }
    ensures { counts.new ≡ one_more number counts.old }
{
    if let Some(i) = number.checked_sub(1) {
        counts[i] += 1;
    }
}

/// The lowest number whose count does not lie from `least` to `most`.
pub(crate) fn lowest_off(counts: &[u16], least: u16, most: u16) -> Option<usize>
    ensures { result ≡ lowest (outside least most counts.now) (length counts.now) }
{
    let off = counts
        .iter()
        .position(|count| !(least..=most).contains(count));
    off.map(|i| i + 1)
}
