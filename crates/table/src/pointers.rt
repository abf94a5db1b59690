ghost use Rattle.std.specs.Prelude.{◌≡◌, ◌+◌, ◌≤◌, ◌++◌, length, map, replicate};
ghost use Rattle.table.specs.Faults.{lowest, mispointed, row_pointers, arc_pointers};

use crate::chains::{Chains, Head, Linked};
use crate::counts::{lowest_off, tally};
use crate::limits::{MAX_ARCS, MAX_ROWS};
use crate::table::Table;

impl<H: Head, T: Linked> Chains<'_, H, T> {
    /// The lowest link to which not exactly one head or link points. The counts start at 0.
    fn mispointed<const N: usize>(self, mut counts: [u16; N]) -> Option<usize>
        requires zero { counts ≡ replicate N 0 }
        requires room { length self.links.now ≤ N }
        requires few { length self.heads.now + length self.links.now ≤ 65535 }
        ensures { result ≡ lowest (mispointed (map H.head self.entry.heads.now ++ map T.next_link self.entry.links.now)) (length self.entry.links.now) }
    {
        for head in self.heads {
            tally(&mut counts, head.head());
        }
        for link in self.links {
            tally(&mut counts, link.next_link());
        }
        lowest_off(&counts[..self.links.len()], 1, 1)
    }
}

/// The lowest row to which not exactly one first-row or next index points.
pub(crate) fn mispointed_row(table: &Table) -> Option<usize>
    ensures { result ≡ lowest (mispointed (row_pointers table.now)) table.now.rows }
{
    table.row_chains().mispointed([0; MAX_ROWS])
}

/// The lowest arc to which not exactly one first-arc or next index points.
pub(crate) fn mispointed_arc(table: &Table) -> Option<usize>
    ensures { result ≡ lowest (mispointed (arc_pointers table.now)) table.now.arcs }
{
    table.arc_chains().mispointed([0; MAX_ARCS])
}
