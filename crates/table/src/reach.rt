ghost use Rattle.std.specs.Prelude.{◌≡◌, ◌*◌, ◌≤◌, length, replicate};
ghost use Rattle.std.specs.List.{flat_map};
ghost use Rattle.table.specs.Walks.{chain_from};
ghost use Rattle.table.specs.Faults.{lowest, loose, reached_rows, reached_arcs};

use crate::chains::{Chains, Head, Linked};
use crate::counts::{lowest_off, tally};
use crate::limits::{MAX_ARCS, MAX_ROWS};
use crate::table::Table;
use crate::walk::Walk;

impl<H: Head, T: Linked> Chains<'_, H, T> {
    /// The lowest link in no head's chain. The marks start at 0. A chain that turns back on itself is left after as
    /// many steps as there are links.
    fn loose<const N: usize>(self, mut marks: [u16; N]) -> Option<usize>
        requires zero { marks ≡ replicate N 0 }
        requires room { length self.links.now ≤ N }
        requires few { length self.heads.now * length self.links.now ≤ 65535 }
        ensures { result ≡ lowest (loose (flat_map (λ h. chain_from T.next_link T.none self.entry.links.now (H.head h)) self.entry.heads.now)) (length self.entry.links.now) }
    {
        for head in self.heads {
            for k in Walk::new(self.links, head.head()) {
                tally(&mut marks, k);
            }
        }
        lowest_off(&marks[..self.links.len()], 1, u16::MAX)
    }
}

/// The lowest row in no grade's chain.
pub(crate) fn loose_row(table: &Table) -> Option<usize>
    ensures { result ≡ lowest (loose (reached_rows table.now)) table.now.rows }
{
    table.row_chains().loose([0; MAX_ROWS])
}

/// The lowest arc in no row's chain.
pub(crate) fn loose_arc(table: &Table) -> Option<usize>
    ensures { result ≡ lowest (loose (reached_arcs table.now)) table.now.arcs }
{
    table.arc_chains().loose([0; MAX_ARCS])
}
