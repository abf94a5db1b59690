ghost use Rattle.std.specs.Prelude.{◌≤◌, length};
ghost use Rattle.std.specs.List.{All};
ghost use Rattle.std.specs.Iterator.{YieldsFirst, item_count};
ghost use Rattle.table.specs.Walks.{ahead, chain_from, AllIn, rows_ahead, arcs_ahead, Along};
ghost use Rattle.table.specs.Ranges.{Within};
ghost use Rattle.table.specs.Chains.{rows_of, arcs_of};

use crate::chains::Linked;
use crate::rows::{Arc, Row};
use crate::table::Table;

/// The numbers of a chain. It leaves one that turns back on itself after `left` steps.
#[derive(Clone, Copy)]
pub struct Walk<'a, T> {
    links: &'a [T],
    at: usize,
    left: usize,
}

impl<'a, T: Linked> Walk<'a, T> {
    /// The chain through the links that starts at `first`.
    pub(crate) fn new(links: &'a [T], first: usize) -> Self
        requires start { first ≤ length links.now }
        requires linked { All (λ x. T.next_link x ≤ length links.now) links.now }
        ensures { Along (ahead T.next_link T.none) (length links.now) (chain_from T.next_link T.none links.now first) result }
    {
        let left = links.len();
        Walk {
            links,
            at: first,
            left,
        }
    }
}

impl<T: Linked> Iterator for Walk<'_, T> {
    type Item = usize;

    ghost can_next = { λ s. AllIn (length s.links.now) (ahead T.next_link T.none s) };

    ghost next_gives = { YieldsFirst (ahead T.next_link T.none) };

    ghost remaining = { item_count (ahead T.next_link T.none) };

    fn next(&mut self) -> Option<usize> {
        if self.left == 0 || self.at == 0 {
            return None;
        }
        let here = self.at;
        self.at = self.links[here - 1].next_link();
        self.left -= 1;
        Some(here)
    }
}

impl Table {
    /// The rows of the grade g, in chain order.
    pub(crate) fn rows_of(&self, g: usize) -> Walk<'_, Row>
        requires { Within 1 self.now.grades g }
        ensures { Along rows_ahead self.now.rows (rows_of self.now g) result }
    {
        Walk::new(&self.row[..self.rows], self.first_row[g - 1])
    }

    /// The arcs of the row k, in chain order.
    // k stays a bare number: callers of lookahead have one, and a struct for a row would take its None from them.
    pub(crate) fn arcs_of(&self, k: usize) -> Walk<'_, Arc>
        requires { Within 1 self.now.rows k }
        ensures { Along arcs_ahead self.now.arcs (arcs_of self.now k) result }
    {
        Walk::new(&self.arc[..self.arcs], self.row[k - 1].first_arc)
    }
}
