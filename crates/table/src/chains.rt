ghost use Rattle.std.specs.Prelude.{◌≡◌, ◌≤◌, ℕ, length, take};
ghost use Rattle.std.specs.List.{All};
ghost use Rattle.table.specs.Ranges.{Within, row0, arc0};

use crate::rows::{Arc, Row};
use crate::table::Table;

/// What is linked in chains: each has the number of the next, 0 at the last.
pub trait Linked {
    // the number of the next, 0 at the last
    ghost next_link: { Self → ℕ };

    // what a place past the last link is read as, in the clauses alone
    ghost none: { Self };

    fn next_link(&self) -> usize
        ensures { result ≡ next_link self.now };
}

impl Linked for Row {
    ghost next_link = { λ r. r.next };

    ghost none = { row0 };

    fn next_link(&self) -> usize {
        let Row { next, .. } = *self;
        next
    }
}

impl Linked for Arc {
    ghost next_link = { λ x. x.next };

    ghost none = { arc0 };

    fn next_link(&self) -> usize {
        let Arc { next, .. } = *self;
        next
    }
}

/// What a chain starts at: the number of its first.
pub(crate) trait Head {
    // the number of the chain's first
    ghost head: { Self → ℕ };

    fn head(&self) -> usize
        ensures { result ≡ head self.now };
}

/// A grade's first row.
impl Head for usize {
    ghost head = { λ k. k };

    fn head(&self) -> usize {
        *self
    }
}

/// A row's first arc.
impl Head for Row {
    ghost head = { λ r. r.first_arc };

    fn head(&self) -> usize {
        self.first_arc
    }
}

/// Heads, and the links that their chains run through.
#[derive(Drop)]
pub(crate) struct Chains<'a, H: Head, T: Linked> {
    pub heads: &'a [H],
    pub links: &'a [T],
    ghost headed: { All (λ h. Within 1 (length links.now) (H.head h)) heads.now },
    ghost linked: { All (λ x. T.next_link x ≤ length links.now) links.now },
}

impl Table {
    /// The grades' chains of rows.
    pub(crate) fn row_chains(&self) -> Chains<'_, usize, Row>
        ensures heads { result.heads.now ≡ take self.now.grades self.now.first_row }
        ensures links { result.links.now ≡ take self.now.rows self.now.row }
    {
        Chains {
            heads: &self.first_row[..self.grades],
            links: &self.row[..self.rows],
        }
    }

    /// The rows' chains of arcs.
    pub(crate) fn arc_chains(&self) -> Chains<'_, Row, Arc>
        ensures heads { result.heads.now ≡ take self.now.rows self.now.row }
        ensures links { result.links.now ≡ take self.now.arcs self.now.arc }
    {
        Chains {
            heads: &self.row[..self.rows],
            links: &self.arc[..self.arcs],
        }
    }
}
