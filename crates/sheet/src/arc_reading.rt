ghost use Rattle.std.specs.Prelude.{◌<◌, []};
ghost use Rattle.table.specs.Ranges.{arc0};
ghost use Rattle.lines.specs.Lines.{arc_of};
ghost use Rattle.sheet.specs.Due.{arc as arc_due};
ghost use Rattle.sheet.specs.Halts.{counts_of};
ghost use Rattle.sheet.specs.Read.{RangedOf, arc_said};

use crate::group::{Due, Group};
use crate::header::Header;
use crate::ranges::count;
use lines::{ArcLine, Line, TextFault};
use table::Arc;

/// The arcs.
pub(crate) struct Arcs;

/// The arc that the line of the arc `i + 1` says, where its numbers are in range.
// `as` only widens: no `From` joins `u32` and `usize`.
fn arc_of(line: &ArcLine, due: &Due<'_>) -> Option<Arc>
    ensures { RangedOf (counts_of due.now.header.now) (arc_due due.now.i) (arc_said [] due.now.i) (arc_of line.now) result }
{
    if line.number != due.number() {
        return None;
    }
    let next = count(line.next, 0, due.header.arcs)?;
    let destination = count(line.destination, 1, due.header.grades)?;
    let weight = count(line.weight, 1, due.header.total as usize)?;
    let weight = u32::try_from(weight).ok()?;
    Some(Arc {
        next,
        destination,
        weight,
    })
}

impl Group for Arcs {
    type Kept = Arc;

    const EMPTY: Arc = Arc {
        next: 0,
        destination: 0,
        weight: 0,
    };

    ghost EMPTY = { arc0 };

    ghost count = { λ c. c.arcs };

    ghost slot = { arc_due };

    ghost said = { arc_said };

    fn count(header: &Header) -> usize {
        header.arcs
    }

    fn keep(text: &Line<'_>, due: &Due<'_>) -> Result<Arc, TextFault> {
        let Line::Arc(arc) = text else {
            return Err(due.missing());
        };
        arc_of(arc, due).ok_or(due.wrong())
    }
}
