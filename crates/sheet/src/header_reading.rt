ghost use Rattle.std.specs.Prelude.{◌≡◌, ◌≤◌, length, drop, Some, None, Ok, Err, ◌≢◌};
ghost use Rattle.lines.specs.Lines.{header_of};
ghost use Rattle.sheet.specs.Due.{Counts, Counted, header_said};
ghost use Rattle.sheet.specs.Halts.{counts_of, HeaderFault};
ghost use Rattle.sheet.specs.Refused.{HeaderTaken};

use crate::header::Header;
use crate::ranges::count;
use lines::{HeaderLine, Line, TextFault, line_at};
use table::{MAX_ARCS, MAX_DENOMINATOR, MAX_FINENESS, MAX_GRADES, MAX_ROWS, MAX_TOTAL};

/// The line's numbers, where all of them are in range.
// `as` only widens: no `From` joins `u32` and `usize`.
fn header_of(line: &HeaderLine) -> Option<Header>
    ensures { elim result [ Some h ↦ header_of line.now ≡ header_said (counts_of h) | None ↦ (c : Counts) → Counted c → header_of line.now ≢ header_said c ] }
{
    let grades = count(line.grades, 1, MAX_GRADES)?;
    let rows = count(line.rows, 1, MAX_ROWS)?;
    let arcs = count(line.arcs, 1, MAX_ARCS)?;
    let total = u32::try_from(count(line.total, 1, MAX_TOTAL as usize)?).ok()?;
    let denominator = u32::try_from(count(line.denominator, 1, MAX_DENOMINATOR as usize)?).ok()?;
    let numerator = u32::try_from(count(line.numerator, 0, denominator as usize - 1)?).ok()?;
    let fineness = u32::try_from(count(line.fineness, 1, MAX_FINENESS as usize)?).ok()?;
    let figures = count(line.figures, 0, grades)?;
    if figures != 0 && figures != grades {
        return None;
    }
    let figured = figures != 0;
    Some(Header {
        grades,
        rows,
        arcs,
        total,
        numerator,
        denominator,
        fineness,
        figured,
    })
}

/// The first line, and the place after it.
pub(crate) fn read_header(sheet: &[u8]) -> Result<(Header, usize), TextFault>
    ensures { elim result [ Ok p ↦ HeaderTaken sheet.now (counts_of p.0) (drop p.1 sheet.now) × (p.1 ≤ length sheet.now) | Err e ↦ HeaderFault sheet.now e ] }
{
    let Ok((Line::Header(line), next)) = line_at(sheet, 0) else {
        return Err(TextFault::Form { line: 1 });
    };
    let header = header_of(&line).ok_or(TextFault::Range { line: 1 })?;
    Ok((header, next))
}
