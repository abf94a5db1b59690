//! The lines of a group: the grades, the rows, the arcs or the figures, one after another.

ghost use Rattle.std.specs.Prelude.{◌≡◌, ℕ, ◌+◌, ◌<◌, ◌≤◌, ◌⊎◌, List, length, replicate, drop, pos, Ok, Err};
ghost use Rattle.lines.specs.Lines.{entry_of};
ghost use Rattle.lines.specs.Places.{label_of};
ghost use Rattle.lines.specs.declared.fault.TextFault.TheVariants as TextFault;
ghost use Rattle.sheet.specs.Due.{Counts, Slot, Said};
ghost use Rattle.sheet.specs.Halts.{counts_of, LineFault, Halted};
ghost use Rattle.sheet.specs.Read.{span_of, KeptOf, LineRead, GroupRead};

use crate::header::Header;
use crate::labels::Span;
use lines::{Line, TextFault, line_at};

/// The line `i + 1` of a group, which is due as the sheet's line `line`.
#[derive(Clone, Copy)]
pub(crate) struct Due<'a> {
    pub(crate) header: &'a Header,
    pub(crate) line: usize,
    pub(crate) i: usize,
    ghost few: { i < 512 },
}

impl Due<'_> {
    /// The number that the line has in its group.
    // `as` loses nothing, as the check proves; no `From` joins the types, and `try_from` would add a refusal.
    pub(crate) fn number(&self) -> i64
        ensures { result ≡ pos (self.now.i + 1) }
    {
        (self.i + 1) as i64
    }

    /// That no such line is there.
    pub(crate) fn missing(&self) -> TextFault
        ensures { result ≡ TextFault.Form self.now.line }
    {
        TextFault::Form { line: self.line }
    }

    /// That it has a number out of its range or order.
    pub(crate) fn wrong(&self) -> TextFault
        ensures { result ≡ TextFault.Range self.now.line }
    {
        TextFault::Range { line: self.line }
    }
}

/// A group of lines, numbered from 1.
pub(crate) trait Group {
    /// What is kept of a line, its label apart.
    type Kept: Copy;

    /// What stands for the lines beyond the last.
    const EMPTY: Self::Kept;

    ghost EMPTY: { Self.Kept };

    // how many lines there are, by the first line of the sheet
    ghost count: { Counts → ℕ };

    // the line i + 1
    ghost slot: { ℕ → Slot };

    // what it says, from its label and what is kept
    ghost said: { List ℕ → (i : ℕ) → Self.Kept → Said (slot i) };

    fn count(header: &Header) -> usize
        ensures { result ≡ count (counts_of header.now) };

    // Each kind's `keep` is a pattern and a call of its own: one body for all would take both as parameters.
    /// What is kept of `text`, where it is the line that is due, with each number in range.
    fn keep(text: &Line<'_>, due: &Due<'_>) -> Result<Self::Kept, TextFault>
        ensures { KeptOf (counts_of due.now.header.now) (slot due.now.i) (λ x. said (label_of text.now) due.now.i x) due.now.line (entry_of text.now) result };
}

/// Where a line's label lies: up to the byte that ends the line, and of no bytes where its kind has none.
fn label_span(text: &Line<'_>, next: usize) -> Span
    requires { length (label_of text.now) + 1 ≤ next }
    ensures { result ≡ span_of text.now next }
{
    let label = match text {
        Line::Grade(grade) => grade.label.len(),
        Line::Row(row) => row.label.len(),
        _ => 0,
    };
    let end = next - 1;
    Span {
        start: end - label,
        end,
    }
}

/// The line that is due at the place `at`: what is kept of it, where its label lies, and the place after it.
fn group_line<G: Group>(
    sheet: &[u8],
    at: usize,
    due: &Due<'_>,
) -> Result<(G::Kept, Span, usize), TextFault>
    ensures { elim result [ Ok p ↦ LineRead (counts_of due.now.header.now) (G.slot due.now.i) (λ label. G.said label due.now.i p.0) sheet.now at p.1 p.2 | Err e ↦ LineFault (counts_of due.now.header.now) (G.slot due.now.i) due.now.line (drop at sheet.now) e ] }
{
    let Ok((text, next)) = line_at(sheet, at) else {
        return Err(due.missing());
    };
    let kept = G::keep(&text, due)?;
    Ok((kept, label_span(&text, next), next))
}

/// Reads the lines of a group from the place `at` on, the first of them the sheet's line `line`, and returns the place
/// after them. What is kept of each goes to `kept`, and where its label lies to `labels`, which has no places for a kind
/// of line without a label.
// The caller lends the places: arrays that are returned would be copied.
pub(crate) fn read_group<G: Group>(
    sheet: &[u8],
    at: usize,
    line: usize,
    header: &Header,
    kept: &mut [G::Kept],
    labels: &mut [Span],
) -> Result<usize, TextFault>
    requires place { at ≤ length sheet.now }
    requires few { (G.count (counts_of header.now) ≤ length kept.old) × (length kept.old ≤ 512) }
    requires line { line < 1000 }
    requires empty { kept.old ≡ replicate (length kept.old) G.EMPTY }
    requires labels { (G.count (counts_of header.now) ≤ length labels.old) ⊎ ((label other : List ℕ) (i : ℕ) (x : G.Kept) → G.said label i x ≡ G.said other i x) }
    ensures { elim result [ Ok next ↦ GroupRead (counts_of header.now) G.slot G.said sheet.now at (G.count (counts_of header.now)) G.EMPTY kept.new labels.new next | Err e ↦ Halted (counts_of header.now) G.slot (G.count (counts_of header.now)) line (drop at sheet.now) e ] }
{
    let mut at = at;
    for i in 0..G::count(header) {
        let due = Due {
            header,
            line: line + i,
            i,
        };
        let (read, label, next) = group_line::<G>(sheet, at, &due)?;
        kept[i] = read;
        if i < labels.len() {
            labels[i] = label;
        }
        at = next;
    }
    Ok(at)
}
