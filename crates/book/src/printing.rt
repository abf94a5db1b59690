ghost use Rattle.std.specs.Prelude.{◌≤◌, length};
ghost use Rattle.text.specs.Writing.{Writes};
ghost use Rattle.book.specs.Printing.{refusal_text, Recounted, RecountTold, Printed, PrintedOnly};

use crate::book::Book;
use crate::limits::RECOUNT_SWEEPS;
use crate::refusal::Refusal;
use rankings::Money;
use sheet::MAX_SHEET;
use text::{End, write_bytes, write_count};

/// Writes the line of a refusal: `no`, its number, its layer and both places. By hand and not by `Display`, since no
/// clause says that a `fmt` succeeds where there is room, and `recount` promises the line.
fn write_refusal(out: &mut [u8], refusal: &Refusal) -> Option<usize>
    ensures writes { Writes out.old 0 (refusal_text refusal.now) result out.new }
    ensures short { length (refusal_text refusal.now) ≤ 64 }
{
    let number = u64::from(refusal.number());
    let layer = u32::from(refusal.layer());
    let (first, second) = refusal.places();
    let at = write_bytes(out, 0, b"no ")?;
    let at = write_count(out, at, number, End::Blank)?;
    let at = write_count(out, at, u64::from(layer), End::Blank)?;
    // `as` loses nothing: no `From` joins `usize` and `u64`.
    let at = write_count(out, at, first as u64, End::Blank)?;
    write_count(out, at, second as u64, End::Line)
}

/// Opens the sheet by money only, sweeps, and writes it with figures.
fn recounted(sheet: &[u8], out: &mut [u8; MAX_SHEET]) -> Result<usize, Refusal>
    ensures recounted { Recounted sheet.now out.old result out.new }
    ensures told { RecountTold sheet.now result }
{
    let mut book = Book::new(Money);
    book.open(sheet)?;
    let _count = book.sweep(RECOUNT_SWEEPS)?;
    book.write(true, sheet, out)
}

/// What the program prints for a sheet, into `out`: the sheet with figures, or the line of the refusal. Returns how
/// many bytes that is.
// A length beside the caller's buffer: by a rule of the project a public call fills what it is lent.
pub fn recount(sheet: &[u8], out: &mut [u8; MAX_SHEET]) -> usize
    ensures printed { Printed sheet.now out.old result out.new }
    ensures only { PrintedOnly sheet.now out.old result out.new }
    ensures within { result ≤ length out.new }
{
    // Both arms write into `out`, so that a closure for the error would have to borrow it too.
    match recounted(sheet, out) {
        Ok(length) => length,
        // The buffer has room for every such line.
        Err(refusal) => write_refusal(out, &refusal).unwrap(),
    }
}
