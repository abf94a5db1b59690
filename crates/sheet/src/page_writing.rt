ghost use Rattle.sheet.specs.Laws.{Kept, Back};
ghost use Rattle.sheet.specs.Written.{Wrote, OldTold, shown_of};

use crate::write_fault::WriteFault;
use crate::writing::write;
use table::Page;

/// Writes a page as a sheet, with its figures or without, with the labels of the sheet `old`, and returns the sheet's
/// length. What `out` holds beyond that stays.
// `figured` is the public call's own: the page has its figures in any case, and the caller says what is wanted.
pub fn write_page(
    out: &mut [u8],
    page: &Page,
    figured: bool,
    old: &[u8],
) -> Result<usize, WriteFault>
    ensures wrote { Wrote out.old old.now page.now.sound.table (shown_of figured page.now.figures) result out.new }
    ensures old { OldTold old.now page.now.sound.table result }
    ensures kept { Kept old.now page.now.sound.table (shown_of figured page.now.figures) result out.new }
    ensures back { Back old.now page.now.sound.table (shown_of figured page.now.figures) result out.new }
{
    // What is kept and what reads back are laws of what `write` promises.
    write(out, page, figured, old)
}
