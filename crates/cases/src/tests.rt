use crate::answers::*;
use crate::damaged::*;
use crate::edit::*;
use crate::largest::*;
use crate::shops::*;
use book::{Book, MAX_SHEET, MAX_SWEEPS, RECOUNT_SWEEPS};
use rankings::Money;
use sheet::read;
use std::alloc::Global;
use std::process::Abort;
use std::test::Fail;

#[test]
fn shops_recounted(rt: HostRuntime) {
    assert!(rt; answers(TWO_GRADES, TWO_GRADES_RECOUNTED));
    assert!(rt; answers(TWO_GRADES_RECOUNTED, TWO_GRADES_RECOUNTED));
    assert!(rt; answers(TWO_GRADES_EXACT, TWO_GRADES_EXACT));
    assert!(rt; answers(MACHINE, MACHINE_RECOUNTED));
}

/// A figure of the machine stands for a tenth of itself.
#[test]
fn machine_bounded(rt: HostRuntime) -> Result<(), Fail> {
    let mut out = [0; MAX_SHEET];
    let sheet = read(printed(MACHINE, &mut out))?;
    let figures = sheet.figures.ok_or("a recounted sheet has no figures")?;
    for (k, known) in MACHINE_KNOWN.iter().enumerate() {
        let cost = 10 * i64::from(known.coins);
        assert!(rt; figures.row[k] == known.row);
        assert!(rt; figures.floor.at[k].0 <= cost && cost <= figures.ceiling.at[k].0);
    }
    Ok(())
}

/// Passes if each change to the sheet makes a recount print what is due, as the closure judges it.
fn each_due<F: Fn(&[u8], &[u8]) -> bool + Drop>(
    rt: &impl Abort,
    heap: Global,
    sheet: &[u8],
    edits: &[Edit],
    is_due: F,
) -> Result<(), Fail>
    requires { F.IsAlwaysCallable is_due }
{
    for (k, edit) in edits.iter().enumerate() {
        let text = changed(heap, sheet, edit)?;
        assert!(rt; is_due(&text, edit.answer), "edit {k} of its table, from 0");
    }
    Ok(())
}

#[test]
fn text_refused(rt: HostRuntime) -> Result<(), Fail> {
    assert!(rt; answers(&[b'\n'; 32_769], b"no 1 1 0 0\n"));
    assert!(rt; answers(&[b'\n'; MAX_SHEET], b"no 2 1 1 0\n"));
    assert!(rt; answers(b"", b"no 2 1 1 0\n"));
    each_due(&rt, rt.alloc(), TWO_GRADES, &FORM, answers)?;
    each_due(&rt, rt.alloc(), TWO_GRADES, &RANGE, answers)
}

#[test]
fn tables_refused(rt: HostRuntime) -> Result<(), Fail> {
    assert!(rt; answers(LOOSE_ROWS, b"no 5 2 2 0\n"));
    assert!(rt; answers(LOOSE_ARCS, b"no 7 2 2 0\n"));
    each_due(&rt, rt.alloc(), TWO_GRADES, &TABLE, answers)
}

#[test]
fn figures_refused(rt: HostRuntime) -> Result<(), Fail> {
    each_due(&rt, rt.alloc(), TWO_GRADES_EXACT, &FIGURES, answers)
}

#[test]
fn ends_of_ranges_taken(rt: HostRuntime) -> Result<(), Fail> {
    each_due(&rt, rt.alloc(), TWO_GRADES, &WITHIN, begins)
}

#[test]
fn swept_one_by_one(rt: HostRuntime) -> Result<(), Fail> {
    let mut book = Book::new(Money);
    assert!(rt; book.open(TWO_GRADES).is_ok());
    for lines in TWO_GRADES_SWEPT {
        assert!(rt; ends(&book, lines) && book.sweep(1).is_ok());
    }
    let count = book.sweep(RECOUNT_SWEEPS)?;
    assert!(rt; count.settled && count.runs == 4);
    Ok(())
}

#[test]
fn calls_refused(rt: HostRuntime) {
    let mut book = Book::new(Money);
    assert!(rt; refused(book.sweep(1), 12, 4, (0, 0)));
    assert!(rt; book.open(TWO_GRADES).is_ok());
    assert!(rt; refused(book.open(LOOSE_ROWS), 5, 2, (2, 0)));
    assert!(rt; refused(book.sweep(0), 15, 4, (0, 0)));
    assert!(rt; refused(book.sweep(MAX_SWEEPS + 1), 15, 4, (0, 0)));
    assert!(rt; ends(&book, TWO_GRADES_SWEPT[0]));
}

#[test]
fn writings_refused(rt: HostRuntime) {
    let mut short = [0; 100];
    let mut book = Book::new(Money);
    assert!(rt; refused(book.write(true, TWO_GRADES, &mut short), 12, 4, (0, 0)));
    assert!(rt; book.open(TWO_GRADES).is_ok());
    assert!(rt; refused(book.write(false, MACHINE, &mut short), 21, 4, (0, 0)));
    assert!(rt; refused(book.write(false, b"sheet\n", &mut short), 21, 4, (1, 0)));
    assert!(rt;
        refused(
            book.write(false, TWO_GRADES, &mut short),
            22,
            4,
            (TWO_GRADES.len(), 0)
        )
    );
    assert!(rt; short == [0; 100]);
}

/// The largest sheet is written again as it is, also after it was opened without its figures.
#[test]
fn largest_kept(rt: HostRuntime) -> Result<(), Fail> {
    let sheet = largest(rt.alloc())?;
    let mut book = Book::new(Money);
    assert!(rt; sheet.len() == 16_017 && book.open(&sheet).is_ok() && writes_again(&book, &sheet));
    let mut bare = [0; MAX_SHEET];
    let length = book.write(false, &sheet, &mut bare)?;
    assert!(rt;
        length == 14_172 && book.open(&bare[..length]).is_ok() && writes_again(&book, &sheet)
    );
    Ok(())
}
