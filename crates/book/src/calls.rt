ghost use Rattle.std.specs.Prelude.{◌≡◌, None, IfErr};
ghost use Rattle.book.specs.Calls.{Opens, Opened, TextTold, Written, OldLine, SweptBook};

use crate::book::Book;
use crate::limits::MAX_SWEEPS;
use crate::refusal::Refusal;
use planner::{start_page, sweep_up_to};
use rankings::{Ranking, Rounding};
use sheet::{read, write_page};
use table::{Page, check_figures, check_table};

/// What a call for sweeps answers.
#[derive(Clone, Copy, Debug, PartialEq, Eq)]
pub struct SweepCount {
    /// How many sweeps ran.
    pub runs: usize,
    /// Whether the last one changed no floor and no ceiling, beside a count that is there in any case.
    pub settled: bool,
}

/// The page that a sheet opens to: its table with its figures, or with start figures where it has none.
fn read_page<R: Ranking>(ranking: &R, text: &[u8]) -> Result<Page, Refusal>
    ensures opens { Opens (R.ranks ranking.now) text.now result }
    ensures text { IfErr result (TextTold text.now) }
{
    let sheet = read(text)?;
    let sound = check_table(&sheet.table)?;
    let Some(figures) = sheet.figures else {
        return Ok(start_page(ranking, &sound));
    };
    check_figures(ranking, &sound, &figures)?;
    Ok(Page { sound, figures })
}

impl<R: Ranking> Book<R> {
    /// A book ruled for a ranking, without a table.
    pub fn new(ranking: R) -> Book<R>
        ensures { (result.ranking ≡ ranking) × (result.page ≡ None) }
    {
        Book {
            ranking,
            page: None,
        }
    }

    /// Takes the table of a sheet, and its figures, or start figures where it has none. A sheet that is refused leaves
    /// the book as it is.
    pub fn open(&mut self, text: &[u8]) -> Result<(), Refusal>
        ensures ranking { self.new.ranking ≡ self.old.ranking }
        ensures page { Opened (R.Ranking.ranks self.old.ranking) text.now self.old.page result self.new.page }
        ensures text { IfErr result (TextTold text.now) }
    {
        self.page = Some(read_page(&self.ranking, text)?);
        Ok(())
    }

    /// Writes the book's table as a sheet, with its figures or without, with the labels of an old sheet, and returns
    /// the sheet's length. What `out` holds beyond that stays; a refusal leaves all of `out`.
    // `figured` says what is wanted: the page has its figures in any case.
    pub fn write(&self, figured: bool, old: &[u8], out: &mut [u8]) -> Result<usize, Refusal>
        ensures written { Written figured old.now self.now.page out.old result out.new }
        ensures old { OldLine old.now self.now.page result }
    {
        let page = self.page.as_ref().ok_or(Refusal::NoTable)?;
        Ok(write_page(out, page, figured, old)?)
    }
}

impl<R: Rounding> Book<R> {
    /// Sweeps n times, or up to the first sweep that changes no figure.
    pub fn sweep(&mut self, n: usize) -> Result<SweepCount, Refusal>
        ensures ranking { self.new.ranking ≡ self.old.ranking }
        ensures page { SweptBook (R.Ranking.ranks self.old.ranking) (R.cheap self.old.ranking) (R.dear self.old.ranking) n self.old.page result self.new.page }
    {
        let page = self.page.as_ref().ok_or(Refusal::NoTable)?;
        if !(1..=MAX_SWEEPS).contains(&n) {
            return Err(Refusal::Sweeps);
        }
        let swept = sweep_up_to(&self.ranking, page, n);
        self.page = Some(swept.page);
        Ok(SweepCount {
            runs: swept.runs,
            settled: swept.settled,
        })
    }
}
