ghost use Rattle.std.specs.Prelude.{◌≡◌, ◌+◌, ◌-◌, MatchOption};
ghost use Rattle.rankings.specs.Costs.{Modest, times};
ghost use Rattle.table.specs.Ranges.{Within};
ghost use Rattle.table.specs.Walks.{rows_ahead, Along};
ghost use Rattle.table.specs.Chains.{rows_of};
ghost use Rattle.table.specs.Lookahead.{figure_at, scaling};
ghost use Rattle.table.specs.Rules.{has, plan_row};
ghost use Rattle.std.specs.Iterator.{at_most};

use crate::column::Column;
use crate::limits::MAX_GRADES;
use crate::rows::Row;
use crate::sound::SoundTable;
use crate::walk::Walk;
use rankings::scale;

/// A grade of a sound table.
#[derive(Clone, Copy)]
pub struct Grade<'a> {
    pub sound: &'a SoundTable,
    pub number: usize,
    ghost among: { Within 1 sound.now.table.grades number },
}

impl<'a> Grade<'a> {
    /// The grade's rows, in chain order.
    pub fn rows(self) -> Walk<'a, Row>
        ensures { Along rows_ahead self.entry.sound.now.table.rows (rows_of self.entry.sound.now.table self.entry.number) result }
    {
        self.sound.table.rows_of(self.number)
    }

    /// Whether k is one of the grade's rows.
    pub(crate) fn has_row(self, k: usize) -> bool
        ensures { result ≡ has k (rows_of self.entry.sound.now.table self.entry.number) }
    {
        self.rows().any(|row| row == k)
    }

    /// The grade's plan row.
    pub fn plan_row(self, rows: &[usize; MAX_GRADES]) -> usize
        ensures { result ≡ plan_row rows.now self.entry.number }
    {
        rows[self.number - 1]
    }

    /// The grade's figure.
    pub fn figure(self, figures: &Column) -> (i64, i64)
        ensures { result ≡ figure_at figures.now.at self.entry.number }
    {
        figures.at[self.number - 1]
    }

    /// b · D times the grade's figure, as it is compared with X.
    pub(crate) fn scaled_figure(self, figures: &Column) -> (i64, i64)
        ensures is { result ≡ times (scaling self.entry.sound.now.table) (figure_at figures.now.at self.entry.number) }
        ensures modest { Modest result }
    {
        let table = &self.sound.table;
        scale(table.denominator * table.total, self.figure(figures))
    }
}

/// The grades of a sound table, without the first `passed`.
#[derive(Clone, Copy)]
pub struct Grades<'a> {
    sound: &'a SoundTable,
    passed: usize,
}

impl SoundTable {
    /// Each grade, in order.
    pub fn grades(&self) -> Grades<'_>
        ensures sound { result.sound.now ≡ self.now }
        ensures start { result.passed ≡ 0 }
    {
        Grades {
            sound: self,
            passed: 0,
        }
    }
}

impl<'a> Iterator for Grades<'a> {
    type Item = Grade<'a>;

    ghost next_gives = { λ s r t. (t.sound ≡ s.sound) × MatchOption r (s.sound.now.table.grades - s.passed ≡ 0) (λ g. (g.sound ≡ s.sound) × (g.number ≡ s.passed + 1) × (t.passed ≡ s.passed + 1)) };

    ghost remaining = { λ s. at_most (s.sound.now.table.grades - s.passed) };

    fn next(&mut self) -> Option<Grade<'a>> {
        if self.passed >= self.sound.table.grades {
            return None;
        }
        self.passed += 1;
        Some(Grade {
            sound: self.sound,
            number: self.passed,
        })
    }
}
