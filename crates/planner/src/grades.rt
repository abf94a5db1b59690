ghost use Rattle.std.specs.Prelude.{◌≡◌, ◌-◌, ◌<◌, ◌≤◌, ℕ, Option, is_some, take};
ghost use Rattle.std.specs.List.{count_by, list_any};
ghost use Rattle.table.specs.Ranges.{FigureIn, FirstsIn};
ghost use Rattle.planner.specs.Grades.{Given, AllSome, ChoiceIn, revised_by};
ghost use Rattle.planner.specs.Sweeps.{applied, shown};

use crate::choice::Choice;
use table::{Column, Figures, Grade, MAX_GRADES, Page, SoundTable};

/// What is given for each grade of the table, the first grade's at 0.
pub(crate) fn per_grade<T: Copy, F: Fn(Grade<'_>) -> Option<T>>(
    sound: &SoundTable,
    give: F,
) -> [Option<T>; MAX_GRADES]
    requires { F.IsAlwaysCallable give }
    ensures { Given sound.now.table.grades sound.now (F.post give) result }
{
    let mut given = [None; MAX_GRADES];
    for grade in sound.grades() {
        given[grade.number - 1] = give(grade);
    }
    given
}

/// The entries, each of the first `n` replaced where there is something to replace it by.
pub(crate) fn replaced<T: Copy, F: Fn(usize) -> Option<T>>(
    entries: &[T; MAX_GRADES],
    n: usize,
    by: F,
) -> [T; MAX_GRADES]
    requires few { n ≤ 32 }
    requires made { (i : ℕ) → i < n → F.pre by i }
    ensures { (f : ℕ → Option T) → ((i : ℕ) (r : Option T) → i < n → F.post by i r → r ≡ f i) → result ≡ applied (λ g. f (g - 1)) n entries.now }
{
    let mut new = *entries;
    for (i, entry) in entries[..n].iter().enumerate() {
        new[i] = by(i).unwrap_or(*entry);
    }
    new
}

/// Whether something is given for some of the first `n` grades.
pub(crate) fn some_given<T>(given: &[Option<T>; MAX_GRADES], n: usize) -> bool
    requires { n ≤ 32 }
    ensures { result ≡ list_any is_some (take n given.now) }
{
    given[..n].iter().any(|for_grade| for_grade.is_some())
}

/// For how many of the first `n` grades something is given.
pub(crate) fn count_given<T>(given: &[Option<T>; MAX_GRADES], n: usize) -> usize
    requires { n ≤ 32 }
    ensures { result ≡ count_by is_some (take n given.now) }
{
    given[..n]
        .iter()
        .filter(|for_grade| for_grade.is_some())
        .count()
}

/// The page's figures with floors, and ceilings with their plan rows, replaced where there is something to replace them
/// by.
pub(crate) fn revised(
    page: &Page,
    floors: &[Option<(i64, i64)>; MAX_GRADES],
    choices: &[Option<Choice>; MAX_GRADES],
) -> Figures
    requires floors { AllSome FigureIn floors.now }
    requires choices { AllSome (ChoiceIn page.now.sound.table.rows) choices.now }
    ensures planned { FirstsIn page.now.sound.table.grades page.now.sound.table.rows result.row }
    ensures after { shown result ≡ revised_by page.now.sound.table.grades floors.now choices.now (shown page.now.figures) }
{
    let figures = &page.figures;
    let n = page.sound.table.grades;
    let floor = replaced(&figures.floor.at, n, |i| floors[i]);
    let ceiling = replaced(
        &figures.ceiling.at,
        n,
        |i| choices[i].map(|choice| choice.cost),
    );
    let row = replaced(&figures.row, n, |i| choices[i].map(|choice| choice.row));
    Figures {
        row,
        floor: Column { at: floor },
        ceiling: Column { at: ceiling },
    }
}
