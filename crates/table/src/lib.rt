//! One shop's table, its check, and the figures that a plan is shown with.
#![tactic(auto)]

mod ahead;
mod chains;
mod check;
mod column;
mod counts;
mod fault;
mod figures;
mod filing;
mod grade;
mod limits;
mod page;
mod pointers;
mod reach;
mod rows;
mod rules;
mod sound;
mod table;
mod walk;
mod weights;

pub use ahead::lookahead;
pub use chains::Linked;
pub use check::{check_table, first_fault};
pub use column::Column;
pub use fault::{FiguresFault, FilingFault, TableFault};
pub use figures::Figures;
pub use filing::{FiledLine, check_filing};
pub use grade::{Grade, Grades};
pub use limits::{
    MAX_ARCS, MAX_COST_PART, MAX_DENOMINATOR, MAX_FIGURE_PART, MAX_FINENESS, MAX_GRADES, MAX_ROWS,
    MAX_TOTAL,
};
pub use page::Page;
pub use rows::{Arc, Row};
pub use rules::{check_figures, first_broken};
pub use sound::SoundTable;
pub use table::Table;
pub use walk::Walk;
