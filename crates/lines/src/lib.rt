//! The lines of a sheet, one by one: each kind with its fields, read and written.
#![tactic(auto)]

mod fault;
mod line_reading;
mod line_writing;
mod records;

pub use fault::TextFault;
pub use line_reading::{line_at, read_line};
pub use line_writing::write_line;
pub use records::{ArcLine, FigureLine, GradeLine, HeaderLine, Line, RowLine};
