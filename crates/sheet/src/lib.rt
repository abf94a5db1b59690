//! Sheets: a table as text, with or without figures, read and written.
#![tactic(auto)]

mod arc_reading;
mod figure_reading;
mod grade_reading;
mod group;
mod header;
mod header_reading;
mod labels;
mod page_writing;
mod ranges;
mod reading;
mod row_reading;
mod table_lines;
mod theorems;
mod whole;
mod write_fault;
mod writing;

pub use labels::{Labels, Span};
pub use lines::{
    ArcLine, FigureLine, GradeLine, HeaderLine, Line, RowLine, TextFault, line_at, read_line,
    write_line,
};
pub use page_writing::write_page;
pub use reading::{MAX_SHEET, read};
pub use theorems::sheet_laws;
pub use whole::Sheet;
pub use write_fault::WriteFault;
