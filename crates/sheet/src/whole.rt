use crate::labels::Labels;
use table::{Figures, Table};

/// What a sheet says: its table, its figures if it has any, and where its labels lie.
#[derive(Clone, Copy)]
pub struct Sheet {
    pub table: Table,
    pub figures: Option<Figures>,
    pub labels: Labels,
}
