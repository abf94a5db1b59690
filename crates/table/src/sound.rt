ghost use Rattle.std.specs.Prelude.{◌≡◌, false, is_some};
ghost use Rattle.table.specs.Faults.{table_fault};

use crate::table::Table;

/// A table in which the check finds no fault.
#[derive(Clone, Copy)]
pub struct SoundTable {
    pub table: Table,
    ghost faultless: { is_some (table_fault table) ≡ false },
}
