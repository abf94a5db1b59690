ghost use Rattle.std.specs.Prelude.{◌≡◌, Ok, Err};
ghost use Rattle.table.specs.Faults.{table_fault};
ghost use Rattle.table.specs.Checked.{Checked};
ghost use Rattle.table.specs.Sound.{Sound, Walked};

use crate::fault::TableFault;
use crate::pointers::{mispointed_arc, mispointed_row};
use crate::reach::{loose_arc, loose_row};
use crate::sound::SoundTable;
use crate::table::Table;
use crate::weights::unbalanced_row;

/// The first fault of a table: each kind over the whole table before the next, at the lowest row or arc.
pub fn first_fault(table: &Table) -> Option<TableFault>
    ensures { result ≡ table_fault table.now }
{
    mispointed_row(table)
        .map(|row| TableFault::RowPointers { row })
        .or_else(|| loose_row(table).map(|row| TableFault::LooseRow { row }))
        .or_else(|| mispointed_arc(table).map(|arc| TableFault::ArcPointers { arc }))
        .or_else(|| loose_arc(table).map(|arc| TableFault::LooseArc { arc }))
        .or_else(|| unbalanced_row(table).map(|row| TableFault::Weights { row }))
}

/// The table as one that has no fault, exactly where it is sound; or its first fault.
pub fn check_table(table: &Table) -> Result<SoundTable, TableFault>
    ensures answer { Checked table.now result }
    ensures sound { elim result [ Ok _ ↦ Sound table.now | Err _ ↦ (Sound table.now → ⊥) ] }
    ensures walks { elim result [ Ok _ ↦ Walked table.now | Err _ ↦ Unit {0} ] }
{
    // SoundTable's ghost field needs the fact of the None arm, which no closure of a chain knows.
    match first_fault(table) {
        Some(fault) => Err(fault),
        None => {
            let table = *table;
            Ok(SoundTable { table })
        }
    }
}
