ghost use Rattle.table.specs.Ranges.{FirstsIn};

use crate::figures::Figures;
use crate::sound::SoundTable;

/// A sound table with figures for it: each grade's plan row is a row of the table.
#[derive(Clone, Copy)]
pub struct Page {
    pub sound: SoundTable,
    pub figures: Figures,
    ghost planned: { FirstsIn sound.table.grades sound.table.rows figures.row },
}
