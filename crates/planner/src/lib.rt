//! Plans for a sound table: figures to start from, sweeps that draw floors and ceilings together, and rounds that better
//! plan rows.
#![tactic(auto)]

mod bounds;
mod choice;
mod filing;
mod grades;
mod improve;
mod start;
mod sweep;

pub use bounds::bounds_stand;
pub use choice::{Choice, cheapest_row};
pub use filing::take_filing;
pub use improve::{Improved, improve_once, improve_rounds};
pub use start::start_page;
pub use sweep::{Sweep, Swept, sweep_once, sweep_up_to};
