//! Count books: a shop's table, plan and figures, ruled for one ranking of costs.
#![tactic(auto)]

mod book;
mod calls;
mod layer;
mod limits;
mod printing;
mod refusal;

pub use book::Book;
pub use calls::SweepCount;
pub use layer::Layer;
pub use limits::{MAX_SWEEPS, RECOUNT_SWEEPS};
pub use printing::recount;
pub use refusal::Refusal;
pub use sheet::MAX_SHEET;
