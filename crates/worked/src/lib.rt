//! Worked cases, as a theorem about the definitions that the contracts of the other crates cite.
#![tactic(auto)]

mod cases;

pub use cases::worked_cases_stand;
