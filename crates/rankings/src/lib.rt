// Costs, and rankings of them.
//
// A cost is `(i64, i64)`: money in cents, time in minutes. A `Ranking` says which of two costs is no dearer, and a
// `Rounding` also divides a cost by a number. What is built on this crate is built for every ranking that keeps the laws
// of these traits.
#![tactic(auto)]

mod choice;
mod costs;
mod division;
mod limits;
mod money;
mod money_then_minutes;
mod ranking;
mod rounding;
#[cfg(test)]
mod tests;
mod weighed;

pub use choice::first_cheapest;
pub use costs::{add, scale};
pub use division::{Divisor, ceil_div, floor_div};
pub use limits::{LARGEST_DIVISOR, LARGEST_RATE, RANKED_PART, SMALLEST_RATE};
pub use money::Money;
pub use money_then_minutes::MoneyThenMinutes;
pub use ranking::Ranking;
pub use rounding::{PartByPart, Rounding};
pub use weighed::Weighed;
