//! Sheets, whole and damaged, and what a recount answers to them: a crate of tests.
#![tactic(auto)]

#[cfg(test)]
mod answers;
#[cfg(test)]
mod damaged;
#[cfg(test)]
mod edit;
#[cfg(test)]
mod filings;
#[cfg(test)]
mod largest;
#[cfg(test)]
mod plan_tests;
#[cfg(test)]
mod plans;
#[cfg(test)]
mod shops;
#[cfg(test)]
mod tests;
