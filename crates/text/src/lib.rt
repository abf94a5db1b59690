//! Numbers and labels, read from bytes and written to bytes.
//!
//! A field's text has the byte that ends it as its last: so no field's text is the front of another's.
#![tactic(auto)]

mod end;
mod limits;
mod read;
mod write;

pub use end::End;
pub use limits::{DIGITS, LABEL};
pub use read::{label, number};
pub use write::{write_bytes, write_count, write_field, write_label, write_number};

#[cfg(test)]
mod tests;
