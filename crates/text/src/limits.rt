//! The limits of the format, each once.

/// The most digits of a number.
pub const DIGITS: usize = 11;

/// The most bytes of a label.
pub const LABEL: usize = 24;

/// The bytes of a label: what ASCII prints, without the blank.
pub const LABEL_FIRST: u8 = 33;

pub const LABEL_LAST: u8 = 126;
