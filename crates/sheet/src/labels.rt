use table::{MAX_GRADES, MAX_ROWS};

/// Where a label lies in its sheet: from the byte `start` up to the byte before `end`.
// Public, its two ends named, and copied: `Range` is not `Copy`.
#[derive(Clone, Copy)]
pub struct Span {
    pub start: usize,
    pub end: usize,
}

/// Where a label lies that is not there: it has no bytes.
pub(crate) const NO_LABEL: Span = Span { start: 0, end: 0 };

/// Where the labels lie in the sheet that was read, the first grade's and the first row's first. What lies beyond the
/// table's grades and rows is empty. Arrays of the stated limits, since the library does not allocate.
#[derive(Clone, Copy)]
pub struct Labels {
    pub grade: [Span; MAX_GRADES],
    pub row: [Span; MAX_ROWS],
}
