/// A row (action): what it costs, and the first arc of its chain. `next` is the grade's next row, 0 at the last.
// 0 and no `Option`, by a rule of the project: the table is plain data, in the sheet's own numbers.
#[derive(Clone, Copy)]
pub struct Row {
    pub next: usize,
    pub cost: (i64, i64),
    pub first_arc: usize,
}

/// An arc (transition): the grade it leads to, and how heavy it weighs. `next` is the row's next arc, 0 at the last.
#[derive(Clone, Copy)]
pub struct Arc {
    pub next: usize,
    pub destination: usize,
    pub weight: u32,
}
