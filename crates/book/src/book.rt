use table::Page;

/// A book, ruled for one ranking. It starts without a table.
#[derive(Clone, Copy)]
pub struct Book<R> {
    pub(crate) ranking: R,
    pub(crate) page: Option<Page>,
}
