//! What is wrong with a sheet's text: the first layer of refusals.

#[derive(Clone, Copy, Debug, PartialEq, Eq)]
pub enum TextFault {
    /// Number 1, layer 1, no place: the sheet is longer than a sheet can be.
    TooLong,
    /// Number 2, layer 1, place the line, from 1: not the form that is due there.
    Form { line: usize },
    /// Number 3, layer 1, place the line, from 1: a number outside its range or out of its ascending order.
    Range { line: usize },
    /// Number 23, layer 1, place the byte that was asked for, from 0: no line begins there.
    NoLine { place: usize },
}
