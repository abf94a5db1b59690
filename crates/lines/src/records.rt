//! The lines of a sheet, each kind with its fields in the order of the text.
//!
//! They hold whatever the form of a line allows: the ranges are tested where a whole sheet is read.

/// `sheet G R A D a b q F`: how many of each, the numbers of the table, and how many figures follow.
#[derive(Clone, Copy)]
pub struct HeaderLine {
    pub grades: i64,
    pub rows: i64,
    pub arcs: i64,
    pub total: i64,
    pub numerator: i64,
    pub denominator: i64,
    pub fineness: i64,
    pub figures: i64,
}

/// `g number first-row label`
#[derive(Clone, Copy)]
pub struct GradeLine<'a> {
    pub number: i64,
    pub first_row: i64,
    pub label: &'a [u8],
}

/// `r number next first-part second-part first-arc label`
#[derive(Clone, Copy)]
pub struct RowLine<'a> {
    pub number: i64,
    pub next: i64,
    pub first_part: i64,
    pub second_part: i64,
    pub first_arc: i64,
    pub label: &'a [u8],
}

/// `t number next destination weight`
#[derive(Clone, Copy)]
pub struct ArcLine {
    pub number: i64,
    pub next: i64,
    pub destination: i64,
    pub weight: i64,
}

/// `f grade row`, the two parts of the floor, the two parts of the ceiling
#[derive(Clone, Copy)]
pub struct FigureLine {
    pub grade: i64,
    pub row: i64,
    pub floor_first: i64,
    pub floor_second: i64,
    pub ceiling_first: i64,
    pub ceiling_second: i64,
}

/// A line, known by its first word. A label is a part of the sheet that was read.
#[derive(Clone, Copy)]
pub enum Line<'a> {
    Header(HeaderLine),
    Grade(GradeLine<'a>),
    Row(RowLine<'a>),
    Arc(ArcLine),
    Figure(FigureLine),
    End,
}
