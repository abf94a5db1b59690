ghost use Rattle.std.specs.Prelude.{◌≡◌, Some};
ghost use Rattle.book.specs.declared.refusal.Refusal.TheVariants.{Text, Table, Figures, Write};
ghost use Rattle.book.specs.Refusals.{number_of, layer_number, layer_of, places_of, refusal_words, text_place, table_place, figures_places, write_place};

use crate::layer::Layer;
use sheet::{TextFault, WriteFault};
use std::error::Error;
use std::fmt;
use table::{FiguresFault, TableFault};

/// Why a call is refused. Its number, layer and places are told by the methods; a place that is not named is 0.
#[derive(Clone, Copy, Debug, PartialEq, Eq)]
pub enum Refusal {
    /// 1, 2, 3 and 23, layer 1: the text of a sheet.
    Text(TextFault),
    /// 4 to 8, layer 2: the table of a sheet.
    Table(TableFault),
    /// 9 to 11 and 17, layer 3: figures.
    Figures(FiguresFault),
    /// 12, layer 4, no place: the book has no table.
    NoTable,
    /// 15, layer 4, no place: not 1 to 1,000 sweeps.
    Sweeps,
    /// 21 and 22, layer 4: a sheet cannot be written.
    Write(WriteFault),
}

impl From<TextFault> for Refusal {
    ghost from_gives = { λ fault refusal. refusal ≡ Text fault };

    fn from(fault: TextFault) -> Refusal {
        Refusal::Text(fault)
    }
}

impl From<TableFault> for Refusal {
    ghost from_gives = { λ fault refusal. refusal ≡ Table fault };

    fn from(fault: TableFault) -> Refusal {
        Refusal::Table(fault)
    }
}

impl From<FiguresFault> for Refusal {
    ghost from_gives = { λ fault refusal. refusal ≡ Figures fault };

    fn from(fault: FiguresFault) -> Refusal {
        Refusal::Figures(fault)
    }
}

impl From<WriteFault> for Refusal {
    ghost from_gives = { λ fault refusal. refusal ≡ Write fault };

    fn from(fault: WriteFault) -> Refusal {
        Refusal::Write(fault)
    }
}

impl Refusal {
    /// The number by which the refusal is known. It stays a number: users know the refusal by it, and it is printed.
    pub fn number(&self) -> u32
        ensures { result ≡ number_of self.now }
    {
        match self {
            Refusal::Text(TextFault::TooLong) => 1,
            Refusal::Text(TextFault::Form { .. }) => 2,
            Refusal::Text(TextFault::Range { .. }) => 3,
            Refusal::Text(TextFault::NoLine { .. }) => 23,
            Refusal::Table(TableFault::RowPointers { .. }) => 4,
            Refusal::Table(TableFault::LooseRow { .. }) => 5,
            Refusal::Table(TableFault::ArcPointers { .. }) => 6,
            Refusal::Table(TableFault::LooseArc { .. }) => 7,
            Refusal::Table(TableFault::Weights { .. }) => 8,
            Refusal::Figures(FiguresFault::PlanRow { .. }) => 9,
            Refusal::Figures(FiguresFault::Part { .. }) => 17,
            Refusal::Figures(FiguresFault::Floor { .. }) => 10,
            Refusal::Figures(FiguresFault::Ceiling { .. }) => 11,
            Refusal::NoTable => 12,
            Refusal::Sweeps => 15,
            Refusal::Write(WriteFault::OldSheet { .. }) => 21,
            Refusal::Write(WriteFault::Room { .. }) => 22,
        }
    }

    /// Which part of the work refuses.
    pub fn layer(&self) -> Layer
        ensures { layer_number result ≡ layer_of self.now }
    {
        match self {
            Refusal::Text(_) => Layer::Text,
            Refusal::Table(_) => Layer::Table,
            Refusal::Figures(_) => Layer::Figures,
            Refusal::NoTable | Refusal::Sweeps | Refusal::Write(_) => Layer::Book,
        }
    }

    /// Where: a line, a byte, a row, an arc, a grade, or a grade and a row; or the length that is needed.
    pub fn places(&self) -> (usize, usize)
        ensures { result ≡ places_of self.now }
    {
        match self {
            Refusal::Text(fault) => (text_place(fault), 0),
            Refusal::Table(fault) => (table_place(fault), 0),
            Refusal::Figures(fault) => figures_places(fault),
            Refusal::NoTable | Refusal::Sweeps => (0, 0),
            Refusal::Write(fault) => (write_place(fault), 0),
        }
    }
}

/// As the program prints it, but for the end of the line.
impl fmt::Display for Refusal {
    ghost output = { λ refusal. Some (refusal_words refusal) };

    fn fmt<W: fmt::Write>(&self, f: &mut fmt::Formatter<W>) -> fmt::Result {
        let number = self.number();
        let layer = u32::from(self.layer());
        let (first, second) = self.places();
        write!(f, "no {number} {layer} {first} {second}")
    }
}

impl Error for Refusal {}

fn text_place(fault: &TextFault) -> usize
    ensures { result ≡ text_place fault.now }
{
    match fault {
        TextFault::TooLong => 0,
        TextFault::Form { line } | TextFault::Range { line } => *line,
        TextFault::NoLine { place } => *place,
    }
}

fn table_place(fault: &TableFault) -> usize
    ensures { result ≡ table_place fault.now }
{
    match fault {
        TableFault::RowPointers { row }
        | TableFault::LooseRow { row }
        | TableFault::Weights { row } => *row,
        TableFault::ArcPointers { arc } | TableFault::LooseArc { arc } => *arc,
    }
}

fn figures_places(fault: &FiguresFault) -> (usize, usize)
    ensures { result ≡ figures_places fault.now }
{
    match fault {
        FiguresFault::PlanRow { grade, row }
        | FiguresFault::Floor { grade, row }
        | FiguresFault::Ceiling { grade, row } => (*grade, *row),
        FiguresFault::Part { grade } => (*grade, 0),
    }
}

fn write_place(fault: &WriteFault) -> usize
    ensures { result ≡ write_place fault.now }
{
    match fault {
        WriteFault::OldSheet { line } => *line,
        WriteFault::Room { length } => *length,
    }
}
