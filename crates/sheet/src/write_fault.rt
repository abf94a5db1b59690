ghost use Rattle.std.specs.Prelude.{◌≡◌};
ghost use Rattle.sheet.specs.declared.write_fault.WriteFault.TheVariants.{OldSheet};
ghost use Rattle.sheet.specs.Whole.{line_of};

use lines::TextFault;

/// Why a sheet is not written. Nothing is written then.
#[derive(Clone, Copy, Debug, PartialEq, Eq)]
pub enum WriteFault {
    /// Number 21: the old sheet is refused at that line, 0 where it is too long or has other counts of grades or rows.
    OldSheet { line: usize },
    /// Number 22: the buffer is shorter than that length, which the sheet has.
    Room { length: usize },
}

/// The old sheet's own fault, at its line.
impl From<TextFault> for WriteFault {
    ghost from_gives = { λ fault result. result ≡ OldSheet (line_of fault) };

    fn from(fault: TextFault) -> WriteFault {
        let line = match fault {
            TextFault::Form { line } | TextFault::Range { line } => line,
            TextFault::TooLong | TextFault::NoLine { .. } => 0,
        };
        WriteFault::OldSheet { line }
    }
}
