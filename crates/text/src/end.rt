//! What ends a field.

ghost use Rattle.std.specs.Prelude.{◌≡◌};
ghost use Rattle.text.specs.Fields.{byte_of};

/// A field ends at a blank where another follows it, and with the line where none does.
#[derive(Clone, Copy, Debug, PartialEq, Eq)]
pub enum End {
    Blank,
    Line,
}

impl End {
    pub fn byte(self) -> u8
        ensures { result ≡ byte_of self }
    {
        match self {
            End::Blank => b' ',
            End::Line => b'\n',
        }
    }
}
