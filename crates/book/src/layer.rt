ghost use Rattle.std.specs.Prelude.{◌≡◌};
ghost use Rattle.book.specs.Refusals.{layer_number};

/// Which part of the work refuses, with the number by which it is known.
#[derive(Clone, Copy, Debug, PartialEq, Eq)]
pub enum Layer {
    Text = 1,
    Table = 2,
    Figures = 3,
    Book = 4,
}

impl From<Layer> for u32 {
    ghost from_gives = { λ layer n. n ≡ layer_number layer };

    fn from(layer: Layer) -> u32 {
        // The discriminants are the numbers.
        layer as u32
    }
}
