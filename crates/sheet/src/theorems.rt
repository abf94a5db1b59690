ghost use Rattle.std.specs.Prelude.{T};
ghost use Rattle.sheet.specs.Laws.{RefusedOnce, RefusedLines, RenderingOne, RenderingSame, RenderingShort, RenderingRead, ReadExactly, ReadOnce, WrittenText, WrittenSame};

/// What a sheet's definitions come to: a text is refused at one line at most and for one reason; a text says one thing,
/// and one thing has one text; no rendering is too long, and none is refused; the answer for a rendering is what was
/// rendered, and a text has one answer; what is written with a sheet's own labels is that sheet. It answers yes: the
/// laws are its contract.
pub fn sheet_laws() -> bool
    ensures stands { T result }
    ensures once { RefusedOnce }
    ensures lines { RefusedLines }
    ensures one { RenderingOne }
    ensures same { RenderingSame }
    ensures short { RenderingShort }
    ensures read { RenderingRead }
    ensures exactly { ReadExactly }
    ensures answer { ReadOnce }
    ensures written { WrittenText }
    ensures unchanged { WrittenSame }
{
    true
}
