ghost use Rattle.std.specs.Prelude.{ℕ, ◌+◌, ◌<◌, ◌≤◌, ◌↔◌, length, IsTrue, IfOk, IfSome, IfNone};
ghost use Rattle.cases.specs.Shows.{StandsAt, Edited};

use std::alloc::Global;
use std::test::Fail;

/// A change to a sheet: `new` in place of the first `old`; and what a recount prints then.
pub(crate) struct Edit {
    pub(crate) old: &'static [u8],
    pub(crate) new: &'static [u8],
    pub(crate) answer: &'static [u8],
}

/// Whether `old` stands in the text at that place.
fn stands_at(text: &[u8], old: &[u8], place: usize) -> bool
    requires { place < length text.now }
    ensures { IsTrue result ↔ StandsAt text.now old.now place }
{
    text[place..].starts_with(old)
}

/// The first place where `old` stands in the text.
fn first_place(text: &[u8], old: &[u8]) -> Option<usize>
    ensures some { IfSome result (λ k. (k + length old.now ≤ length text.now) × StandsAt text.now old.now k × ((j : ℕ) → j < k → StandsAt text.now old.now j → ⊥)) }
    ensures none { IfNone result ((k : ℕ) → k < length text.now → StandsAt text.now old.now k → ⊥) }
{
    (0..text.len()).find(|place| stands_at(text, old, *place))
}

/// The changed sheet; a test fails where the old text is not there.
pub(crate) fn changed(heap: Global, sheet: &[u8], edit: &Edit) -> Result<Vec<u8>, Fail>
    ensures { IfOk result (λ v. Edited sheet.now edit.now.old.now edit.now.new.now v.items) }
{
    let place = first_place(sheet, edit.old).ok_or("the old text does not stand in the sheet")?;
    let mut whole = sheet[..place].to_vec(heap)?;
    whole.extend_from_slice(edit.new)?;
    whole.extend_from_slice(&sheet[place + edit.old.len()..])?;
    Ok(whole)
}
