ghost use Rattle.std.specs.Prelude.{◌≡◌, true, false, Ok, Err, IfSome};
ghost use Rattle.std.specs.Bool.{OnTrue};
ghost use Rattle.book.specs.Refusals.{number_of, layer_of, places_of};
ghost use Rattle.cases.specs.Shows.{Prints, Begins, Writes, Ends};

use crate::shops::TWO_GRADES;
use book::{Book, MAX_SHEET, Refusal, recount};
use rankings::Money;

/// What a recount of the sheet prints.
pub(crate) fn printed<'a>(sheet: &[u8], out: &'a mut [u8; MAX_SHEET]) -> &'a [u8]
    ensures { Prints sheet.now result.now }
{
    let length = recount(sheet, out);
    &out[..length]
}

/// Whether a recount of the sheet prints just these bytes.
pub(crate) fn answers(sheet: &[u8], expected: &[u8]) -> bool
    ensures { OnTrue result (Prints sheet.now expected.now) }
{
    printed(sheet, &mut [0; MAX_SHEET]) == expected
}

/// Whether what a recount of the sheet prints begins with these bytes.
pub(crate) fn begins(sheet: &[u8], expected: &[u8]) -> bool
    ensures { OnTrue result (Begins sheet.now expected.now) }
{
    printed(sheet, &mut [0; MAX_SHEET]).starts_with(expected)
}

/// Whether a call is refused with this number and layer and these places.
// In numbers, and not as a `Refusal`: what is tested is the number, layer and places by which a refusal is known.
pub(crate) fn refused<T: Drop>(
    answer: Result<T, Refusal>,
    number: u32,
    layer: u32,
    places: (usize, usize),
) -> bool
    ensures { elim answer [ Ok _ ↦ result ≡ false | Err e ↦ result ≡ true → (number_of e ≡ number) × ((layer_of e ≡ layer) × (places_of e ≡ places)) ] }
{
    answer.is_err_and(|refusal| {
        refusal.number() == number
            && u32::from(refusal.layer()) == layer
            && refusal.places() == places
    })
}

/// The book's sheet, with figures and with the labels of the old sheet, or none where it is not written.
fn written<'a>(book: &Book<Money>, old: &[u8], out: &'a mut [u8]) -> Option<&'a [u8]>
    ensures { IfSome result (λ text. Writes book.now.page old.now text.now) }
{
    let length = book.write(true, old, out).ok()?;
    Some(&out[..length])
}

/// Whether the book of the shop of two grades, written with figures, ends with these bytes.
pub(crate) fn ends(book: &Book<Money>, expected: &[u8]) -> bool
    ensures { OnTrue result (Ends book.now.page TWO_GRADES.now expected.now) }
{
    written(book, TWO_GRADES, &mut [0; 300]).is_some_and(|text| text.ends_with(expected))
}

/// Whether the book, written with figures and with this sheet's labels, is just this sheet.
pub(crate) fn writes_again(book: &Book<Money>, sheet: &[u8]) -> bool
    ensures { OnTrue result (Writes book.now.page sheet.now sheet.now) }
{
    written(book, sheet, &mut [0; MAX_SHEET]) == Some(sheet)
}
