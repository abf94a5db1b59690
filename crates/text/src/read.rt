//! Reading: from bytes to the value whose text is at their front, and the bytes after it.

ghost use Rattle.std.specs.Prelude.{◌≡◌};
ghost use Rattle.std.specs.Int.{IsInRange};
ghost use Rattle.std.specs.Str.Parse.{digits_value};
ghost use Rattle.text.specs.Reading.{Reads, seen};
ghost use Rattle.text.specs.Fields.{byte_of, Filled, ended, Short, Small, natural_text, number_text, Label, label_text};

use crate::end::End;
use crate::limits::{DIGITS, LABEL, LABEL_FIRST, LABEL_LAST};

/// The bytes from `low` to `high` at the front, 1 to `most` of them and then the byte `end`, and what follows that
/// byte.
fn run(bytes: &[u8], low: u8, high: u8, most: usize, end: u8) -> Option<(&[u8], &[u8])>
    requires { IsInRange low high end → ⊥ }
    ensures { Reads (Filled low high most) (ended end) bytes.now (seen (λ x. x.now) result) }
{
    let n = bytes.iter().position(|b| !(low..=high).contains(b))?;
    if !(1..=most).contains(&n) {
        return None;
    }
    let (front, [stop, rest @ ..]) = bytes.split_at(n) else {
        return None;
    };
    (*stop == end).then_some((front, rest))
}

/// The number that a few digits write.
fn value(digits: &[u8]) -> u64
    requires { Filled 48 57 11 digits.now }
    ensures { result ≡ digits_value 10 digits.now }
{
    let mut n = 0;
    for b in digits {
        n = n * 10 + u64::from(*b) - u64::from(b'0');
    }
    n
}

/// The number at the front, of 1 to 11 digits with no leading zero, and what follows its end.
fn natural(bytes: &[u8], end: End) -> Option<(u64, &[u8])>
    ensures { Reads Short (natural_text (byte_of end)) bytes.now (seen (λ n. n) result) }
{
    let (digits, rest) = run(bytes, b'0', b'9', DIGITS, end.byte())?;
    if let [b'0', _, ..] = digits {
        return None;
    }
    Some((value(digits), rest))
}

/// The number at the front, with a minus where it is negative and never `-0`, and what follows its end.
// `as` loses nothing: a number of 11 digits fits.
pub fn number(bytes: &[u8], end: End) -> Option<(i64, &[u8])>
    ensures { Reads Small (number_text (byte_of end)) bytes.now (seen (λ n. n) result) }
{
    match bytes {
        [b'-', digits @ ..] => match natural(digits, end)? {
            (0, _) => None,
            (n, rest) => Some((-(n as i64), rest)),
        },
        _ => {
            let (n, rest) = natural(bytes, end)?;
            Some((n as i64, rest))
        }
    }
}

/// The label at the front, and what follows the line's end after it.
#[tactic(auto, using(crate::proofs::Labels::label_steps))]
pub fn label(bytes: &[u8]) -> Option<(&[u8], &[u8])>
    ensures { Reads Label label_text bytes.now (seen (λ x. x.now) result) }
{
    run(bytes, LABEL_FIRST, LABEL_LAST, LABEL, End::Line.byte())
}
