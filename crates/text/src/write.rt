//! Writing: into lent bytes from a place on. The answer is the place after, or `None` where there is no room.
//!
//! `out` and `at` go along as two: a struct of both needs a clause on the reference's ghost name in each method, which is
//! no plainer.

ghost use Rattle.std.specs.Fmt.{signed_decimal};
ghost use Rattle.text.specs.Fields.{byte_of, ended, natural_text, number_text, label_text};
ghost use Rattle.text.specs.Writing.{Writes, ReadsBack};

use crate::end::End;
use itoa::Buffer;

/// Writes all of `bytes`.
pub fn write_bytes(out: &mut [u8], at: usize, bytes: &[u8]) -> Option<usize>
    ensures { Writes out.old at bytes.now result out.new }
{
    let end = at.checked_add(bytes.len())?;
    if end > out.len() {
        return None;
    }
    out[at..end].copy_from_slice(bytes);
    Some(end)
}

/// Writes all of `bytes`, and the byte that ends their field.
#[tactic(auto, using(crate::proofs::Writing::field_steps))]
fn write_ended(out: &mut [u8], at: usize, bytes: &[u8], end: End) -> Option<usize>
    ensures { Writes out.old at (ended (byte_of end) bytes.now) result out.new }
{
    let next = write_bytes(out, at, bytes)?;
    write_bytes(out, next, &[end.byte()])
}

/// Writes `z`, with a minus where it is negative.
pub fn write_number(out: &mut [u8], at: usize, z: i64) -> Option<usize>
    ensures { Writes out.old at (signed_decimal z) result out.new }
{
    write_bytes(out, at, Buffer::new().format(z).as_bytes())
}

/// Writes a number and the byte that ends its field. At that place it then reads back.
#[tactic(auto, using(crate::proofs::Writing::field_steps))]
pub fn write_field(out: &mut [u8], at: usize, z: i64, end: End) -> Option<usize>
    ensures back { ReadsBack out.old at (byte_of end) z result out.new }
    ensures text { Writes out.old at (number_text (byte_of end) z) result out.new }
{
    write_ended(out, at, Buffer::new().format(z).as_bytes(), end)
}

/// Writes a count and the byte that ends its field.
#[tactic(auto, using(crate::proofs::Writing::field_steps))]
pub fn write_count(out: &mut [u8], at: usize, n: u64, end: End) -> Option<usize>
    ensures { Writes out.old at (natural_text (byte_of end) n) result out.new }
{
    write_ended(out, at, Buffer::new().format(n).as_bytes(), end)
}

/// Writes a label and the line's end.
pub fn write_label(out: &mut [u8], at: usize, label: &[u8]) -> Option<usize>
    ensures { Writes out.old at (label_text label.now) result out.new }
{
    write_ended(out, at, label, End::Line)
}
