//! Reads a sheet from standard input, and writes it with figures, or the line of its refusal, to standard output.
#![tactic(auto)]

ghost use Rattle.std.specs.Prelude.{◌≤◌, length, IfOk};

use book::{MAX_SHEET, recount};
use std::io;
use std::io::{Read, Write};

/// One byte more than the longest sheet, so that a longer one is seen to be too long.
const MAX_INPUT: usize = MAX_SHEET + 1;

/// Reads until the input ends or `bytes` is full, and returns what came. By hand, since no method of the library does
/// it without a new failure: `read_exact` refuses an early end, and `read_to_end` asks for memory.
fn read_up_to<'a>(rt: &HostRuntime, bytes: &'a mut [u8]) -> io::Result<&'a [u8]>
    ensures { IfOk result (λ text. length text.now ≤ length bytes.old) }
{
    let mut input = rt.stdin();
    let mut length = 0;
    while length < bytes.len() {
        match input.read(&mut bytes[length..])? {
            0 => break,
            n => length += n,
        }
    }
    Ok(&bytes[..length])
}

fn main(rt: HostRuntime) -> io::Result<()> {
    let mut bytes = [0; MAX_INPUT];
    let sheet = read_up_to(&rt, &mut bytes)?;
    let mut out = [0; MAX_SHEET];
    let length = recount(sheet, &mut out);
    let mut output = rt.stdout();
    output.write_all(&out[..length])?;
    output.flush()
}
