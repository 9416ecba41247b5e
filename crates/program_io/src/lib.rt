// The program's run between a reader and a writer: the input is read, run, and the output written.
#![tactic(auto)]

ghost use Rattle.std.specs.Prelude.{◌≤◌, ◌<◌, length};
ghost use Rattle.laws.specs.Limits.{input_limit};

use std::io;
use std::io::{Read, Write};

// In lent arrays. There is room for more bytes than are judged, so that a longer input is seen to be one.
fn run_in<R: Read, W: Write>(
    input: &mut R,
    output: &mut W,
    bytes: &mut [u8],
    out: &mut [u8],
) -> io::Result<()>
    requires { (input_limit < length bytes.old) × (65600 ≤ length out.old) }
{
    let got = full_reads::read_full(input, bytes)?;
    let n = program::run(&bytes[..got], out);
    output.write_all(&out[0..n])
}

// Reads a model's file from `input` and writes its report to `output`.
pub fn run_between<R: Read, W: Write>(input: &mut R, output: &mut W) -> io::Result<()> {
    let mut bytes = [0u8; 32769];
    let mut out = [0u8; 65600];
    run_in(input, output, &mut bytes, &mut out)
}
