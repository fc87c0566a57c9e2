// Reads a sheet from standard input and writes the verdict on it to standard output.
#![tactic(auto)]

ghost use Rattle.std.specs.Prelude.{◌≤◌, length, IfOk};

use std::io::{self, Read, Write};

// One byte over the limit: an input that is longer is refused for it, and no more of it is read.
const INPUT_BYTES: usize = model::SHEET_BYTES + 1;

// Reads until the buffer is full or the input ends: a pipe gives it in pieces. How many bytes came.
fn read_input<R: Read>(reader: &mut R, input: &mut [u8]) -> io::Result<usize>
    ensures { IfOk result (λ count. count ≤ length input.new) }
{
    let mut count = 0;
    // it ends by what comes, and counts no index
    'pieces: while count < input.len() {
        match reader.read(&mut input[count..])? {
            0 => return Ok(count),
            more => count += more,
        }
    }
    Ok(count)
}

fn main(rt: HostRuntime) -> io::Result<()> {
    let mut input = [0u8; INPUT_BYTES];
    let count = match read_input(&mut rt.stdin(), &mut input) {
        Ok(count) => count,
        Err(error) => return eprintln!(rt; "standard input: {error}"),
    };
    let mut verdict = [0u8; model::VERDICT_BYTES];
    let length = zarpalume::zarpalume_verdict(&input[0..count], &mut verdict);
    match rt.stdout().write_all(&verdict[0..length]) {
        Ok(()) => Ok(()),
        Err(error) => eprintln!(rt; "standard output: {error}"),
    }
}
