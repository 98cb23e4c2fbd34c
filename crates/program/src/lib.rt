// The program of document 01, in a mode: "A small program, merge, reads a train from standard input and prints one line". The line for what
// was read is that of `line::program_line`, which is proved to its last byte. No contract can say what the system reads and writes. So
// `read_input` promises of every reader whose bytes are known that those at the buffer's start are its own, to its end or to the 16,001st,
// and it is left to `run` that of the buffer with the line as many bytes are written as the line has. 16,001 bytes tell an input that is
// too long from the longest one.
#![tactic(auto)]

ghost use Rattle.std.specs.Prelude.{length, take, ◌<◌, ◌≤◌, IfOk};
ghost use Rattle.std.specs.Io.KnownBytes.{Consumes, IsAtEnd};

use std::io;
use std::io::{Input, Read};

// One byte more than an input may have.
const INPUT_BYTES: usize = line::MAX_PROGRAM_BYTES + 1;

// Reads until the buffer is full or the input ends: how many bytes were read, and they stand at the buffer's start, in order. One read may
// give fewer bytes than there is room for, as from a pipe; none is the end of the input. Of an input that cannot be read to its end nothing
// is used, since what came is no whole train.
fn read_input<R: Read>(reader: &mut R, buf: &mut [u8]) -> io::Result<usize>
    ensures in_bounds { IfOk result (λ n. n ≤ length buf.new) }
    ensures at_start { IfOk result (λ n. Consumes (R.remaining reader.old) (R.remaining reader.new) (take n buf.new)) }
    ensures to_its_end { IfOk result (λ n. n < length buf.new → IsAtEnd (R.remaining reader.new)) }
{
    let mut end = 0;
    while end < buf.len() {
        let more = reader.read(&mut buf[end..])?;
        if more == 0 {
            break;
        }
        end += more;
    }
    Ok(end)
}

// What the programs do: merge in the Rust's mode, merge_parked parked log first. It fails where not even standard error can be written.
pub fn run(rt: &(impl Input + Print + Eprint), parked: bool) -> io::Result<()> {
    let mut input = [0u8; INPUT_BYTES];
    let mut printed = [0u8; line::MAX_LINE_BYTES];
    let Ok(end) = read_input(&mut rt.reader(), &mut input) else {
        return eprintln!(rt; "merge: standard input could not be read");
    };
    let length = line::program_line(&input[..end], &mut printed, parked);
    if rt.write_all(&printed[..length]).is_err() {
        return eprintln!(rt; "merge: the line could not be written");
    }
    Ok(())
}
