// The line that the program prints, in a mode. Document 01: "number, space, place, space, the answer in lower-case hex or `-`". It is written
// here, into a buffer, and the promise gives every byte of it: what is left to the program is to read and to write.
// The Rust has no such program.
#![tactic(auto)]

ghost use Rattle.std.specs.Prelude.{◌*◌, ◌<◌, ◌≡◌};
ghost use Rattle.model.specs.Bytes.{Bytes};
ghost use Rattle.model.specs.Sheet.{each};
ghost use Rattle.model.specs.Numbers.{max_program_bytes, max_sheet_bytes, work_bytes_per_sheet_byte};
ghost use Rattle.model.specs.Call.{zeros, merge_call};
ghost use Rattle.model.specs.Program.{decimal_of, decimal, hex_digit, hex_byte, hex_or_minus, line_of, program_line};
ghost use Rattle.buffer.specs.Puts.{Puts};
ghost use Rattle.line.specs.Exits.{exit_of};
ghost use Rattle.line.specs.Prints.{Prints};

use buffer::{Number, Outcome, Output, Refusal};

// "program input above 16,000 bytes"
pub const MAX_PROGRAM_BYTES: usize = 16000;

// The work buffer that the longest input asks for.
const WORK_BYTES: usize = buffer::WORK_BYTES_PER_SHEET_BYTE * MAX_PROGRAM_BYTES;

// The longest line: `0 0 `, two digits for each byte of an answer that is as long as the longest input, and the line feed.
pub const MAX_LINE_BYTES: usize = 4 + 2 * MAX_PROGRAM_BYTES + 1;

// A number in decimal, with no zero in front.
pub fn put_decimal(out: &mut Output<'_>, n: usize)
    ensures { Puts (decimal n) out.old out.new }
{
    let mut digits = itoa::Buffer::new();
    out.put(digits.format(n).as_bytes());
}

// Bytes in lower-case hex: two digits each, the higher one first.
pub fn put_hex(out: &mut Output<'_>, bytes: &[u8])
    ensures { Puts (each hex_byte bytes.now) out.old out.new }
{
    for &b in bytes {
        let mut digits = [0u8; 2];
        let _ = hex::encode_to_slice(&[b], &mut digits);
        out.put(&digits);
    }
}

// "the answer in lower-case hex or `-`": of its buffer the answer is as many bytes as the outcome says; a refusal has none. Where the
// outcome says more than the buffer has, all of it is taken. The call's work buffer has no part in it, so the promise holds for each.
fn put_answer(out: &mut Output<'_>, outcome: Outcome, answer: &[u8])
    ensures { (work : Bytes) → Puts (hex_or_minus (exit_of outcome answer.now work)) out.old out.new }
{
    let refused = outcome.number != Outcome::ACCEPTED;
    if refused {
        return out.put_one(b'-');
    }
    let length = outcome.length;
    put_hex(out, &answer[..length.min(answer.len())]);
}

// The line for what a call gave, whatever its three numbers are, and what it left in its answer buffer.
pub fn put_line(out: &mut Output<'_>, outcome: Outcome, answer: &[u8])
    ensures { (work : Bytes) → Puts (line_of (exit_of outcome answer.now work)) out.old out.new }
{
    put_decimal(out, usize::from(outcome.number));
    out.put_one(b' ');
    put_decimal(out, outcome.place);
    out.put_one(b' ');
    put_answer(out, outcome, answer);
    out.put_one(b'\n');
}

// The line of the merge of a train, with buffers that are large enough for any train of that size.
fn put_merged(out: &mut Output<'_>, train: &[u8], parked: bool)
    ensures { Puts (line_of (merge_call parked train.now (zeros (work_bytes_per_sheet_byte * max_program_bytes)) (zeros max_sheet_bytes))) out.old out.new }
{
    let mut work = [0u8; WORK_BYTES];
    let mut answer = [0u8; buffer::MAX_ANSWER_BYTES];
    let answered = try_merge::merge(train, &mut work, &mut answer, parked);
    put_line(out, Outcome::from(answered), &answer);
}

// All that the program prints for what it has read: 35 for more than 16,000 bytes, whatever they are, or the merge of the train.
fn put_program_line(out: &mut Output<'_>, input: &[u8], parked: bool)
    ensures { Puts (program_line parked input.now) out.old out.new }
{
    if MAX_PROGRAM_BYTES < input.len() {
        let answered = Err(Refusal::from(Number::InputTooLong));
        return put_line(out, Outcome::from(answered), &[]);
    }
    put_merged(out, input, parked);
}

// The same into a buffer that holds every such line: so the line is written whole, whatever was read. The promise also says what is left to
// the program: that the bytes given are those of standard input, to its end or to the 16,001st; the line is then that of all of them.
pub fn program_line(input: &[u8], line: &mut [u8; MAX_LINE_BYTES], parked: bool) -> usize
    ensures { Prints parked input.now line.old line.new result }
{
    let mut out = Output::new(line);
    put_program_line(&mut out, input, parked);
    out.written
}
