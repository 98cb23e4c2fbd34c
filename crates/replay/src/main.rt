// Replays the stored answers of the Rust: makes each stored request, and compares the number, the place, the length, the answer, every
// byte of the answer buffer behind it, and every byte of the work buffer with what the list says of the Rust.
//
// The list is the file stdin beside src/, written by rust/compare (`compare --record FILE`). Numbers are little-endian.
//   list:    for each operation, in the order of `Operation::ALL`: u16 count, so many requests; then the byte 255
//   request: u16 number (a count of fields, a level, the mode of a merge; else 0), u32 length of the work buffer, u32 length of the
//            answer buffer, bytes (the sheet, the train, the ids), bytes (the other sheet, the name, list, mask, separator),
//            u8 number and u32 place that the Rust gives, bytes (the answer; none after a refusal)
//   bytes:   u16 count, so many pieces; piece: u16 length, so many bytes, u16 length and the byte that then comes so often
//
// The Rust has no mode "parked log first": there the list has what rust/oracle gives, by hand over the Rust's own pieces.
//
// It prints how many requests of each operation agree, then `all agree`; or the first request that does not, and nothing behind it.
#![tactic(auto)]

mod lent;
mod list;
mod operation;

use buffer::{Number, Outcome};
use operation::{Operation, Request};
use std::io;
use std::io::Read;

// What stands behind the last request.
const LAST: u8 = 255;

// Room for the bytes of a request, and for an answer.
const SPACE: usize = 70000;

// Room for a work buffer.
const WORK_SPACE: usize = 300000;

// Whether a call that left this gave what the Rust gives.
fn settled(outcome: Outcome, told: Outcome, given: &[u8], work: &[u8], answer: &[u8]) -> bool {
    let work_left = if told.number == u8::from(Number::WorkBufferShort) {
        lent::untouched(work, 0)
    } else {
        lent::cleared(work)
    };
    outcome == told && work_left && lent::holds(answer, given)
}

// Whether the call of the list's next request agrees. The buffers are filled with a pattern before it, so that a byte written is seen.
fn agrees(input: &mut impl Read, operation: Operation) -> bool {
    let number = list::next_u16(input);
    let (mut work, mut answer) = ([0; WORK_SPACE], [0; SPACE]);
    let work = list::next_room(input, &mut work);
    let answer = list::next_room(input, &mut answer);
    let (mut first, mut second, mut given) = ([0; SPACE], [0; SPACE], [0; SPACE]);
    let first = list::next_bytes(input, &mut first);
    let second = list::next_bytes(input, &mut second);
    let (told_number, place) = (list::next_u8(input), list::next_usize(input));
    let given = list::next_bytes(input, &mut given);
    let told = Outcome {
        number: told_number,
        place,
        length: given.len(),
    };
    lent::fill(work);
    lent::fill(answer);
    let request = Request {
        first,
        second,
        number,
    };
    let answered = operation.call(request, work, answer);
    settled(Outcome::from(answered), told, given, work, answer)
}

// The next requests of one operation, in order, to the first that does not agree: how many agree.
fn requests(input: &mut impl Read, operation: Operation, count: u16) -> u16 {
    for agreed in 0..count {
        if !agrees(input, operation) {
            return agreed;
        }
    }
    count
}

// The requests of one operation: whether all agree. A line says how many.
fn replay(rt: &impl Print, input: &mut impl Read, operation: Operation) -> io::Result<bool> {
    let count = list::next_u16(input);
    let agreed = requests(input, operation, count);
    println!(rt; "{operation}: {agreed}")?;
    if agreed < count {
        println!(rt; "the next one differs")?;
    }
    Ok(agreed == count)
}

// The requests of every operation, to the first that does not agree: whether all do.
fn replay_all(rt: &impl Print, input: &mut impl Read) -> io::Result<bool> {
    for operation in Operation::ALL {
        if !replay(rt, input, operation)? {
            return Ok(false);
        }
    }
    Ok(true)
}

fn main(rt: HostRuntime) -> io::Result<()> {
    let mut input = rt.reader();
    if !replay_all(&rt, &mut input)? {
        return Ok(());
    }
    let last = list::next_u8(&mut input);
    if last == LAST && input.read_exact(&mut [0]).is_err() {
        println!(rt; "all agree")
    } else {
        println!(rt; "the list does not end where it must")
    }
}
