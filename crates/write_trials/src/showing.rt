// What a trial shows.
use buffer::{Outcome, Output, Refusal};
use std::io;

// Makes a call with buffers that hold what every trial here wants, and shows what was called, then the line as the program merge prints it.
pub fn show<F: FnOnce(&mut [u8], &mut [u8]) -> Result<usize, Refusal>>(
    rt: &impl Print,
    what: &str,
    call: F,
) -> io::Result<()>
    requires { F.IsAlwaysCallable call }
{
    let mut work = [0u8; 1100];
    let mut answer = [0u8; 100];
    let mut line = [0u8; 250];
    let answered = call(&mut work, &mut answer);
    let mut out = Output::new(&mut line);
    line::put_line(&mut out, Outcome::from(answered), &answer);
    let length = out.written;
    print!(rt; "{what}: ")?;
    rt.write_all(line.get(..length).unwrap_or(&line))
}

// What was called, then number, place, and the answer's length.
pub fn show_length(
    rt: &impl Print,
    what: &str,
    answered: Result<usize, Refusal>,
) -> io::Result<()> {
    let outcome = Outcome::from(answered);
    println!(rt;
        "{what}: {} {}, {} bytes",
        outcome.number, outcome.place, outcome.length
    )
}
