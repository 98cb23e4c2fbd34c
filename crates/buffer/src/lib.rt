// Lent byte buffers, and the end of a call. A call is lent a work buffer and an answer buffer, and its promise gives every byte of both
// as it returns. What writes into them, and what each call ends with, stands here and is proved once.
// It renders document 01, "Numbers a call gives": the three numbers that a call gives; 30, 31 and 32; "It writes nothing to the answer
// buffer; acceptance writes exactly the answer at its start. The work buffer is untouched after 32, else all zero." The Rust has no
// such buffers: what it makes, it owns.
#![tactic(auto)]

mod refusal;

ghost use Rattle.std.specs.Prelude.{◌≡◌, [], ◌∷◌, ◌+◌, ◌*◌, ◌/◌, ◌%◌, ◌≤◌, ◌<◌, length, take, ltb, Ok, Err};
ghost use Rattle.model.specs.Numbers.{work_bytes_per_sheet_byte};
ghost use Rattle.model.specs.Bytes.{Bytes, u16};
ghost use Rattle.model.specs.Call.{zeros, acceptance};
ghost use Rattle.buffer.specs.Buffer.{pasted};
ghost use Rattle.buffer.specs.Refusals.{numbered};
ghost use Rattle.buffer.specs.Puts.{Puts, length_number, unless_short, unless_refused};
ghost use Rattle.buffer.specs.Leaves.{leaves, outcome_of};

pub use refusal::{Number, Refusal};

// "work buffer below 4 times the sheet bytes given"
pub const WORK_BYTES_PER_SHEET_BYTE: usize = 4;

// "answer above 65,535 bytes": an answer is no longer than a sheet may be
pub const MAX_ANSWER_BYTES: usize = 65535;

// What every call gives over C: the number, its place, and how many bytes of the answer buffer are the answer.
#[derive(Clone, Copy, Debug, PartialEq, Eq)]
pub struct Outcome {
    pub number: u8,
    pub place: usize,
    pub length: usize,
}

impl Outcome {
    pub const ACCEPTED: u8 = 0;
}

// A call answers the length of its answer, or its refusal.
impl From<Result<usize, Refusal>> for Outcome {
    ghost from_gives = { λ answered outcome. outcome ≡ outcome_of answered };

    fn from(answered: Result<usize, Refusal>) -> Self {
        match answered {
            Ok(length) => Self {
                number: Self::ACCEPTED,
                place: 0,
                length,
            },
            Err(Refusal(number, place)) => Self {
                number: u8::from(number),
                place,
                length: 0,
            },
        }
    }
}

// Every byte becomes 0.
pub fn clear(w: &mut [u8])
    ensures { w.new ≡ zeros (length w.old) }
{
    w.fill(0);
}

// Writes src over dst from index at. One byte or two, as a field's map and its type often are, take less than the library's call.
pub fn copy_in(dst: &mut [u8], at: usize, src: &[u8])
    requires { at + length src.now ≤ length dst.old }
    ensures { dst.new ≡ pasted dst.old at src.now }
{
    match src {
        [a] => dst[at] = *a,
        [a, b] => {
            dst[at] = *a;
            dst[at + 1] = *b;
        }
        _ => dst[at..at + src.len()].copy_from_slice(src),
    }
}

// The two lower bytes of a number, the lower one first.
fn two_bytes(v: usize) -> [u8; 2]
    ensures { result ≡ v % 256 ∷ v / 256 % 256 ∷ [] }
{
    ((v % 65536) as u16).to_le_bytes()
}

// The two bytes of a number below 65,536. They compile to one store.
pub fn put_u16(dst: &mut [u8], at: usize, v: usize)
    requires { (at + 2 ≤ length dst.old) × (v < 65536) }
    ensures { dst.new ≡ pasted dst.old at (u16 v) }
{
    copy_in(dst, at, &two_bytes(v));
}

// An answer as it is put together: the buffer for it, and how many bytes were put, also where they found no room. More than MAX_ANSWER_BYTES
// say that they pass the longest answer. A call that writes a sheet writes it twice: into a buffer of no bytes for its length, then into the
// answer buffer.
#[derive(Drop)]
pub struct Output<'a> {
    buffer: &'a mut [u8],
    pub written: usize,
}

impl<'a> Output<'a> {
    // Nothing was put yet.
    pub fn new(buffer: &'a mut [u8]) -> Self
        ensures { (result.buffer.ghost_name ≡ buffer.entry.ghost_name) × (result.buffer.now ≡ buffer.old) × (result.written ≡ 0) }
    {
        Self { buffer, written: 0 }
    }

    // Bytes behind those that were put, written where they fit.
    pub fn put(&mut self, src: &[u8])
        ensures { Puts src.now self.old self.new }
    {
        if MAX_ANSWER_BYTES < self.written {
            return;
        }
        let from = self.written;
        if MAX_ANSWER_BYTES - from < src.len() {
            self.written = MAX_ANSWER_BYTES + 1;
            return;
        }
        self.written = from + src.len();
        if self.written <= self.buffer.len() {
            copy_in(self.buffer, from, src);
        }
    }

    // One byte.
    pub fn put_one(&mut self, b: u8)
        ensures { Puts (b ∷ []) self.old self.new }
    {
        self.put(&[b]);
    }

    // The two lower bytes of a number. A count above 65,535 stands in no accepted answer, since its elements pass the longest one.
    pub fn put_two(&mut self, v: usize)
        ensures { Puts (v % 256 ∷ v / 256 % 256 ∷ []) self.old self.new }
    {
        self.put(&two_bytes(v));
    }
}

// 32, unless a work buffer of `work` bytes is enough for `given` sheet bytes. The product might not fit, so the quotient is compared.
pub fn work_fits(work: usize, given: usize) -> Result<(), Refusal>
    ensures { result ≡ unless_short (ltb work (work_bytes_per_sheet_byte * given)) }
{
    if work / WORK_BYTES_PER_SHEET_BYTE < given {
        return Err(Refusal::from(Number::WorkBufferShort));
    }
    Ok(())
}

// The same for two sheets, whose sum might not fit either: there has to be room for the first, and in what that leaves for the second.
pub fn work_fits_two(work: usize, one: usize, other: usize) -> Result<(), Refusal>
    ensures { result ≡ unless_short (ltb work (work_bytes_per_sheet_byte * (one + other))) }
{
    work_fits(work, one)?;
    work_fits(work - WORK_BYTES_PER_SHEET_BYTE * one, other)
}

// 30 or 31, unless an answer of `written` bytes is no longer than the longest one and fits a buffer of `room`.
pub fn length_fits(written: usize, room: usize) -> Result<(), Refusal>
    ensures { numbered result ≡ unless_refused (length_number written room) }
{
    if MAX_ANSWER_BYTES < written {
        return Err(Refusal::from(Number::AnswerTooLong));
    }
    if room < written {
        return Err(Refusal::from(Number::AnswerBufferShort));
    }
    Ok(())
}

// 30, 31, or the bytes at the answer buffer's start. It holds whatever the work buffer has, so it also ends the calls that have none, and
// those whose answer lies in the work buffer, which they clear next.
#[tactic(auto, using(crate::proofs::Ends::acceptance_err, crate::proofs::Ends::acceptance_written, crate::proofs::Ends::length_room))]
pub fn write_answer(answer: &mut [u8], bytes: &[u8]) -> Result<usize, Refusal>
    ensures { (work : Bytes) → leaves result answer.new work ≡ acceptance bytes.now work answer.old }
{
    length_fits(bytes.len(), answer.len())?;
    copy_in(answer, 0, bytes);
    Ok(bytes.len())
}

// The end of a call with a refusal after 32, whatever says the refusal: the work buffer is cleared.
pub fn refuse<E>(work: &mut [u8], refusal: E) -> Result<usize, E>
    ensures { (result ≡ Err refusal) × (work.new ≡ zeros (length work.old)) }
{
    clear(work);
    Err(refusal)
}

// The end of a call with an answer, which lies ready in a slice: 30, 31, or acceptance, and the work buffer is cleared.
pub fn accept(work: &mut [u8], answer: &mut [u8], bytes: &[u8]) -> Result<usize, Refusal>
    ensures { leaves result answer.new work.new ≡ acceptance bytes.now (zeros (length work.old)) answer.old }
{
    clear(work);
    write_answer(answer, bytes)
}

// The same where the answer lies at the work buffer's own start.
pub fn accept_written(work: &mut [u8], written: usize, answer: &mut [u8]) -> Result<usize, Refusal>
    requires { written ≤ length work.old }
    ensures { leaves result answer.new work.new ≡ acceptance (take written work.old) (zeros (length work.old)) answer.old }
{
    let answered = write_answer(answer, &work[..written]);
    clear(work);
    answered
}

// "one byte, 1 for yes and 0 for no"
pub fn accept_byte(work: &mut [u8], answer: &mut [u8], b: u8) -> Result<usize, Refusal>
    ensures { leaves result answer.new work.new ≡ acceptance (b ∷ []) (zeros (length work.old)) answer.old }
{
    accept(work, answer, &[b])
}

// "`index_of` writes a u16." Of a larger number the call says nothing: that a number is that small is known of a sheet that was read.
pub fn accept_u16(work: &mut [u8], answer: &mut [u8], v: usize) -> Result<usize, Refusal>
    ensures { v < 65536 → leaves result answer.new work.new ≡ acceptance (u16 v) (zeros (length work.old)) answer.old }
{
    accept(work, answer, &two_bytes(v))
}
