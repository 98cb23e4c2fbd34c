// How every call on sheets begins.
ghost use Rattle.std.specs.Prelude.{◌≡◌, ◌*◌, ℕ, length, ltb, Ok};
ghost use Rattle.model.specs.Numbers.{work_bytes_per_sheet_byte};
ghost use Rattle.model.specs.Tree.{Schema};
ghost use Rattle.model.specs.Read.{read_sheet};
ghost use Rattle.model.specs.Call.{Answer, and_then, call};
ghost use Rattle.buffer.specs.Puts.{unless_short};
ghost use Rattle.buffer.specs.Leaves.{leaves};
ghost use Rattle.sheet.specs.Calls.{Refuses, Settles, TakesSheet, AnswersSheet};

use buffer::Refusal;

// 32 where the work buffer is too short, the refusal of reading, or what is answered of what was read.
pub fn on_read<
    R: FnOnce() -> Result<usize, Refusal>,
    F: FnOnce(&mut [u8], &mut [u8]) -> Result<usize, Refusal>,
>(
    fits: Result<(), Refusal>,
    read: R,
    work: &mut [u8],
    answer: &mut [u8],
    answered: F,
) -> Result<usize, Refusal>
    requires reading { R.IsAlwaysCallable read }
    requires answering { (n : ℕ) → R.post read (Ok n) → fits ≡ Ok tt → (w a : _) → length w.now ≡ length work.old → F.pre answered w a }
    ensures { (given : ℕ) (outcome : Answer) → fits ≡ unless_short (ltb (length work.old) (work_bytes_per_sheet_byte * given)) → Refuses (R.post read) outcome → ((n : ℕ) → R.post read (Ok n) → Settles (F.post answered) outcome given) → leaves result answer.new work.new ≡ call given outcome work.old answer.old }
{
    fits?;
    match read() {
        Err(refusal) => buffer::refuse(work, refusal),
        Ok(_) => answered(work, answer),
    }
}

// The same of one sheet.
pub fn on_sheet<F: FnOnce(&mut [u8], &mut [u8]) -> Result<usize, Refusal>>(
    sheet: &[u8],
    work: &mut [u8],
    answer: &mut [u8],
    answered: F,
) -> Result<usize, Refusal>
    requires { TakesSheet (F.pre answered) sheet.now }
    ensures { (f : Schema → Answer) → AnswersSheet (F.post answered) f sheet.now → leaves result answer.new work.new ≡ call (length sheet.now) (and_then (read_sheet sheet.now) f) work.old answer.old }
{
    let fits = buffer::work_fits(work.len(), sheet.len());
    let read = || crate::read_sheet(sheet);
    on_read(fits, read, work, answer, answered)
}
