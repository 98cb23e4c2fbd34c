// Document 01, module 5, projection: `Schema::project`, which allows repeats, and `SchemaBuilder::project`, the strict one, both of
// schema.rs. A sheet is read first. Then the places of its columns are written to the work buffer, so that each entry of the list costs
// the same however many columns there are, and behind them a flag for each column: the Rust's `HashSet` of seen indexes.
#![tactic(auto)]

ghost use Rattle.std.specs.Prelude.{◌≡◌, List, ◌∷◌, Bool, true, false, ℕ, ◌+◌, ◌*◌, ◌/◌, ◌%◌, ◌≤◌, ◌<◌, length, take, set};
ghost use Rattle.model.specs.Numbers.{max_levels};
ghost use Rattle.model.specs.Bytes.{Every, flag};
ghost use Rattle.model.specs.Tree.{Field, Schema};
ghost use Rattle.model.specs.Sheet.{each, part, stands, with_count, pair_bytes, column_bytes, sheet_bytes};
ghost use Rattle.model.specs.WellFormed.{LaidOut, Fits};
ghost use Rattle.model.specs.Read.{got};
ghost use Rattle.model.specs.Schema.{project};
ghost use Rattle.model.specs.Call.{sheet_answer, acceptance, settled, zeros, project_call};
ghost use Rattle.buffer.specs.Puts.{Puts, Fills};
ghost use Rattle.buffer.specs.Refusals.{numbered};
ghost use Rattle.buffer.specs.Leaves.{leaves};
ghost use Rattle.walk.specs.Stands.{Stands};
ghost use Rattle.project.specs.Answers.{checked_of, verdict_of};
ghost use Rattle.project.specs.Seen.{index_fits_by, marked};
ghost use Rattle.project.specs.Table.{Table};

use buffer::{Number, Output, Refusal};
use sheet::Cursor;
use sheet::call::on_sheet;
use walk::Elements;

// Writes a place as entry i of a table: its two lower bytes.
fn put_place(work: &mut [u8], i: usize, place: usize)
    requires { 2 * i + 2 ≤ length work.old }
    ensures { work.new ≡ set (set work.old (2 * i) (place % 256)) (2 * i + 1) (place / 256 % 256) }
{
    let [low, high, ..] = place.to_le_bytes();
    work[2 * i] = low;
    work[2 * i + 1] = high;
}

// The places of so many columns that stand one behind the other, and the place behind the last.
fn write_places(s: &[u8], columns: Elements, work: &mut [u8])
    requires { 2 * columns.count + 2 ≤ length work.old }
    ensures { (fs : List (Field max_levels)) → length fs ≡ columns.count → Every (λ f. LaidOut max_levels f.data_type) fs → Stands s.now columns.at (each column_bytes fs) → length s.now < 65536 → Table s.now work.new fs }
{
    put_place(work, 0, columns.at);
    let mut place = columns.at;
    for i in 0..columns.count {
        place = walk::skip_field(s, place, Cursor::LEVELS);
        put_place(work, i + 1, place);
    }
}

// One entry, after those whose flag is set: 10; and if strict 11, or its own flag is set.
fn check_entry(seen: &mut [u8], i: usize, strict: bool, at: usize) -> Result<(), Refusal>
    ensures { (numbered result ≡ verdict_of (index_fits_by strict seen.old i) at) × (seen.new ≡ marked strict result seen.old i) }
{
    if seen.len() <= i {
        return Err(Refusal(Number::IndexOutOfBounds, at));
    }
    if !strict {
        return Ok(());
    }
    if seen[i] == 1 {
        return Err(Refusal(Number::IndexRepeated, at));
    }
    seen[i] = 1;
    Ok(())
}

// The map, of which the bit for the metadata is as it was and that for the columns is given, and the metadata as it stands in the sheet.
fn put_front(s: &[u8], columns: bool, out: &mut Output<'_>)
    ensures { (x : Schema) → s.now ≡ sheet_bytes x → Puts ((flag 1 (stands x.metadata) + flag 2 columns) ∷ part (with_count pair_bytes) x.metadata) out.old out.new }
{
    let metadata = walk::bit(walk::byte(s, 0), 0);
    out.put_one(u8::from(metadata) + 2 * u8::from(columns));
    walk::put_part(out, s, 1, walk::skip_sheet_head(s, 0));
}

// A projection: of which sheet, by which list, and whether an index may stand in the list once only.
#[derive(Clone, Copy)]
struct Projection<'a> {
    sheet: &'a [u8],
    list: &'a [u8],
    strict: bool,
}

impl Projection<'_> {
    // The list against as many columns as there are flags: 17, then the entries in order.
    fn check_list(&self, seen: &mut [u8]) -> Result<(), Refusal>
        ensures { (x : Schema) → length x.columns ≡ length seen.old → numbered result ≡ checked_of (project self.now.strict x self.now.list.now) }
    {
        if self.list.len() % 2 == 1 {
            return Err(Refusal::from(Number::OddList));
        }
        buffer::clear(seen);
        for (e, entry) in self.list.chunks_exact(2).enumerate() {
            let checked = check_entry(seen, walk::two(entry, 0), self.strict, e);
            let Ok(()) = checked else {
                return checked;
            };
        }
        Ok(())
    }

    // The same with the flags behind a table of so many columns, which stays as it is.
    fn check_behind(&self, count: usize, work: &mut [u8]) -> Result<(), Refusal>
        requires { 3 * count + 2 ≤ length work.old }
        ensures { (take (2 * count + 2) work.new ≡ take (2 * count + 2) work.old) × ((x : Schema) → length x.columns ≡ count → numbered result ≡ checked_of (project self.now.strict x self.now.list.now)) }
    {
        let from = 2 * count + 2;
        let end = from + count;
        self.check_list(&mut work[from..end])
    }

    // The table of a sheet that was read, and the verdict on the list. The work buffer has room, since a sheet has more bytes than columns:
    // the test is for any other bytes.
    fn check_columns(&self, work: &mut [u8]) -> Result<(), Refusal>
        ensures { (x : Schema) → Fits x → self.now.sheet.now ≡ sheet_bytes x → 4 * length self.now.sheet.now ≤ length work.old → (numbered result ≡ checked_of (project self.now.strict x self.now.list.now)) × Table self.now.sheet.now work.new x.columns }
    {
        let columns = walk::find_columns(self.sheet, 0);
        let count = columns.count;
        if work.len() / 4 <= count {
            return Ok(());
        }
        write_places(self.sheet, columns, work);
        self.check_behind(count, work)
    }

    // The column of each entry of a list that was accepted. Beyond the longest answer no more is looked at.
    fn put_columns(&self, table: &[u8], out: &mut Output<'_>)
        ensures { (x y : Schema) (strict : Bool) (n : ℕ) → Table self.now.sheet.now table.now x.columns → project strict x self.now.list.now ≡ got y n → Puts (each column_bytes y.columns) out.old out.new }
    {
        for entry in self.list.chunks_exact(2) {
            if buffer::MAX_ANSWER_BYTES < out.written {
                return;
            }
            let i = walk::two(entry, 0);
            let from = walk::two(table, 2 * i);
            let to = walk::two(table, 2 * (i + 1));
            walk::put_part(out, self.sheet, from, to);
        }
    }

    // The sheet of the projection by a list that was accepted, from the buffer's start on, and its length.
    fn put_projected(&self, table: &[u8], dst: &mut [u8]) -> usize
        ensures { (x y : Schema) (strict : Bool) (n : ℕ) → self.now.sheet.now ≡ sheet_bytes x → Table self.now.sheet.now table.now x.columns → project strict x self.now.list.now ≡ got y n → Fills (sheet_bytes y) dst.old dst.new result }
    {
        let mut out = Output::new(dst);
        let none = self.list.is_empty();
        put_front(self.sheet, !none, &mut out);
        if none {
            return out.written;
        }
        out.put_two(self.list.len() / 2);
        self.put_columns(table, &mut out);
        out.written
    }

    // The end of a call whose list was accepted: the answer's length first, then 30, 31, or the answer.
    fn answer_projected(&self, work: &mut [u8], answer: &mut [u8]) -> Result<usize, Refusal>
        ensures { (x y : Schema) (strict : Bool) (n : ℕ) → self.now.sheet.now ≡ sheet_bytes x → Table self.now.sheet.now work.old x.columns → project strict x self.now.list.now ≡ got y n → leaves result answer.new work.new ≡ acceptance (sheet_bytes y) (zeros (length work.old)) answer.old }
    {
        let written = self.put_projected(work, &mut []);
        match buffer::length_fits(written, answer.len()) {
            Err(refusal) => buffer::refuse(work, refusal),
            Ok(()) => {
                self.put_projected(work, answer);
                buffer::clear(work);
                Ok(written)
            }
        }
    }

    // What a call ends with whose sheet was read: the refusal of the list, or the projection.
    fn project_read(&self, work: &mut [u8], answer: &mut [u8]) -> Result<usize, Refusal>
        ensures { (x : Schema) → Fits x → self.now.sheet.now ≡ sheet_bytes x → 4 * length self.now.sheet.now ≤ length work.old → leaves result answer.new work.new ≡ settled (sheet_answer (project self.now.strict x self.now.list.now)) (zeros (length work.old)) answer.old }
    {
        match self.check_columns(work) {
            Err(entry) => buffer::refuse(work, entry),
            Ok(()) => self.answer_projected(work, answer),
        }
    }
}

// Both calls.
fn project_by(
    sheet: &[u8],
    list: &[u8],
    strict: bool,
    work: &mut [u8],
    answer: &mut [u8],
) -> Result<usize, Refusal>
    ensures { leaves result answer.new work.new ≡ project_call strict sheet.now list.now work.old answer.old }
{
    on_sheet(sheet, work, answer, |work, answer| {
        let projection = Projection {
            sheet,
            list,
            strict,
        };
        projection.project_read(work, answer)
    })
}

// `Schema::project`: the columns of the list's entries, in the list's order.
pub fn project(
    sheet: &[u8],
    list: &[u8],
    work: &mut [u8],
    answer: &mut [u8],
) -> Result<usize, Refusal>
    ensures { leaves result answer.new work.new ≡ project_call false sheet.now list.now work.old answer.old }
{
    project_by(sheet, list, false, work, answer)
}

// `SchemaBuilder::project`: an index may stand in the list once.
pub fn project_strict(
    sheet: &[u8],
    list: &[u8],
    work: &mut [u8],
    answer: &mut [u8],
) -> Result<usize, Refusal>
    ensures { leaves result answer.new work.new ≡ project_call true sheet.now list.now work.old answer.old }
{
    project_by(sheet, list, true, work, answer)
}
