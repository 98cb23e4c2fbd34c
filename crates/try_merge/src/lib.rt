// Document 01, module 5: `Schema::try_merge` of schema.rs, as the call on a train of sheets. The train stays where it is; the work buffer holds
// the table of the schema merged so far (crates/table), and the answer is the sheet that the table spells (crates/emit).
#![tactic(auto)]

ghost use Rattle.std.specs.Prelude.{◌≡◌, List, ◌*◌, ◌≤◌, length};
ghost use Rattle.model.specs.Numbers.{max_sheets, work_bytes_per_sheet_byte};
ghost use Rattle.model.specs.Bytes.{Every};
ghost use Rattle.model.specs.Tree.{Schema};
ghost use Rattle.model.specs.Sheet.{each, sheet_bytes};
ghost use Rattle.model.specs.WellFormed.{Fits};
ghost use Rattle.model.specs.Merge.{try_merge};
ghost use Rattle.model.specs.Call.{zeros, settled, sheet_answer, merge_call};
ghost use Rattle.buffer.specs.Leaves.{leaves};
ghost use Rattle.table.specs.Edited.{Merges};
ghost use Rattle.try_merge.specs.Claims.{BeginsTable, MergesSheet, MergesSheets};

use buffer::{Number, Refusal};
use datatype::metadata::of_sheet;
use sheet::Cursor;
use sheet::call::on_read;
use table::Table;

// The table of `Schema::empty`: the end of a row of places, and the end of a row of entries.
const EMPTY: [u8; 4] = [255; 4];

// The table of the empty schema, of four bytes: for a train of one byte there is room for it.
fn begin_table<'a>(train: &'a [u8], w: &'a mut [u8]) -> Table<'a>
    ensures same_reference { result.w.ghost_name ≡ w.entry.ghost_name }
    ensures begins { (result.train.now ≡ train.now) × BeginsTable w.old result.w.now result.used }
{
    let mut table = Table::new(train, w);
    table.insert(0, &EMPTY);
    table
}

// One sheet of the train into the table: "per sheet, its metadata by ascending key, then its columns in order".
fn merge_sheet(table: &mut Table<'_>, q: usize, parked: bool) -> Result<(), Number>
    ensures { Merges (MergesSheet parked q) table.old table.new result }
{
    let pairs = of_sheet(table.train, q);
    let columns = walk::find_columns(table.train, q);
    metadata::merge_pairs(table, 0, pairs, Number::SchemaMetadataClash)?;
    let row = table.skip_places(0);
    field::pour(table, row, columns, Cursor::LEVELS, parked)
}

// The sheets of a train, one after the other, into the table of the empty schema. It gives the number of sheets, or the clash with the sheet
// for a place. A train has at most 256 sheets.
fn merge_sheets(s: &[u8], w: &mut [u8], parked: bool) -> Result<usize, Refusal>
    ensures { MergesSheets parked s.now w.old w.new result }
{
    let mut table = begin_table(s, w);
    let mut place = 0;
    for sheet in 0..Cursor::SHEETS {
        if s.len() <= place {
            return Ok(sheet);
        }
        merge_sheet(&mut table, place, parked).map_err(|number| Refusal(number, sheet))?;
        place = walk::skip_sheet(s, place);
    }
    Ok(Cursor::SHEETS)
}

// The answer of a call on a train of at least one sheet: the clash, 30, 31, or the merged sheet. It is put twice: for its length, then into
// the answer buffer.
fn answer_merged(
    train: &[u8],
    work: &mut [u8],
    answer: &mut [u8],
    parked: bool,
) -> Result<usize, Refusal>
    ensures { (xs : List Schema) → train.now ≡ each sheet_bytes xs → Every Fits xs → length xs ≤ max_sheets → 1 ≤ length train.now → work_bytes_per_sheet_byte * length train.now ≤ length work.old → leaves result answer.new work.new ≡ settled (sheet_answer (try_merge parked xs)) (zeros (length work.old)) answer.old }
{
    if let Err(clash) = merge_sheets(train, work, parked) {
        return buffer::refuse(work, clash);
    }
    let length = emit::emit(train, work, &mut []);
    if let Err(refusal) = buffer::length_fits(length, answer.len()) {
        return buffer::refuse(work, refusal);
    }
    emit::emit(train, work, answer);
    buffer::clear(work);
    Ok(length)
}

// A train that was read. "For an empty train the byte 00", for which there need not be room in the work buffer.
fn merge_read(
    train: &[u8],
    work: &mut [u8],
    answer: &mut [u8],
    parked: bool,
) -> Result<usize, Refusal>
    ensures { (xs : List Schema) → train.now ≡ each sheet_bytes xs → Every Fits xs → length xs ≤ max_sheets → work_bytes_per_sheet_byte * length train.now ≤ length work.old → leaves result answer.new work.new ≡ settled (sheet_answer (try_merge parked xs)) (zeros (length work.old)) answer.old }
{
    if train.is_empty() {
        return buffer::accept_byte(work, answer, 0);
    }
    answer_merged(train, work, answer, parked)
}

// `Schema::try_merge`; or, parked log first, the mode of document 02, Item 6.
pub fn merge(
    train: &[u8],
    work: &mut [u8],
    answer: &mut [u8],
    parked: bool,
) -> Result<usize, Refusal>
    ensures { leaves result answer.new work.new ≡ merge_call parked train.now work.old answer.old }
{
    let fits = buffer::work_fits(work.len(), train.len());
    let read = || sheet::read_train(train);
    on_read(fits, read, work, answer, |work, answer| {
        merge_read(train, work, answer, parked)
    })
}
