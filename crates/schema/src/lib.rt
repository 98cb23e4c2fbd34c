// Document 01, module 5, schemas: the calls of schema.rs on sheets. So far `Schema::index_of` and `Schema::flattened_fields`. A sheet is
// read first; then its bytes are gone over once, with no tree in between.
#![tactic(auto)]

ghost use Rattle.std.specs.Prelude.{◌≡◌, ◌*◌, ◌≤◌, List, ℕ, length};
ghost use Rattle.model.specs.Numbers.{max_levels};
ghost use Rattle.model.specs.Bytes.{Bytes, Every, position, same_bytes, u16};
ghost use Rattle.model.specs.Tree.{Head, Field, Schema};
ghost use Rattle.model.specs.Sheet.{each, with_count, text_bytes, head_bytes, column_bytes, sheet_bytes};
ghost use Rattle.model.specs.WellFormed.{LaidOut, Fits};
ghost use Rattle.model.specs.Schema.{index_of, flattened_fields};
ghost use Rattle.model.specs.Call.{and_then, bytes, settled, zeros, index_of_call, flattened_fields_call};
ghost use Rattle.buffer.specs.Leaves.{leaves};
ghost use Rattle.walk.specs.Stands.{Stands};
ghost use Rattle.schema.specs.Flattens.{FlattensType, FlattensField, FlattensRow, FlattensChildren, Listed};

use buffer::{Number, Output, Refusal};
use layout::{ChildrenKind, RUN_END_ENCODED};
use sheet::Cursor;
use sheet::call::on_sheet;
use walk::Elements;

// Whether the text that stands at a place is this one.
fn is_text(s: &[u8], at: usize, name: &[u8]) -> bool
    ensures { (t : Bytes) → Stands s.now at (text_bytes t) → result ≡ same_bytes t name.now }
{
    let body = walk::ahead(s, at, 2);
    let Some(text) = s.get(body..body + walk::two(s, at)) else {
        return false;
    };
    text::same(text, name)
}

// Whether the field that stands at a place has this name: an empty name is not written.
fn has_name(s: &[u8], at: usize, name: &[u8]) -> bool
    ensures { (h : Head) → Stands s.now at (head_bytes h) → result ≡ same_bytes h.name name.now }
{
    if walk::bit(walk::byte(s, at), 2) {
        return is_text(s, walk::ahead(s, at, 1), name);
    }
    name.is_empty()
}

// The position of the first of so many columns that has this name.
fn find_name(s: &[u8], columns: Elements, name: &[u8]) -> Option<usize>
    ensures { (fs : List (Field max_levels)) → length fs ≡ columns.count → Every (λ f. LaidOut max_levels f.data_type) fs → Stands s.now columns.at (each column_bytes fs) → result ≡ position (λ f. same_bytes f.head.name name.now) fs }
{
    let mut place = columns.at;
    for i in 0..columns.count {
        if has_name(s, place, name) {
            return Some(i);
        }
        place = walk::skip_field(s, place, Cursor::LEVELS);
    }
    None
}

// The columns of a sheet that was read.
fn find_column(s: &[u8], name: &[u8]) -> Option<usize>
    ensures { (x : Schema) → Fits x → s.now ≡ sheet_bytes x → result ≡ position (λ f. same_bytes f.head.name name.now) x.columns }
{
    find_name(s, walk::find_columns(s, 0), name)
}

// "`index_of` writes a u16": the position of the column of a sheet that was read, or 13.
fn answer_position(
    sheet: &[u8],
    name: &[u8],
    work: &mut [u8],
    answer: &mut [u8],
) -> Result<usize, Refusal>
    ensures { (x : Schema) → Fits x → sheet.now ≡ sheet_bytes x → leaves result answer.new work.new ≡ settled (and_then (index_of x name.now) bytes) (zeros (length work.old)) answer.old }
{
    match find_column(sheet, name) {
        Some(i) => buffer::accept_u16(work, answer, i),
        None => buffer::refuse(work, Refusal::from(Number::NoSuchColumn)),
    }
}

// `Schema::index_of`: the first column of this name.
pub fn index_of(
    sheet: &[u8],
    name: &[u8],
    work: &mut [u8],
    answer: &mut [u8],
) -> Result<usize, Refusal>
    ensures { leaves result answer.new work.new ≡ index_of_call sheet.now name.now work.old answer.old }
{
    on_sheet(sheet, work, answer, |work, answer| {
        answer_position(sheet, name, work, answer)
    })
}

// `Field::fields`: the place of the field itself, then those of the fields of its type: "parents first". Each of these functions gives the
// place behind what it is for.
#[cycle(flattening)]
fn flatten_field(s: &[u8], at: usize, levels: usize, out: &mut Output<'_>) -> usize
    ensures { FlattensField s.now at levels out.old out.new result }
{
    out.put_two(at);
    flatten_type(s, walk::skip_head(s, at), levels, out)
}

// The fields of a type of at most so many levels, itself among them.
#[cycle(flattening)]
fn flatten_type(s: &[u8], at: usize, levels: usize, out: &mut Output<'_>) -> usize
    ensures { FlattensType s.now at levels out.old out.new result }
{
    if levels == 0 {
        return at;
    }
    let code = walk::byte(s, at);
    let params = walk::ahead(s, at, 1);
    let children = walk::skip_params(s, params, code);
    flatten_children(s, children, code, levels - 1, out)
}

// `Field::_fields`, arm by arm: "run ends and dictionary keys skipped".
#[cycle(flattening)]
fn flatten_children(s: &[u8], at: usize, code: usize, levels: usize, out: &mut Output<'_>) -> usize
    ensures { FlattensChildren s.now at code levels out.old out.new result }
{
    if code == RUN_END_ENCODED {
        let values = walk::skip_field(s, at, levels);
        return flatten_field(s, values, levels, out);
    }
    match layout::children(code) {
        ChildrenKind::Fields(count) => flatten_fields(s, Elements { count, at }, 0, levels, out),
        ChildrenKind::KeyAndValue => {
            let value = walk::skip_type(s, at, levels);
            flatten_type(s, value, levels, out)
        }
        ChildrenKind::Counted => flatten_fields(s, Elements::counted(s, at), 0, levels, out),
        ChildrenKind::CountedWithIds => flatten_fields(s, Elements::counted(s, at), 1, levels, out),
    }
}

// So many fields, one behind the other, with so many bytes before each: a union's child has its id there, others nothing.
#[cycle(flattening)]
fn flatten_fields(
    s: &[u8],
    fields: Elements,
    before: usize,
    levels: usize,
    out: &mut Output<'_>,
) -> usize
    ensures { FlattensRow s.now fields.at fields.count before levels out.old out.new result }
{
    let mut place = fields.at;
    for _ in 0..fields.count {
        let field = walk::ahead(s, place, before);
        place = flatten_field(s, field, levels, out);
    }
    place
}

// "a u16 count, then a u16 for each field", from the start of the work buffer on. The count is known last, and put over the first two bytes.
fn list_fields(s: &[u8], w: &mut [u8]) -> usize
    ensures { Listed s.now w.old w.new result }
{
    let mut out = Output::new(w);
    out.put_two(0);
    flatten_fields(s, walk::find_columns(s, 0), 0, Cursor::LEVELS, &mut out);
    let end = out.written;
    let mut count = Output::new(w);
    count.put_two(end.saturating_sub(2) / 2);
    end
}

// The offsets of a sheet that was read.
fn answer_fields(sheet: &[u8], work: &mut [u8], answer: &mut [u8]) -> Result<usize, Refusal>
    requires { (x : Schema) × Fits x × (sheet.now ≡ sheet_bytes x) × (4 * length sheet.now ≤ length work.old) }
    ensures { (x : Schema) → Fits x → sheet.now ≡ sheet_bytes x → 4 * length sheet.now ≤ length work.old → leaves result answer.new work.new ≡ settled (bytes (with_count u16 (flattened_fields x))) (zeros (length work.old)) answer.old }
{
    let written = list_fields(sheet, work);
    buffer::accept_written(work, written, answer)
}

// `Schema::flattened_fields`: "the count and the offset of each field's map in the sheet".
pub fn flattened_fields(sheet: &[u8], work: &mut [u8], answer: &mut [u8]) -> Result<usize, Refusal>
    ensures { leaves result answer.new work.new ≡ flattened_fields_call sheet.now work.old answer.old }
{
    on_sheet(sheet, work, answer, |work, answer| {
        answer_fields(sheet, work, answer)
    })
}
