// Document 01, module 2, types: `DataType::is_nested` of each column, plain equality, `==` of `DataType` (datatype.rs) and of `Field`
// (field.rs, `PartialEq for Field`), `equals_datatype` and `contains`. Sheets that have been read are gone over, two of them side by side.
// Nothing here tests the format again: each function takes any bytes and any places, and says what it answers where the parts stand there.
#![tactic(auto)]

mod compare;
pub mod metadata;

ghost use Rattle.std.specs.Prelude.{◌≡◌, List, map, ℕ, ◌≤◌, length, Bool};
ghost use Rattle.model.specs.Numbers.{max_levels};
ghost use Rattle.model.specs.Bytes.{Bytes, Every, flag, position};
ghost use Rattle.model.specs.Tree.{DataType, Field, Schema};
ghost use Rattle.model.specs.Sheet.{each, field_bytes, type_bytes, sheet_bytes, column_bytes};
ghost use Rattle.model.specs.WellFormed.{LaidOut, Whole, Fits};
ghost use Rattle.model.specs.Equal.{same_field, same_type};
ghost use Rattle.model.specs.Datatype.{is_nested};
ghost use Rattle.model.specs.Unions.{find_by_type_id, find_by_field};
ghost use Rattle.model.specs.Call.{equal_call, equals_datatype_call, contains_call, acceptance, is_nested_call};
ghost use Rattle.buffer.specs.Leaves.{leaves};
ghost use Rattle.walk.specs.Stands.{Stands, member_bytes};
ghost use Rattle.datatype.specs.Answers.{TestedBy};
ghost use Rattle.datatype.specs.Comparisons.{compare_call};

use buffer::Refusal;
use compare::{Comparer, Comparison};
use sheet::Cursor;
use sheet::call::{on_read, on_sheet};
use walk::Elements;

// Whether two types are equal, of at most so many levels.
pub fn same_type(s: &[u8], a: usize, t: &[u8], b: usize, levels: usize) -> bool
    ensures { (l : ℕ) (x y : DataType l) → l ≤ levels → Whole l x → Whole l y → Stands s.now a (type_bytes l x) → Stands t.now b (type_bytes l y) → result ≡ same_type l x y }
{
    let both = Comparer {
        own: s,
        other: t,
        how: Comparison::Equal,
    };
    both.compare_type(a, b, levels)
}

// Whether two fields are equal.
pub fn same_field(s: &[u8], a: usize, t: &[u8], b: usize, levels: usize) -> bool
    ensures { (l : ℕ) (f g : Field l) → l ≤ levels → Whole l f.data_type → Whole l g.data_type → Stands s.now a (field_bytes (type_bytes l) f) → Stands t.now b (field_bytes (type_bytes l) g) → result ≡ same_field (same_type l) f g }
{
    let both = Comparer {
        own: s,
        other: t,
        how: Comparison::Equal,
    };
    both.compare_field(a, b, levels)
}

// The position of the first of so many union children at whose place a test says yes.
fn find_child<F: Fn(usize) -> bool>(
    s: &[u8],
    members: Elements,
    levels: usize,
    matches: F,
) -> Option<usize>
    requires { F.IsAlwaysCallable matches }
    ensures { (l : ℕ) (test : Field l → Bool) (ks : List (Field l)) → l ≤ levels → length ks ≡ members.count → Every (λ k. LaidOut l k.data_type × TestedBy (F.post matches) s.now l test k) ks → Stands s.now members.at (each (member_bytes l) ks) → result ≡ position test ks }
{
    let mut place = members.at;
    for i in 0..members.count {
        if matches(place) {
            return Some(i);
        }
        place = walk::skip_field(s, walk::ahead(s, place, 1), levels);
    }
    None
}

// `UnionFields::find_by_type_id`: the first of so many union children that has this id.
pub fn find_by_type_id(s: &[u8], members: Elements, id: usize, levels: usize) -> Option<usize>
    ensures { (l : ℕ) (ks : List (Field l)) → l ≤ levels → length ks ≡ members.count → Every (λ k. LaidOut l k.data_type) ks → Stands s.now members.at (each (member_bytes l) ks) → result ≡ find_by_type_id ks id }
{
    find_child(s, members, levels, |place| walk::byte(s, place) == id)
}

// `UnionFields::find_by_field`: the first of them whose field is equal to the one that stands at a place of another sheet.
pub fn find_by_field(
    s: &[u8],
    members: Elements,
    t: &[u8],
    field: usize,
    levels: usize,
) -> Option<usize>
    ensures { (l : ℕ) (g : Field l) (ks : List (Field l)) → l ≤ levels → length ks ≡ members.count → Whole l g.data_type → Every (λ k. Whole l k.data_type) ks → Stands t.now field (field_bytes (type_bytes l) g) → Stands s.now members.at (each (member_bytes l) ks) → result ≡ find_by_field (same_type l) ks g }
{
    find_child(s, members, levels, |place| {
        same_field(s, walk::ahead(s, place, 1), t, field, levels)
    })
}

// The call on two sheets: 32, a sheet refused, or "one byte, 1 for yes and 0 for no".
fn answer_comparison(
    sheet: &[u8],
    other: &[u8],
    work: &mut [u8],
    answer: &mut [u8],
    how: Comparison,
) -> Result<usize, Refusal>
    ensures { leaves result answer.new work.new ≡ compare_call how sheet.now other.now work.old answer.old }
{
    let fits = buffer::work_fits_two(work.len(), sheet.len(), other.len());
    let read = || sheet::read_two(sheet, other);
    on_read(fits, read, work, answer, |work, answer| {
        let both = Comparer {
            own: sheet,
            other,
            how,
        };
        both.answer(work, answer)
    })
}

// `==` of `DataType`.
pub fn equal(
    sheet: &[u8],
    other: &[u8],
    work: &mut [u8],
    answer: &mut [u8],
) -> Result<usize, Refusal>
    ensures { leaves result answer.new work.new ≡ equal_call sheet.now other.now work.old answer.old }
{
    answer_comparison(sheet, other, work, answer, Comparison::Equal)
}

// `DataType::equals_datatype`.
pub fn equals_datatype(
    sheet: &[u8],
    other: &[u8],
    work: &mut [u8],
    answer: &mut [u8],
) -> Result<usize, Refusal>
    ensures { leaves result answer.new work.new ≡ equals_datatype_call sheet.now other.now work.old answer.old }
{
    answer_comparison(sheet, other, work, answer, Comparison::EqualsDatatype)
}

// `Schema::contains`.
pub fn contains(
    sheet: &[u8],
    other: &[u8],
    work: &mut [u8],
    answer: &mut [u8],
) -> Result<usize, Refusal>
    ensures { leaves result answer.new work.new ≡ contains_call sheet.now other.now work.old answer.old }
{
    answer_comparison(sheet, other, work, answer, Comparison::Contains)
}

// One byte for each of the columns that stand one behind the other at a place.
fn write_nested(sheet: &[u8], at: usize, answer: &mut [u8])
    ensures { (fs : List (Field max_levels)) → length fs ≡ length answer.old → Every (λ f. LaidOut max_levels f.data_type) fs → Stands sheet.now at (each column_bytes fs) → answer.new ≡ map (λ f. flag 1 (is_nested max_levels f.data_type)) fs }
{
    let mut place = at;
    for byte in answer {
        let data_type = walk::skip_head(sheet, place);
        *byte = u8::from(walk::is_nested(sheet, data_type, Cursor::LEVELS));
        place = walk::skip_type(sheet, data_type, Cursor::LEVELS);
    }
}

// The columns of a sheet that was read: 31, or a byte for each.
fn answer_nested(sheet: &[u8], answer: &mut [u8]) -> Result<usize, Refusal>
    ensures { (x : Schema) → Fits x → sheet.now ≡ sheet_bytes x → (work : Bytes) → leaves result answer.new work ≡ acceptance (map (λ f. flag 1 (is_nested max_levels f.data_type)) x.columns) work answer.old }
{
    let columns = walk::find_columns(sheet, 0);
    buffer::length_fits(columns.count, answer.len())?;
    write_nested(sheet, columns.at, &mut answer[..columns.count]);
    Ok(columns.count)
}

// `DataType::is_nested` of each column.
pub fn is_nested(sheet: &[u8], work: &mut [u8], answer: &mut [u8]) -> Result<usize, Refusal>
    ensures { leaves result answer.new work.new ≡ is_nested_call sheet.now work.old answer.old }
{
    on_sheet(sheet, work, answer, |work, answer| {
        buffer::clear(work);
        answer_nested(sheet, answer)
    })
}
