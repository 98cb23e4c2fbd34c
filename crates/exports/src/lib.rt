// The calls for the Rust desk and for C. Document 01: "The desk program stays in Rust and calls in with numbers and byte slices". Each is
// the call of its crate: the number is given back, place and length are written where the caller says, and the promise is the same.
// A slice is a pointer and a length; include/sheets.h declares them for C.
#![tactic(auto)]

ghost use Rattle.std.specs.Prelude.{◌≡◌, [], true, false};
ghost use Rattle.model.specs.Bytes.{Bytes};
ghost use Rattle.model.specs.Call.{try_new_call, try_from_fields_call, is_nested_call, equal_call, equals_datatype_call, contains_call, merge_call, mode_of, index_of_call, flattened_fields_call, project_call, normalize_call, filter_call};
ghost use Rattle.buffer.specs.Leaves.{leaves};
ghost use Rattle.exports.specs.Told.{told};

use buffer::{Outcome, Refusal};

// The number of the Rust's mode.
const AS_THE_RUST: u8 = 0;

// Writes place and length, and gives the number: what the export leaves is then what the call of its crate leaves.
#[tactic(auto, unfolding(crate::specs::Told::told, buffer::specs::Leaves::leaves))]
fn tell(answered: Result<usize, Refusal>, place: &mut usize, length: &mut usize) -> u8
    ensures { (answer work : Bytes) → told result place.new length.new answer work ≡ leaves answered answer work }
{
    let outcome = Outcome::from(answered);
    *place = outcome.place;
    *length = outcome.length;
    outcome.number
}

// Module 3: the two union numberings.
#[unsafe(no_mangle)]
pub extern "C" fn sheets_try_new(
    ids: &[u8],
    count: u16,
    answer: &mut [u8],
    place: &mut usize,
    length: &mut usize,
) -> u8
    ensures { told result place.new length.new answer.new [] ≡ try_new_call ids.now count answer.old }
{
    let answered = unions::try_new(ids, count, answer);
    tell(answered, place, length)
}

#[unsafe(no_mangle)]
pub extern "C" fn sheets_try_from_fields(
    count: u16,
    answer: &mut [u8],
    place: &mut usize,
    length: &mut usize,
) -> u8
    ensures { told result place.new length.new answer.new [] ≡ try_from_fields_call count answer.old }
{
    let answered = unions::try_from_fields(count, answer);
    tell(answered, place, length)
}

// Module 2: types.
#[unsafe(no_mangle)]
pub extern "C" fn sheets_is_nested(
    sheet: &[u8],
    work: &mut [u8],
    answer: &mut [u8],
    place: &mut usize,
    length: &mut usize,
) -> u8
    ensures { told result place.new length.new answer.new work.new ≡ is_nested_call sheet.now work.old answer.old }
{
    let answered = datatype::is_nested(sheet, work, answer);
    tell(answered, place, length)
}

#[unsafe(no_mangle)]
pub extern "C" fn sheets_equal(
    sheet: &[u8],
    other: &[u8],
    work: &mut [u8],
    answer: &mut [u8],
    place: &mut usize,
    length: &mut usize,
) -> u8
    ensures { told result place.new length.new answer.new work.new ≡ equal_call sheet.now other.now work.old answer.old }
{
    let answered = datatype::equal(sheet, other, work, answer);
    tell(answered, place, length)
}

#[unsafe(no_mangle)]
pub extern "C" fn sheets_equals_datatype(
    sheet: &[u8],
    other: &[u8],
    work: &mut [u8],
    answer: &mut [u8],
    place: &mut usize,
    length: &mut usize,
) -> u8
    ensures { told result place.new length.new answer.new work.new ≡ equals_datatype_call sheet.now other.now work.old answer.old }
{
    let answered = datatype::equals_datatype(sheet, other, work, answer);
    tell(answered, place, length)
}

#[unsafe(no_mangle)]
pub extern "C" fn sheets_contains(
    sheet: &[u8],
    other: &[u8],
    work: &mut [u8],
    answer: &mut [u8],
    place: &mut usize,
    length: &mut usize,
) -> u8
    ensures { told result place.new length.new answer.new work.new ≡ contains_call sheet.now other.now work.old answer.old }
{
    let answered = datatype::contains(sheet, other, work, answer);
    tell(answered, place, length)
}

// Modules 4 and 5: the merge of a train, in the mode that a number asks for (document 02, Item 6): 0 is the Rust's, any other is parked log
// first.
#[tactic(auto, unfolding(model::specs::Call::mode_of))]
#[unsafe(no_mangle)]
pub extern "C" fn sheets_merge(
    train: &[u8],
    work: &mut [u8],
    answer: &mut [u8],
    place: &mut usize,
    length: &mut usize,
    mode: u8,
) -> u8
    ensures { told result place.new length.new answer.new work.new ≡ merge_call (mode_of mode) train.now work.old answer.old }
{
    let answered = try_merge::merge(train, work, answer, mode != AS_THE_RUST);
    tell(answered, place, length)
}

// Module 5: schemas.
#[unsafe(no_mangle)]
pub extern "C" fn sheets_index_of(
    sheet: &[u8],
    name: &[u8],
    work: &mut [u8],
    answer: &mut [u8],
    place: &mut usize,
    length: &mut usize,
) -> u8
    ensures { told result place.new length.new answer.new work.new ≡ index_of_call sheet.now name.now work.old answer.old }
{
    let answered = schema::index_of(sheet, name, work, answer);
    tell(answered, place, length)
}

#[unsafe(no_mangle)]
pub extern "C" fn sheets_flattened_fields(
    sheet: &[u8],
    work: &mut [u8],
    answer: &mut [u8],
    place: &mut usize,
    length: &mut usize,
) -> u8
    ensures { told result place.new length.new answer.new work.new ≡ flattened_fields_call sheet.now work.old answer.old }
{
    let answered = schema::flattened_fields(sheet, work, answer);
    tell(answered, place, length)
}

#[unsafe(no_mangle)]
pub extern "C" fn sheets_project(
    sheet: &[u8],
    list: &[u8],
    work: &mut [u8],
    answer: &mut [u8],
    place: &mut usize,
    length: &mut usize,
) -> u8
    ensures { told result place.new length.new answer.new work.new ≡ project_call false sheet.now list.now work.old answer.old }
{
    let answered = project::project(sheet, list, work, answer);
    tell(answered, place, length)
}

#[unsafe(no_mangle)]
pub extern "C" fn sheets_project_strict(
    sheet: &[u8],
    list: &[u8],
    work: &mut [u8],
    answer: &mut [u8],
    place: &mut usize,
    length: &mut usize,
) -> u8
    ensures { told result place.new length.new answer.new work.new ≡ project_call true sheet.now list.now work.old answer.old }
{
    let answered = project::project_strict(sheet, list, work, answer);
    tell(answered, place, length)
}

#[unsafe(no_mangle)]
pub extern "C" fn sheets_normalize(
    sheet: &[u8],
    separator: &[u8],
    max_level: u16,
    work: &mut [u8],
    answer: &mut [u8],
    place: &mut usize,
    length: &mut usize,
) -> u8
    ensures { told result place.new length.new answer.new work.new ≡ normalize_call sheet.now separator.now max_level work.old answer.old }
{
    let answered = normalize::normalize(sheet, separator, max_level, work, answer);
    tell(answered, place, length)
}

// Module 6: the leaf filter.
#[unsafe(no_mangle)]
pub extern "C" fn sheets_filter(
    sheet: &[u8],
    mask: &[u8],
    work: &mut [u8],
    answer: &mut [u8],
    place: &mut usize,
    length: &mut usize,
) -> u8
    ensures { told result place.new length.new answer.new work.new ≡ filter_call sheet.now mask.now work.old answer.old }
{
    let answered = filter::filter(sheet, mask, work, answer);
    tell(answered, place, length)
}
