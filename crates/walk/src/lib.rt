// Going over a sheet that has been read, part by part: document 01, "The sheet", and `DataType::is_nested` of datatype.rs.
// Nothing here tests the format again. Each function takes any bytes and any place; where the part that it is for stands
// there, it gives the place behind it. On other bytes its answer means nothing, but nothing goes out of bounds.
#![tactic(auto)]

ghost use Rattle.std.specs.Prelude.{◌≡◌, ◌++◌, ℕ, ◌+◌, ◌*◌, ◌<◌, ◌≤◌, true, false, length, get_or};
ghost use Rattle.model.specs.Bytes.{Bytes, Metadata, num, bit, u64};
ghost use Rattle.model.specs.Tree.{Head, Schema, layout};
ghost use Rattle.model.specs.Tree.Params.{timestamp};
ghost use Rattle.model.specs.Sheet.{front_bytes, dict_id_bytes, dict_id_stands, each, with_count, text_bytes, pair_bytes, head_bytes, sheet_bytes};
ghost use Rattle.model.specs.WellFormed.{WellFormedParams};
ghost use Rattle.model.specs.Datatype.{holds_fields};
ghost use Rattle.buffer.specs.Puts.{Puts};
ghost use Rattle.walk.specs.Stands.{Stands, Skips, SkipsName, SkipsType, SkipsField, SkipsMember, SkipsRow, SkipsChildren, TellsNested, SkipsSheetHead, ColumnsAt, SkipsSheet};
ghost use Rattle.layout.specs.Kinds.{params_of};
ghost use Rattle.walk.specs.Widths.{width};

use buffer::Output;
use layout::{ChildrenKind, DICTIONARY, LIST, MAP, ParamsKind, RUN_END_ENCODED, UNION};
use sheet::Cursor;

// The byte at a place, 0 past the end.
pub fn byte(s: &[u8], at: usize) -> usize
    ensures { (result ≡ get_or s.now at 0) × (result < 256) }
{
    s.get(at).map_or(0, |b| usize::from(*b))
}

// The number of two bytes at a place, the low byte first.
pub fn two(s: &[u8], at: usize) -> usize
    ensures { (result ≡ get_or s.now at 0 + 256 * get_or s.now (at + 1) 0) × (result < 65536) }
{
    byte(s, at) + 256 * byte(s, at.saturating_add(1))
}

// Whether a bit of a map is set, the bit by its number.
pub fn bit(map: usize, k: u32) -> bool
    ensures { result ≡ bit k map }
{
    map.unbounded_shr(k) % 2 == 1
}

// So many bytes on, at most to the end. By two tests and not by a minimum: a processor foresees a test, and each step would wait for the
// minimum of the step before it.
pub fn ahead(s: &[u8], at: usize, n: usize) -> usize
    ensures { (result ≤ length s.now) × (at + n ≤ length s.now → result ≡ at + n) }
{
    if s.len() <= at {
        return s.len();
    }
    if s.len() - at < n {
        return s.len();
    }
    at + n
}

// So many elements, one behind the other from a place on.
#[derive(Clone, Copy)]
pub struct Elements {
    pub count: usize,
    pub at: usize,
}

impl Elements {
    // Those that stand behind their count.
    pub fn counted(s: &[u8], at: usize) -> Self
        ensures count { result.count ≡ get_or s.now at 0 + 256 * get_or s.now (at + 1) 0 }
        ensures at { (result.at ≤ length s.now) × (at + 2 ≤ length s.now → result.at ≡ at + 2) }
    {
        Self {
            count: two(s, at),
            at: ahead(s, at, 2),
        }
    }

    // Those that stand behind their count under a bit of a map: none, with no count either, where it is not set.
    pub fn counted_if(s: &[u8], at: usize, set: bool) -> Self
        ensures set { set ≡ true → (result.count ≡ get_or s.now at 0 + 256 * get_or s.now (at + 1) 0) × ((result.at ≤ length s.now) × (at + 2 ≤ length s.now → result.at ≡ at + 2)) }
        ensures unset { set ≡ false → (result.count ≡ 0) × (result.at ≡ at) }
    {
        if set {
            return Self::counted(s, at);
        }
        Self { count: 0, at }
    }
}

// A length of two bytes, and so many bytes behind it.
fn skip_counted(s: &[u8], at: usize) -> usize
    ensures { (n t : Bytes) → length n ≡ 2 → length t ≡ num n → Skips s.now at (n ++ t) result }
{
    let body = ahead(s, at, 2);
    ahead(s, body, two(s, at))
}

// A string.
pub fn skip_text(s: &[u8], at: usize) -> usize
    ensures { (t : Bytes) → Skips s.now at (text_bytes t) result }
{
    skip_counted(s, at)
}

// A key and its value.
pub fn skip_pair(s: &[u8], at: usize) -> usize
    ensures { (p : Bytes × Bytes) → Skips s.now at (pair_bytes p) result }
{
    skip_text(s, skip_text(s, at))
}

// So many keys and values.
fn skip_pairs(s: &[u8], pairs: Elements) -> usize
    ensures { (m : Metadata) → length m ≡ pairs.count → Skips s.now pairs.at (each pair_bytes m) result }
{
    let mut place = pairs.at;
    for _ in 0..pairs.count {
        place = skip_pair(s, place);
    }
    place
}

// Metadata: the count, then the keys and values.
pub fn skip_metadata(s: &[u8], at: usize) -> usize
    ensures { (m : Metadata) → Skips s.now at (with_count pair_bytes m) result }
{
    skip_pairs(s, Elements::counted(s, at))
}

// A field's dictionary number.
fn skip_dict_id(s: &[u8], at: usize) -> usize
    ensures { (n : ℕ) → Skips s.now at (u64 n) result }
{
    ahead(s, at, 8)
}

// What stands under a bit of a map: a part that `skip` goes over where the bit is set, else nothing. In line: most heads have but a name.
#[inline(always)]
pub fn skip_if<F: FnOnce(&[u8], usize) -> usize>(s: &[u8], at: usize, set: bool, skip: F) -> usize
    requires { F.IsAlwaysCallable skip }
    ensures set { set ≡ true → F.post skip s.entry at result }
    ensures unset { set ≡ false → result ≡ at }
{
    if set { skip(s, at) } else { at }
}

// A field's dictionary number under a bit of a map.
#[inline(always)]
pub fn skip_dict_id_if(s: &[u8], at: usize, set: bool) -> usize
    ensures { (n : ℕ) → dict_id_stands n ≡ set → Skips s.now at (dict_id_bytes n) result }
{
    skip_if(s, at, set, skip_dict_id)
}

// A field's map and name.
#[inline(always)]
pub fn skip_name(s: &[u8], at: usize) -> usize
    ensures { SkipsName s.now at result }
{
    let map = byte(s, at);
    let name = ahead(s, at, 1);
    skip_if(s, name, bit(map, 2), skip_text)
}

// A field's map, name and metadata.
pub fn skip_front(s: &[u8], at: usize) -> usize
    ensures { (h : Head) → Skips s.now at (front_bytes h) result }
{
    let metadata = skip_name(s, at);
    skip_if(s, metadata, bit(byte(s, at), 3), skip_metadata)
}

// A field's map, name, metadata and dictionary number.
pub fn skip_head(s: &[u8], at: usize) -> usize
    ensures { (h : Head) → Skips s.now at (head_bytes h) result }
{
    let map = byte(s, at);
    let number = skip_front(s, at);
    skip_dict_id_if(s, number, bit(map, 4))
}

// How many bytes parameters of a kind take, a time stamp's without its zone.
#[tactic(auto, unfolding(layout::specs::Kinds::params_of, crate::specs::Widths::width, crate::specs::Widths::widths))]
fn params_width(kind: ParamsKind) -> usize
    ensures { result ≡ width (params_of kind) }
{
    match kind {
        ParamsKind::None => 0,
        ParamsKind::Unit | ParamsKind::IntervalUnit | ParamsKind::Flag => 1,
        ParamsKind::Timestamp | ParamsKind::Decimal => 2,
        ParamsKind::Int32 => 4,
    }
}

// A time stamp's unit, map and zone.
fn skip_timestamp(s: &[u8], at: usize) -> usize
    ensures { (b : Bytes) → WellFormedParams timestamp b → Skips s.now at b result }
{
    let map = ahead(s, at, 1);
    let zone = ahead(s, map, 1);
    skip_if(s, zone, bit(byte(s, map), 0), skip_counted)
}

// The parameters of a type.
pub fn skip_params(s: &[u8], at: usize, code: usize) -> usize
    ensures { (b : Bytes) → WellFormedParams (layout code).params b → Skips s.now at b result }
{
    let kind = layout::params(code);
    if kind == ParamsKind::Timestamp {
        return skip_timestamp(s, at);
    }
    ahead(s, at, params_width(kind))
}

// A field of at most so many levels. Most have a plain type, which is passed here without a call.
#[cycle(skipping)]
pub fn skip_field(s: &[u8], at: usize, levels: usize) -> usize
    ensures { SkipsField s.now at levels result }
{
    let data_type = skip_head(s, at);
    if layout::is_plain(byte(s, data_type)) {
        return ahead(s, data_type, 1);
    }
    skip_type(s, data_type, levels)
}

// A union's child of at most so many levels: its id and its field.
pub fn skip_member(s: &[u8], at: usize, levels: usize) -> usize
    ensures { SkipsMember s.now at levels result }
{
    skip_field(s, ahead(s, at, 1), levels)
}

// A type of at most so many levels, itself among them.
#[cycle(skipping)]
pub fn skip_type(s: &[u8], at: usize, levels: usize) -> usize
    ensures { SkipsType s.now at levels result }
{
    if levels == 0 {
        return at;
    }
    let code = byte(s, at);
    let params = ahead(s, at, 1);
    if layout::is_plain(code) {
        return params;
    }
    let children = skip_params(s, params, code);
    skip_children(s, children, code, levels - 1)
}

// The children of a type.
#[cycle(skipping)]
fn skip_children(s: &[u8], at: usize, code: usize, levels: usize) -> usize
    ensures { SkipsChildren s.now at (layout code).children levels result }
{
    match layout::children(code) {
        ChildrenKind::Fields(count) => skip_fields(s, Elements { count, at }, 0, levels),
        ChildrenKind::KeyAndValue => skip_type(s, skip_type(s, at, levels), levels),
        ChildrenKind::Counted => skip_fields(s, Elements::counted(s, at), 0, levels),
        ChildrenKind::CountedWithIds => skip_fields(s, Elements::counted(s, at), 1, levels),
    }
}

// So many fields, one behind the other, with so many bytes before each: a union's child has its id there, others nothing.
#[cycle(skipping)]
pub fn skip_fields(s: &[u8], fields: Elements, before: usize, levels: usize) -> usize
    ensures { SkipsRow s.now fields.at fields.count before levels result }
{
    let mut place = fields.at;
    for _ in 0..fields.count {
        let field = ahead(s, place, before);
        place = skip_field(s, field, levels);
    }
    place
}

// A sheet's map and the schema's metadata.
pub fn skip_sheet_head(s: &[u8], at: usize) -> usize
    ensures { SkipsSheetHead s.now at result }
{
    let map = byte(s, at);
    let metadata = ahead(s, at, 1);
    skip_if(s, metadata, bit(map, 0), skip_metadata)
}

// The columns of a sheet.
pub fn find_columns(s: &[u8], at: usize) -> Elements
    ensures { (x : Schema) → Stands s.now at (sheet_bytes x) → ColumnsAt s.now at x result.count result.at }
{
    let place = skip_sheet_head(s, at);
    Elements::counted_if(s, place, bit(byte(s, at), 1))
}

// A sheet, as it stands in a train.
pub fn skip_sheet(s: &[u8], at: usize) -> usize
    ensures { SkipsSheet s.now at result }
{
    skip_fields(s, find_columns(s, at), 0, Cursor::LEVELS)
}

// Puts what stands between two places of a sheet.
pub fn put_part(out: &mut Output<'_>, s: &[u8], from: usize, to: usize)
    ensures { (b : Bytes) → Stands s.now from b → to ≡ from + length b → Puts b out.old out.new }
{
    if let Some(part) = s.get(from..to) {
        out.put(part);
    }
}

// Whether a type of this code holds fields of the column's own values.
#[tactic(auto, unfolding(model::specs::Datatype::holds_fields))]
pub fn holds_fields(code: usize) -> bool
    ensures { result ≡ holds_fields code }
{
    matches!(code, LIST..=UNION | MAP)
}

// `DataType::is_nested`, for a type of at most so many levels that stands at a place. A Dictionary takes the verdict of its
// value type, RunEndEncoded that of its values.
pub fn is_nested(s: &[u8], at: usize, levels: usize) -> bool
    ensures { TellsNested s.now at levels result }
{
    if levels == 0 {
        return false;
    }
    let code = byte(s, at);
    let first = ahead(s, at, 1);
    if code == DICTIONARY {
        return is_nested(s, skip_type(s, first, levels - 1), levels - 1);
    }
    if code == RUN_END_ENCODED {
        let values = skip_field(s, first, levels - 1);
        return is_nested(s, skip_head(s, values), levels - 1);
    }
    holds_fields(code)
}
