// Document 01, module 4, field merge: `Field::try_merge` of field.rs, in the table of the work buffer. The functions take any table and any
// places; where entries and incoming parts stand there, with room for four bytes for each byte that comes in, they do what the definitions of
// specs/Claims.antt say.
#![tactic(auto)]

ghost use Rattle.std.specs.Prelude.{◌≡◌};
ghost use Rattle.table.specs.Edited.{Rewrites, Edits, Merges};
ghost use Rattle.field.specs.Claims.{HasNull, OrdersAgree, OpensStruct, MergesField, MergesRest, MergesType, MergesSameCode, MergesEqual, MergesStruct, MergesList, SetsFlags, Pours, PutsField};

use buffer::Number;
use layout::{LARGE_LIST, LIST, NULL, STRUCT, UNION};
use table::{Kind, Table};
use walk::Elements;

// Sets the flags of an entry, whose type stands at `b`, for an incoming field and its type: "The first Null .. becomes nullable, even against
// Null; a later Null makes the column nullable. .. At the end the first is nullable if either is." A Null takes the order flag with the type.
fn set_flags(table: &mut Table<'_>, at: usize, b: usize, q: usize, t: usize)
    ensures { Rewrites (SetsFlags at b q t) table.old table.new }
{
    let train = table.train;
    let flags = table.byte(at);
    let mine = table.code_at(b);
    let n = table::flags_of(flags, walk::byte(train, q), mine, walk::byte(train, t));
    table.set_byte(at, n);
}

// "All other types must be equal." Of a plain type the code says everything, and both have one code.
fn same_or_clash(table: &Table<'_>, at: usize, t: usize, levels: usize) -> Result<(), Number>
    ensures { Merges (MergesEqual levels at t) table.now table.now result }
{
    let train = table.train;
    if layout::is_plain(walk::byte(train, t)) {
        return Ok(());
    }
    if datatype::same_type(train, table.place_at(at), train, t, levels) {
        return Ok(());
    }
    Err(Number::TypeClash)
}

// Whether the type of an entry or that of a field of the train is Null.
fn has_null(table: &Table<'_>, at: usize, q: usize) -> bool
    ensures { HasNull table.now.train.now table.now.w.now at q result }
{
    let train = table.train;
    table.code_at(table.skip_head(at)) == NULL
        || walk::byte(train, walk::skip_head(train, q)) == NULL
}

// Whether the order flags let a field of the train be merged into an entry: they are equal; or, parked log first, either type is Null.
fn orders_agree(table: &Table<'_>, at: usize, q: usize, parked: bool) -> bool
    ensures { OrdersAgree parked table.now.train.now table.now.w.now at q result }
{
    walk::bit(table.byte(at), 1) == walk::bit(walk::byte(table.train, q), 1)
        || parked && has_null(table, at, q)
}

// A field into the entry at a place: `Field::try_merge`. "Checks in order: ordered flags, metadata, type."
#[cycle(merging)]
pub fn merge_field(
    table: &mut Table<'_>,
    at: usize,
    q: usize,
    levels: usize,
    parked: bool,
) -> Result<(), Number>
    ensures { Merges (MergesField parked levels at q) table.old table.new result }
{
    if !orders_agree(table, at, q, parked) {
        return Err(Number::OrderedClash);
    }
    metadata::merge_metadata(table, at, q)?;
    merge_rest(table, at, q, levels, parked)
}

// What is left when order flags and metadata are settled: nullability and the type.
#[cycle(merging)]
fn merge_rest(
    table: &mut Table<'_>,
    at: usize,
    q: usize,
    levels: usize,
    parked: bool,
) -> Result<(), Number>
    ensures { Merges (MergesRest parked levels at q) table.old table.new result }
{
    let b = table.skip_head(at);
    let t = walk::skip_head(table.train, q);
    set_flags(table, at, b, q, t);
    merge_type(table, b, t, levels, parked)
}

// A type into the one whose entry stands at a place.
#[cycle(merging)]
fn merge_type(
    table: &mut Table<'_>,
    at: usize,
    t: usize,
    levels: usize,
    parked: bool,
) -> Result<(), Number>
    ensures { Merges (MergesType parked levels at t) table.old table.new result }
{
    let mine = table.code_at(at);
    let theirs = walk::byte(table.train, t);
    if mine == NULL {
        table.take_type(at, t);
        return Ok(());
    }
    if theirs == NULL {
        return Ok(());
    }
    if mine != theirs {
        return Err(Number::TypeClash);
    }
    merge_same_code(table, at, t, mine, levels, parked)
}

// Two types of one code, neither Null.
#[cycle(merging)]
fn merge_same_code(
    table: &mut Table<'_>,
    at: usize,
    t: usize,
    code: usize,
    levels: usize,
    parked: bool,
) -> Result<(), Number>
    ensures { Merges (MergesSameCode parked code levels at t) table.old table.new result }
{
    if levels <= 0 {
        return Ok(());
    }
    match code {
        STRUCT => merge_struct(table, at, t, levels - 1, parked),
        UNION => members::merge_union(table, at, t, levels - 1),
        LIST | LARGE_LIST => merge_list(table, at, t, levels - 1, parked),
        _ => same_or_clash(table, at, t, levels),
    }
}

// Two structs: "Struct pours its own children, then the other's, through the merge by name, so equal names inside it fold."
#[cycle(merging)]
fn merge_struct(
    table: &mut Table<'_>,
    at: usize,
    t: usize,
    levels: usize,
    parked: bool,
) -> Result<(), Number>
    ensures { Merges (MergesStruct parked levels at t) table.old table.new result }
{
    let inner = table.ahead(at, 4);
    let children = Elements::counted(table.train, walk::ahead(table.train, t, 1));
    pour_own(table, at, levels, parked)?;
    pour(table, inner, children, levels, parked)
}

// A raw struct is opened and its own children poured; an open one has them already.
#[cycle(merging)]
fn pour_own(table: &mut Table<'_>, at: usize, levels: usize, parked: bool) -> Result<(), Number>
    ensures { Merges (OpensStruct parked levels at) table.old table.new result }
{
    if table.kind_at(at) == Kind::OpenStruct {
        return Ok(());
    }
    let inner = table.ahead(at, 4);
    let children = Elements::counted(table.train, walk::ahead(table.train, table.place_at(at), 1));
    table.open_struct(at);
    pour(table, inner, children, levels, parked)
}

// Two lists, or two large lists: the child with the other's; it keeps its own name.
#[cycle(merging)]
fn merge_list(
    table: &mut Table<'_>,
    at: usize,
    t: usize,
    levels: usize,
    parked: bool,
) -> Result<(), Number>
    ensures { Merges (MergesList parked levels at t) table.old table.new result }
{
    let inner = table.ahead(at, 4);
    let child = walk::ahead(table.train, t, 1);
    table.open_list(at);
    merge_field(table, inner, child, levels, parked)
}

// Fields of the train into a row, by name: `SchemaBuilder::try_merge` for each. A loop: a thousand take no more stack than one.
#[cycle(merging)]
pub fn pour(
    table: &mut Table<'_>,
    row: usize,
    fields: Elements,
    levels: usize,
    parked: bool,
) -> Result<(), Number>
    ensures { Merges (Pours parked levels row fields.at fields.count) table.old table.new result }
{
    let train = table.train;
    let mut hint = row;
    let mut place = fields.at;
    for _ in 0..fields.count {
        hint = put(table, row, hint, place, levels, parked)?;
        place = walk::skip_field(train, place, levels);
    }
    Ok(())
}

// One field of the train into a row: into the entry of its name, behind which the next one is looked for first; or behind them all. It gives
// where to look first for the next one.
#[cycle(merging)]
fn put(
    table: &mut Table<'_>,
    row: usize,
    hint: usize,
    q: usize,
    levels: usize,
    parked: bool,
) -> Result<usize, Number>
    ensures { Edits (PutsField parked levels row hint q result) table.old table.new }
{
    match table.find(row, hint, q, levels) {
        Ok(place) => {
            merge_field(table, place, q, levels, parked)?;
            Ok(table.next_entry(place, levels))
        }
        Err(end) => {
            table.insert_entry(end, q);
            Ok(row)
        }
    }
}
