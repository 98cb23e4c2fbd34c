// Document 01, module 4, the merge of unions: `UnionFields::try_merge` of fields.rs, in the table of the work buffer. A union in the table has a
// row of places, at each of which one of its children stands in the train. The functions take any bytes and any places; where the parts that
// they are for stand there, of at most so many levels, they do what the definitions of specs/Claims.antt say.
#![tactic(auto)]

ghost use Rattle.std.specs.Prelude.{◌≡◌, get_or, eqb};
ghost use Rattle.table.specs.Edited.{Edits, Merges};
ghost use Rattle.members.specs.Rows.{by_id};
ghost use Rattle.members.specs.Claims.{SameMembers, FindsChildren, FindsMember, FindsId, TellsIds, MergesMember, MergesMembers, InsertsMembers, OpensRaw, OpensUnion, MergesUnion};

use buffer::Number;
use table::{Kind, PlaceRow, Table};
use walk::Elements;

// What the search for an equal child ends with: the first one has the id of the child that comes in, or another; or where the row ends.
#[derive(Clone, Copy)]
enum Match {
    SameId,
    OtherId,
    Missing(usize),
}

// Whether the fields of two children of the train are equal.
fn same_member(s: &[u8], a: usize, b: usize, levels: usize) -> bool
    ensures { SameMembers s.now a b levels result }
{
    let field = walk::ahead(s, a, 1);
    let other = walk::ahead(s, b, 1);
    datatype::same_field(s, field, s, other, levels)
}

// The two equal children of the train have one id, or not.
fn by_id(s: &[u8], a: usize, b: usize) -> Match
    ensures { result ≡ by_id (eqb (get_or s.now a 0) (get_or s.now b 0)) }
{
    if walk::byte(s, a) == walk::byte(s, b) {
        return Match::SameId;
    }
    Match::OtherId
}

// The first child of a row whose field is equal to that of a child of the train.
fn find_member(table: &Table<'_>, row: usize, q: usize, levels: usize) -> Match
    ensures { FindsMember levels table.now.train.now table.now.w.now row q result }
{
    let train = table.train;
    let mut children = table.places(row);
    match children.find(|there| same_member(train, q, *there, levels)) {
        Some(there) => by_id(train, there, q),
        None => Match::Missing(children.at),
    }
}

// "each newcomer is matched to the first equal child so far", which must have its id; one that is equal to none goes behind them all.
pub fn merge_member(table: &mut Table<'_>, at: usize, q: usize, levels: usize) -> Result<(), Number>
    ensures { Merges (MergesMember levels at q) table.old table.new result }
{
    match find_member(table, at, q, levels) {
        Match::SameId => Ok(()),
        Match::OtherId => Err(Number::EqualChildClash),
        Match::Missing(end) => {
            table.insert_place(end, q);
            Ok(())
        }
    }
}

// Children of the train, one behind the other, into a row of children: the loop of `UnionFields::try_merge`.
pub fn merge_members(
    table: &mut Table<'_>,
    at: usize,
    new: Elements,
    levels: usize,
) -> Result<(), Number>
    ensures { Merges (MergesMembers levels at new.at new.count) table.old table.new result }
{
    let train = table.train;
    let mut place = new.at;
    for _ in 0..new.count {
        merge_member(table, at, place, levels)?;
        place = walk::skip_member(train, place, levels);
    }
    Ok(())
}

// Whether a child of a row has this id.
fn has_id(s: &[u8], mut row: PlaceRow<'_>, id: usize) -> bool
    ensures { FindsId s.now row.entry.w.now row.entry.at id result }
{
    row.any(|there| id == walk::byte(s, there))
}

// `UnionFields::try_new` at its end: no id twice, so none that one behind has too. Ids are bytes and of 257 children two have one id, so there
// are at most 256 turns.
pub fn ids_differ(s: &[u8], row: PlaceRow<'_>) -> bool
    ensures { TellsIds s.now row.entry.w.now row.entry.at result }
{
    let mut behind = row;
    while let Some(there) = behind.next() {
        if has_id(s, behind, walk::byte(s, there)) {
            return false;
        }
    }
    true
}

// The children of a union that stands at a place of the train: behind its code, its mode and their count.
fn find_children(s: &[u8], t: usize) -> Elements
    ensures { FindsChildren s.now t result.count result.at }
{
    Elements::counted(s, walk::ahead(s, t, 2))
}

// Puts in the places of children of the train, which stand one behind the other.
fn insert_members(table: &mut Table<'_>, at: usize, children: Elements, levels: usize)
    ensures { Edits (InsertsMembers levels at children.at children.count) table.old table.new }
{
    let train = table.train;
    let mut place = children.at;
    let mut row = at;
    for _ in 0..children.count {
        table.insert_place(row, place);
        row = table.ahead(row, 3);
        place = walk::skip_member(train, place, levels);
    }
}

// A raw union, whose place in the train is `own`, becomes an open one: the kind, and the places of its own children up to the mark.
fn open_raw(table: &mut Table<'_>, at: usize, own: usize, levels: usize)
    ensures { Edits (OpensRaw levels at own) table.old table.new }
{
    let children = find_children(table.train, own);
    table.set_byte(at, Kind::OpenUnion as usize);
    let row = table.ahead(at, 4);
    table.insert_place(row, table::NO_PLACE);
    insert_members(table, row, children, levels);
}

// A union of the table is opened, if it is raw.
fn open_union(table: &mut Table<'_>, at: usize, levels: usize)
    ensures { Edits (OpensUnion levels at) table.old table.new }
{
    if table.kind_at(at) == Kind::OpenUnion {
        return;
    }
    let own = table.place_at(at);
    open_raw(table, at, own, levels);
}

// The arm of `Field::try_merge` for two unions: `UnionFields::try_merge`, the children of the second into those of the first.
pub fn merge_union(table: &mut Table<'_>, at: usize, t: usize, levels: usize) -> Result<(), Number>
    ensures { Merges (MergesUnion levels at t) table.old table.new result }
{
    let children = find_children(table.train, t);
    open_union(table, at, levels);
    let row = table.ahead(at, 4);
    merge_members(table, row, children, levels)?;
    if ids_differ(table.train, table.places(row)) {
        return Ok(());
    }
    Err(Number::TypeIdClash)
}
