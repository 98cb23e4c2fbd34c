// Metadata merged inside the table: the loops of `Field::try_merge` and `Schema::try_merge` over the pairs of what comes in, and the
// `BTreeMap` of metadata.rs, whose order of keys a row of places keeps. The functions take any bytes and any places; where the parts that
// they are for stand there, they do what they say.
#![tactic(auto)]

ghost use Rattle.std.specs.Prelude.{◌≡◌, ℕ, ◌+◌, length, true};
ghost use Rattle.model.specs.Bytes.{Bytes, Metadata, same_bytes, below};
ghost use Rattle.model.specs.Tree.{Head, Field};
ghost use Rattle.model.specs.Equal.{same_metadata};
ghost use Rattle.model.specs.Sheet.{part, text_bytes, pair_bytes, head_bytes};
ghost use Rattle.buffer.specs.Refusals.{number_of};
ghost use Rattle.walk.specs.Stands.{Stands};
ghost use Rattle.table.specs.Table.{Places, SpellField};
ghost use Rattle.table.specs.Edited.{Edits, Merges};
ghost use Rattle.metadata.specs.Pairs.{Spot};
ghost use Rattle.metadata.specs.Merges.{PutsPair, MergesPairs, Marks, OpensMetadata, MergesMetadata};

use buffer::Number;
use datatype::metadata::{of_head, same_stretch, same_text};
use table::Table;
use walk::Elements;

// Whether the bytes from one place to another are below those between two other places.
fn below_stretch(s: &[u8], a: usize, e: usize, b: usize, f: usize) -> bool
    ensures { (x y : Bytes) → Stands s.now a x → Stands s.now b y → e ≡ a + length x → f ≡ b + length y → result ≡ below x y }
{
    match (s.get(a..e), s.get(b..f)) {
        (Some(one), Some(other)) => text::is_below(one, other),
        _ => false,
    }
}

// Whether the key of one pair of the train is below that of another.
fn key_below(s: &[u8], a: usize, b: usize) -> bool
    ensures { (p q : Bytes × Bytes) → Stands s.now a (pair_bytes p) → Stands s.now b (pair_bytes q) → result ≡ below p.0 q.0 }
{
    let key = walk::ahead(s, a, 2);
    let other = walk::ahead(s, b, 2);
    below_stretch(s, key, walk::skip_text(s, a), other, walk::skip_text(s, b))
}

// Whether two pairs of the train have one value.
fn same_value(s: &[u8], a: usize, b: usize) -> bool
    ensures { (p q : Bytes × Bytes) → Stands s.now a (pair_bytes p) → Stands s.now b (pair_bytes q) → result ≡ same_bytes p.1 q.1 }
{
    same_text(s, walk::skip_text(s, a), s, walk::skip_text(s, b))
}

// Where the key of a pair of the train belongs in a row of pairs.
fn find_key(table: &Table<'_>, row: usize, q: usize) -> usize
    ensures { (k : ℕ) (y : Bytes) (m : Metadata) (p : Bytes × Bytes) → Places table.now.train.now pair_bytes k y m → Stands table.now.w.now row y → Stands table.now.train.now q (pair_bytes p) → Spot table.now.train.now row y m p.0 result }
{
    let train = table.train;
    row + 3
        * table
            .places(row)
            .take_while(|there| key_below(train, *there, q))
            .count()
}

// A pair of the train into the row of pairs that begins where its key belongs: before the first, or its key is that of the first.
fn put_pair(table: &mut Table<'_>, at: usize, q: usize, clash: Number) -> Result<(), Number>
    ensures { Merges (PutsPair at q (number_of clash)) table.old table.new result }
{
    let there = table.three(at);
    if there == table::NO_PLACE || key_below(table.train, q, there) {
        table.insert_place(at, q);
        return Ok(());
    }
    if same_value(table.train, there, q) {
        return Ok(());
    }
    Err(clash)
}

// Pairs of the train, one behind the other, into a row of pairs: the loop over `from.metadata()`. They come in the order of their
// keys, so each belongs behind the one before it, where the search for it begins.
pub fn merge_pairs(
    table: &mut Table<'_>,
    at: usize,
    pairs: Elements,
    clash: Number,
) -> Result<(), Number>
    ensures { Merges (MergesPairs at pairs.at pairs.count (number_of clash)) table.old table.new result }
{
    let train = table.train;
    let mut from = at;
    let mut place = pairs.at;
    for _ in 0..pairs.count {
        from = find_key(table, from, place);
        put_pair(table, from, place, clash)?;
        place = walk::skip_pair(train, place);
    }
    Ok(())
}

// Whether two fields of the train have the same metadata.
fn same_metadata(s: &[u8], a: usize, b: usize) -> bool
    ensures { (h g : Head) → Stands s.now a (head_bytes h) → Stands s.now b (head_bytes g) → result ≡ same_metadata h.metadata g.metadata }
{
    let from = walk::skip_name(s, a);
    let since = walk::skip_name(s, b);
    same_stretch(
        s,
        from,
        walk::skip_front(s, a),
        s,
        since,
        walk::skip_front(s, b),
    )
}

// Whether an entry has the metadata of its first occurrence still, and a field of the train has the same.
fn has_metadata(table: &Table<'_>, at: usize, q: usize) -> bool
    ensures { (l k : ℕ) (y : Bytes) (f : Field l) (h : Head) → SpellField l table.now.train.now k y f → Stands table.now.w.now at y → Stands table.now.train.now q (head_bytes h) → result ≡ true → f.head.metadata ≡ h.metadata }
{
    table.byte(at) / 4 != 1 && same_metadata(table.train, table.place_at(at), q)
}

// Makes an entry one with places of its pairs: the flag, and a row of no places behind the place of the first occurrence.
fn mark_opened(table: &mut Table<'_>, at: usize, flags: usize)
    ensures { Edits (λ _. Marks at flags) table.old table.new }
{
    table.set_byte(at, flags % 4 + 4);
    let row = table.ahead(at, 4);
    table.insert_place(row, table::NO_PLACE);
}

// Gives an entry places of its pairs, those of its first occurrence, if it has none. Its own pairs do not clash.
fn open_metadata(table: &mut Table<'_>, at: usize)
    ensures { Edits (OpensMetadata at) table.old table.new }
{
    let flags = table.byte(at);
    if flags / 4 == 1 {
        return;
    }
    let own = of_head(table.train, table.place_at(at));
    mark_opened(table, at, flags);
    let row = table.ahead(at, 4);
    let _ = merge_pairs(table, row, own, Number::FieldMetadataClash);
}

// `Field::try_merge`, the metadata: an entry of the table, and a field of the train that comes in. What has no metadata, or the same as an
// entry that nothing was merged into, changes nothing.
pub fn merge_metadata(table: &mut Table<'_>, at: usize, q: usize) -> Result<(), Number>
    ensures { Merges (MergesMetadata at q) table.old table.new result }
{
    let new = of_head(table.train, q);
    if new.count == 0 || has_metadata(table, at, q) {
        return Ok(());
    }
    open_metadata(table, at);
    let row = table.ahead(at, 4);
    merge_pairs(table, row, new, Number::FieldMetadataClash)
}
