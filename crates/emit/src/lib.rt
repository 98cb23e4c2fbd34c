// The sheet of the schema that the table spells: document 01, "Merging, projection, filtering and normalising write a sheet." The table
// refers to the train for names, pairs and types, so most of the sheet is copied from there. The functions take any bytes and any places;
// where the parts that they are for stand there, they put what the parts spell.
#![tactic(auto)]

ghost use Rattle.std.specs.Prelude.{◌≡◌, [], ◌∷◌, ℕ, ◌≤◌, get_or};
ghost use Rattle.model.specs.Bytes.{Bytes};
ghost use Rattle.model.specs.Tree.{Field, Schema};
ghost use Rattle.model.specs.Sheet.{pair_bytes, sheet_bytes};
ghost use Rattle.model.specs.WellFormed.{Whole};
ghost use Rattle.buffer.specs.Puts.{Puts, Fills};
ghost use Rattle.walk.specs.Stands.{Stands, Skips, member_bytes};
ghost use Rattle.table.specs.Table.{SpellSchema};
ghost use Rattle.emit.specs.Survivor.{IsFrontType, IsSurvivor};
ghost use Rattle.emit.specs.Emission.{HasPlaces, PutsPlaces, PutsMetadata, PutsUnion, PutsRawHead, PutsDictId, PutsName, PutsHead, PutsSurvivor, PutsType, PutsEntry, HasEntries, PutsRow, PutsColumns};

use buffer::Output;
use layout::NULL;
use sheet::Cursor;
use table::{EntryRow, Kind, PlaceRow};

// Copies the byte at a place of the train.
fn put_copy(s: &[u8], at: usize, out: &mut Output<'_>)
    ensures { Puts (get_or s.now at 0 ∷ []) out.old out.new }
{
    out.put_one(s.get(at).copied().unwrap_or(0));
}

// Whether a row of places has any.
fn has_places(w: &[u8], at: usize) -> bool
    ensures { HasPlaces w.now at result }
{
    PlaceRow::new(w, at).next().is_some()
}

// The head of an entry that has no metadata of its own: that of the first occurrence, which stands at a place of the train, but for the
// two lowest bits of its map.
fn put_raw_head(s: &[u8], first: usize, flags: usize, out: &mut Output<'_>)
    ensures { PutsRawHead s.now first flags out.old out.new }
{
    let map = flags % 4 + walk::byte(s, first) / 4 % 8 * 4;
    out.put_one(map as u8);
    walk::put_part(out, s, walk::ahead(s, first, 1), walk::skip_head(s, first));
}

// The dictionary number of a field of the train.
fn put_dict_id(s: &[u8], first: usize, out: &mut Output<'_>)
    ensures { PutsDictId s.now first out.old out.new }
{
    walk::put_part(
        out,
        s,
        walk::skip_front(s, first),
        walk::skip_head(s, first),
    );
}

// The map and the name of an entry that has metadata of its own.
fn put_name(s: &[u8], first: usize, flags: usize, metadata: bool, out: &mut Output<'_>)
    ensures { PutsName s.now first flags metadata out.old out.new }
{
    let map = walk::byte(s, first);
    let own = flags % 4 + map / 4 % 2 * 4 + usize::from(metadata) * 8 + map / 16 % 2 * 16;
    out.put_one(own as u8);
    walk::put_part(out, s, walk::ahead(s, first, 1), walk::skip_name(s, first));
}

// The type of at most so many levels that some bytes begin with.
fn front_type<'a>(s: &'a [u8], levels: usize) -> &'a [u8]
    ensures { IsFrontType s.now levels result.now }
{
    let end = walk::ahead(s, 0, walk::skip_type(s, 0, levels));
    &s[..end]
}

// "The surviving type is handed back as a part of whichever of the two sheets supplied it, where no nested merging is needed": of the
// accumulated type and the incoming one, each at the front of the bytes given.
fn surviving<'a>(accumulated: &'a [u8], incoming: &'a [u8], levels: usize) -> &'a [u8]
    ensures { IsSurvivor accumulated.now incoming.now levels result.now }
{
    if walk::byte(accumulated, 0) == NULL {
        return front_type(incoming, levels);
    }
    front_type(accumulated, levels)
}

// A type in which nothing was merged: of the first occurrence's, at `own` of the train, and the one at x, the one that survives.
fn put_raw(s: &[u8], own: usize, x: usize, levels: usize, out: &mut Output<'_>)
    ensures { PutsSurvivor s.now own x levels out.old out.new }
{
    if let (Some(accumulated), Some(incoming)) = (s.get(own..), s.get(x..)) {
        out.put(surviving(accumulated, incoming, levels));
    }
}

// Whether a row of entries has any.
fn has_entries(w: &[u8], at: usize) -> bool
    ensures { HasEntries w.now at result }
{
    walk::byte(w, at) != table::NO_ENTRY
}

// What is written: the schema that a table spells by places of a train.
#[derive(Clone, Copy)]
struct Spelling<'a> {
    train: &'a [u8],
    table: &'a [u8],
}

impl Spelling<'_> {
    // The count of a row of places, and what stands at each of them in the train, up to where `skip` goes. What passes the longest answer is
    // not gone over.
    fn put_places<F: Fn(usize) -> usize>(&self, at: usize, out: &mut Output<'_>, skip: F)
        requires { F.IsAlwaysCallable skip }
        ensures { PutsPlaces (F.post skip) self.now.train.now self.now.table.now at out.old out.new }
    {
        let row = PlaceRow::new(self.table, at);
        out.put_two(row.count());
        for place in row {
            if buffer::MAX_ANSWER_BYTES < out.written {
                return;
            }
            walk::put_part(out, self.train, place, skip(place));
        }
    }

    // Metadata: nothing, or the count and the pairs.
    fn put_metadata(&self, at: usize, out: &mut Output<'_>)
        ensures { PutsMetadata self.now.train.now self.now.table.now at out.old out.new }
    {
        if has_places(self.table, at) {
            self.put_places(at, out, |pair| walk::skip_pair(self.train, pair));
        }
    }

    // The head of an entry.
    fn put_head(&self, at: usize, out: &mut Output<'_>)
        ensures { PutsHead self.now.train.now self.now.table.now at out.old out.new }
    {
        let flags = walk::byte(self.table, at);
        let first = table::place_at(self.table, at);
        if flags / 4 != 1 {
            return put_raw_head(self.train, first, flags, out);
        }
        let pairs = walk::ahead(self.table, at, 4);
        let metadata = has_places(self.table, pairs);
        put_name(self.train, first, flags, metadata, out);
        self.put_metadata(pairs, out);
        put_dict_id(self.train, first, out);
    }

    // What follows the code of a union: the mode, copied from a place of the train, the count and the children.
    fn put_union(&self, mode: usize, at: usize, levels: usize, out: &mut Output<'_>)
        ensures { PutsUnion self.now.train.now self.now.table.now mode at levels out.old out.new }
    {
        put_copy(self.train, mode, out);
        self.put_places(
            at,
            out,
            |member| walk::skip_member(self.train, member, levels),
        );
    }

    // A field: the head of its entry and its type.
    #[cycle(putting)]
    fn put_entry(&self, at: usize, levels: usize, out: &mut Output<'_>)
        ensures { PutsEntry self.now.train.now self.now.table.now at levels out.old out.new }
    {
        self.put_head(at, out);
        let first = table::place_at(self.table, at);
        let own = walk::skip_head(self.train, first);
        self.put_type(table::skip_head(self.table, at), own, levels, out);
    }

    // A type: as it stands in the train, or its code and what was merged inside.
    #[cycle(putting)]
    fn put_type(&self, at: usize, own: usize, levels: usize, out: &mut Output<'_>)
        ensures { PutsType self.now.train.now self.now.table.now at own levels out.old out.new }
    {
        if levels == 0 {
            return;
        }
        let x = table::place_at(self.table, at);
        let inner = walk::ahead(self.table, at, 4);
        match table::kind_at(self.table, at) {
            Kind::Raw => put_raw(self.train, own, x, levels, out),
            Kind::OpenStruct => {
                put_copy(self.train, x, out);
                self.put_row(inner, levels - 1, out);
            }
            Kind::OpenList => {
                put_copy(self.train, x, out);
                self.put_entry(inner, levels - 1, out);
            }
            Kind::OpenUnion => {
                put_copy(self.train, x, out);
                self.put_union(x + 1, inner, levels - 1, out);
            }
        }
    }

    // The count of a row's entries, and their fields. What passes the longest answer is not gone over.
    #[cycle(putting)]
    fn put_row(&self, at: usize, levels: usize, out: &mut Output<'_>)
        ensures { PutsRow self.now.train.now self.now.table.now at levels out.old out.new }
    {
        let row = EntryRow::new(self.table, at, levels);
        out.put_two(row.count());
        for place in row {
            if buffer::MAX_ANSWER_BYTES < out.written {
                return;
            }
            self.put_entry(place, levels, out);
        }
    }

    // The columns of a sheet: nothing, or the count and the fields.
    fn put_columns(&self, at: usize, out: &mut Output<'_>)
        ensures { PutsColumns self.now.train.now self.now.table.now at out.old out.new }
    {
        if has_entries(self.table, at) {
            self.put_row(at, Cursor::LEVELS, out);
        }
    }
}

// The sheet of the schema that the table w spells, from the train s. It gives the length, also in a buffer that is too short.
pub fn emit(s: &[u8], w: &[u8], dst: &mut [u8]) -> usize
    ensures { (x : Schema) (k : ℕ) (y : Bytes) → SpellSchema s.now k y x → Stands w.now 0 y → Fills (sheet_bytes x) dst.old dst.new result }
{
    let columns = table::skip_places(w, 0);
    let map = usize::from(has_places(w, 0)) + usize::from(has_entries(w, columns)) * 2;
    let spelling = Spelling { train: s, table: w };
    let mut out = Output::new(dst);
    out.put_one(map as u8);
    spelling.put_metadata(0, &mut out);
    spelling.put_columns(columns, &mut out);
    out.written
}
