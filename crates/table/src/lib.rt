// The schema merged so far, as a table in the work buffer: reading it, editing it in place, and looking up a name. Document 01, "What must
// change shape": "`Arc`, `Vec`, `Box` trees: work on sheet bytes with a cursor, or node tables in arrays." What the bytes mean is in
// specs/Table.antt. The functions take any bytes and any places, and a `Table` any number of bytes in use; where the parts that they are for
// stand there, they do what they say.
#![tactic(auto)]

ghost use Rattle.std.specs.Prelude.{◌≡◌, List, [], ◌∷◌, ◌++◌, ℕ, suc, ◌+◌, ◌*◌, ◌/◌, ◌%◌, ◌≤◌, ◌<◌, length, take, drop, get_or, false, cond, ◌||◌, eqb};
ghost use Rattle.model.specs.Bytes.{Bytes, Every, same_bytes, flag};
ghost use Rattle.model.specs.Tree.{Head, DataType, Field};
ghost use Rattle.model.specs.Sheet.{part, text_bytes, head_bytes};
ghost use Rattle.buffer.specs.Buffer.{pasted};
ghost use Rattle.walk.specs.Stands.{Stands, Skips};
ghost use Rattle.table.specs.Table.{three, kind_of, u24, no_place, no_entry, places_bytes, SpellField, SpellType, SpellRow};
ghost use Rattle.table.specs.Look.{NamesPlace, SkipsPlaces, SkipsHead, NamesEntry, Cut, Finds};
ghost use Rattle.table.specs.Entries.{SkipsEntries, PeeksEntry};
ghost use Rattle.table.specs.Opened.{InsertsEntry, OpensRow, OpensList};
ghost use Rattle.table.specs.Edits.{Overwrites, SetsByte, TakesType, Inserts, InsertsPlace};
ghost use Rattle.table.specs.Edited.{Rewrites, Edits};

use datatype::metadata::{has_name, name_of};

// The number of three bytes at a place, the lowest first. Bytes past the end are 0.
#[tactic(auto, unfolding(crate::specs::Table::three))]
pub fn three(w: &[u8], at: usize) -> usize
    ensures { (result ≡ three w.now at) × (result < 16777216) }
{
    if let Some([a, b, c, ..]) = w.get(at..) {
        return u32::from_le_bytes([*a, *b, *c, 0]) as usize;
    }
    walk::two(w, at)
}

// What stands behind the last place of a row of places, and behind the last entry of a row of entries.
pub const NO_PLACE: usize = 16777215;

pub const NO_ENTRY: usize = 255;

// What stands for a type in its entry: its place in the train, where nothing was merged inside it; the entries of its children, of a struct or of
// a list; or the places of its children in the train, of a union.
#[derive(Clone, Copy, PartialEq, Eq)]
pub enum Kind {
    Raw,
    OpenStruct,
    OpenList,
    OpenUnion,
}

// The kind at a place. A byte above 2 is a union's.
#[tactic(auto, unfolding(crate::specs::Table::kind_of))]
pub fn kind_at(w: &[u8], at: usize) -> Kind
    ensures { result ≡ kind_of (get_or w.now at 0) }
{
    match walk::byte(w, at) {
        0 => Kind::Raw,
        1 => Kind::OpenStruct,
        2 => Kind::OpenList,
        _ => Kind::OpenUnion,
    }
}

// What is left of a row of places of the train, which it gives one after the other, up to the mark; and where that begins. A row without a
// mark ends with the table.
#[derive(Clone, Copy)]
pub struct PlaceRow<'a> {
    w: &'a [u8],
    pub at: usize,
}

impl<'a> PlaceRow<'a> {
    // The row that begins at a place of the table.
    pub fn new(w: &'a [u8], at: usize) -> Self
        ensures { (result.w.now ≡ w.now) × (result.at ≡ at) }
    {
        PlaceRow { w, at }
    }
}

impl Iterator for PlaceRow<'_> {
    ghost use Rattle.std.specs.Prelude.{◌+◌, ◌-◌, ◌/◌, length};
    ghost use Rattle.std.specs.Iterator.{at_most};
    ghost use Rattle.table.specs.Row.{GivesPlace};

    type Item = usize;

    ghost next_gives = { GivesPlace };

    ghost remaining = { λ s. at_most ((length s.w.now - s.at + 2) / 3) };

    fn next(&mut self) -> Option<usize> {
        if self.w.len() <= self.at {
            return None;
        }
        let there = three(self.w, self.at);
        if there == NO_PLACE {
            return None;
        }
        self.at += 3;
        Some(there)
    }
}

// A row of places and its end.
pub fn skip_places(w: &[u8], at: usize) -> usize
    ensures { SkipsPlaces w.now at result }
{
    let count = PlaceRow::new(w, at).count();
    walk::ahead(w, at, 3 * count + 3)
}

// The places of the pairs of an entry's metadata, if it has metadata of its own.
fn skip_metadata(w: &[u8], at: usize, flags: usize) -> usize
    ensures { ((flags / 4 ≡ 1 → ⊥) → result ≡ at) × (flags / 4 ≡ 1 → SkipsPlaces w.now at result) }
{
    if flags / 4 == 1 {
        return skip_places(w, at);
    }
    at
}

// Where the type of an entry begins.
pub fn skip_head(w: &[u8], at: usize) -> usize
    ensures { SkipsHead w.now at result }
{
    let flags = walk::byte(w, at);
    skip_metadata(w, walk::ahead(w, at, 4), flags)
}

// An entry of at most so many levels.
#[cycle(skipping)]
pub fn skip_entry(w: &[u8], at: usize, levels: usize) -> usize
    ensures { SkipsEntries w.now at levels result }
{
    skip_type(w, skip_head(w, at), levels)
}

// The type of an entry.
#[cycle(skipping)]
pub fn skip_type(w: &[u8], at: usize, levels: usize) -> usize
    ensures { (l : ℕ) (s : Bytes) (first : DataType l) (k : ℕ) (y : Bytes) (t : DataType l) → l ≤ levels → SpellType l s first k y t → Skips w.now at y result }
{
    if levels <= 0 {
        return at;
    }
    let inner = walk::ahead(w, at, 4);
    match kind_at(w, at) {
        Kind::Raw => inner,
        Kind::OpenStruct => skip_row(w, inner, levels - 1),
        Kind::OpenList => skip_entry(w, inner, levels - 1),
        Kind::OpenUnion => skip_places(w, inner),
    }
}

// A row of entries and its end.
#[cycle(skipping)]
pub fn skip_row(w: &[u8], at: usize, levels: usize) -> usize
    ensures { (l : ℕ) (s : Bytes) (k : ℕ) (y : Bytes) (fs : List (Field l)) → l ≤ levels → SpellRow l s k y fs → Skips w.now at y result }
{
    let mut place = at;
    while place < w.len() {
        if walk::byte(w, place) == NO_ENTRY {
            return walk::ahead(w, place, 1);
        }
        let next = skip_entry(w, place, levels);
        if next <= place {
            return place;
        }
        place = next;
    }
    place
}

// An entry of at most so many levels, as `skip_entry` has it. Most entries have no metadata of their own and a type in which nothing was
// merged: eight bytes.
pub fn next_entry(w: &[u8], at: usize, levels: usize) -> usize
    ensures { SkipsEntries w.now at levels result }
{
    if w.len() <= at || w.len() - at < 8 || 4 <= w[at] || w[at + 4] != 0 {
        return skip_entry(w, at, levels);
    }
    at + 8
}

// What is left of a row of entries of at most so many levels, whose places it gives one after the other, up to the mark; and where that begins.
// A row without a mark ends with the table.
#[derive(Clone, Copy)]
pub struct EntryRow<'a> {
    w: &'a [u8],
    pub at: usize,
    levels: usize,
}

impl<'a> EntryRow<'a> {
    // The row that begins at a place of the table.
    pub fn new(w: &'a [u8], at: usize, levels: usize) -> Self
        ensures { (result.w.now ≡ w.now) × (result.at ≡ at) × (result.levels ≡ levels) }
    {
        EntryRow { w, at, levels }
    }

    // The place of the entry that stands next, before it is passed: a look-up stops at the entry that it finds, and walks none of it.
    pub fn peek(&self) -> Option<usize>
        ensures { PeeksEntry self.now result }
    {
        if self.w.len() <= self.at || walk::byte(self.w, self.at) == NO_ENTRY {
            return None;
        }
        Some(self.at)
    }
}

impl Iterator for EntryRow<'_> {
    ghost use Rattle.std.specs.Prelude.{◌-◌, length};
    ghost use Rattle.std.specs.Iterator.{at_most};
    ghost use Rattle.table.specs.Entries.{GivesEntry};

    type Item = usize;

    ghost next_gives = { GivesEntry };

    ghost remaining = { λ s. at_most (length s.w.now - s.at) };

    // An entry is not empty: where none is passed, none stands.
    fn next(&mut self) -> Option<usize> {
        let place = self.peek()?;
        let behind = next_entry(self.w, place, self.levels);
        if behind <= place {
            return None;
        }
        self.at = behind;
        Some(place)
    }
}

// The place of the train that stands behind one byte: that of an entry's first occurrence behind its flags, and a type's behind its kind. A
// row may have thousands of entries, and the look-up of a name reads the place of each, behind `peek`, which made the first test.
pub fn place_at(w: &[u8], at: usize) -> usize
    ensures { NamesPlace w.now at result × (result < 16777216) }
{
    if w.len() <= at || w.len() - at < 4 {
        return 0;
    }
    u32::from_le_bytes([w[at + 1], w[at + 2], w[at + 3], 0]) as usize
}

// The code of the type whose entry stands at a place.
pub fn code_at(s: &[u8], w: &[u8], at: usize) -> usize
    ensures { (l : ℕ) (first : DataType (suc l)) (k : ℕ) (y : Bytes) (a : DataType (suc l)) → SpellType (suc l) s.now first k y a → Stands w.now at y → result ≡ a.code }
{
    walk::byte(s, place_at(w, at))
}

// Whether the entry that stands at a place of the table has a name, which is given as `name_of` gives one.
fn has_entry_name(s: &[u8], w: &[u8], at: usize, name: &[u8]) -> bool
    ensures { NamesEntry s.now w.now at name.now result }
{
    has_name(s, place_at(w, at), name)
}

// Whether an entry stands at a place of the table, which may be a row's end, and has a name.
fn is_named(s: &[u8], w: &[u8], at: usize, name: &[u8]) -> bool
    ensures { NamesEntry s.now w.now at name.now result × (get_or w.now at 0 ≡ no_entry → result ≡ false) }
{
    walk::byte(w, at) != NO_ENTRY && has_entry_name(s, w, at, name)
}

// The entry of a name, from a row's front on.
fn scan(s: &[u8], w: &[u8], row: usize, name: &[u8], levels: usize) -> Result<usize, usize>
    ensures { (l k : ℕ) (y : Bytes) (fs : List (Field l)) (n : Bytes) → l ≤ levels → SpellRow l s.now k y fs → Stands w.now row y → name.now ≡ part text_bytes n → Finds l s.now row k y fs n result }
{
    let mut entries = EntryRow::new(w, row, levels);
    while let Some(place) = entries.peek() {
        if has_entry_name(s, w, place, name) {
            return Ok(place);
        }
        if entries.next().is_none() {
            return Err(place);
        }
    }
    Err(entries.at)
}

// The look-up of the merge: `SchemaBuilder::try_merge` looks for the first field of a name; no two entries of a row have one, so any is the
// first. Names that come in the order of the row are found at the hint, the place behind the entry that was found last. It gives the entry's
// place, or, as `binary_search` does, the one where such an entry goes: the row's end.
pub fn find(
    s: &[u8],
    w: &[u8],
    row: usize,
    hint: usize,
    q: usize,
    levels: usize,
) -> Result<usize, usize>
    ensures { (l k : ℕ) (y : Bytes) (fs : List (Field l)) (g : Head) → l ≤ levels → SpellRow l s.now k y fs → Stands w.now row y → Stands s.now q (head_bytes g) → Cut l s.now row k y fs hint → Finds l s.now row k y fs g.name result }
{
    let name = name_of(s, q);
    if is_named(s, w, hint, name) {
        return Ok(hint);
    }
    scan(s, w, row, name, levels)
}

// The schema merged so far: the first `used` bytes of the work buffer, which name places of the train.
#[derive(Drop)]
pub struct Table<'a> {
    pub train: &'a [u8],
    w: &'a mut [u8],
    used: usize,
}

impl<'a> Table<'a> {
    // No bytes yet.
    pub fn new(train: &'a [u8], w: &'a mut [u8]) -> Self
        ensures same_reference { result.w.ghost_name ≡ w.entry.ghost_name }
        ensures empty { (result.train.now ≡ train.now) × (result.w.now ≡ w.old) × (result.used ≡ 0) }
    {
        Self::with_used(train, w, 0)
    }

    // Of which so many bytes are in use.
    pub fn with_used(train: &'a [u8], w: &'a mut [u8], used: usize) -> Self
        ensures same_reference { result.w.ghost_name ≡ w.entry.ghost_name }
        ensures holds { (result.train.now ≡ train.now) × (result.w.now ≡ w.old) × (result.used ≡ used) }
    {
        Table { train, w, used }
    }
}

impl Table<'_> {
    // How many bytes of the buffer are in use.
    pub fn used(&self) -> usize
        ensures { result ≡ self.now.used }
    {
        self.used
    }

    // A byte of the table. Those past its end are 0.
    pub fn byte(&self, at: usize) -> usize
        ensures { (result ≡ get_or self.now.w.now at 0) × (result < 256) }
    {
        walk::byte(self.w, at)
    }

    // The number of three bytes at a place of the table.
    pub fn three(&self, at: usize) -> usize
        ensures { (result ≡ three self.now.w.now at) × (result < 16777216) }
    {
        three(self.w, at)
    }

    // So many bytes on, at most to the buffer's end.
    pub fn ahead(&self, at: usize, n: usize) -> usize
        ensures { (result ≤ length self.now.w.now) × (at + n ≤ length self.now.w.now → result ≡ at + n) }
    {
        walk::ahead(self.w, at, n)
    }

    // The kind of the type whose entry stands at a place.
    pub fn kind_at(&self, at: usize) -> Kind
        ensures { result ≡ kind_of (get_or self.now.w.now at 0) }
    {
        kind_at(self.w, at)
    }

    // The place of the train that an entry names behind its flags, and a type's behind its kind.
    pub fn place_at(&self, at: usize) -> usize
        ensures { NamesPlace self.now.w.now at result }
    {
        place_at(self.w, at)
    }

    // The code of the type whose entry stands at a place.
    pub fn code_at(&self, at: usize) -> usize
        ensures { (l : ℕ) (first : DataType (suc l)) (k : ℕ) (y : Bytes) (a : DataType (suc l)) → SpellType (suc l) self.now.train.now first k y a → Stands self.now.w.now at y → result ≡ a.code }
    {
        code_at(self.train, self.w, at)
    }

    // The row of places that begins at a place of the table.
    pub fn places(&self, at: usize) -> PlaceRow<'_>
        ensures { (result.w.now ≡ self.now.w.now) × (result.at ≡ at) }
    {
        PlaceRow::new(self.w, at)
    }

    // A row of places and its end.
    pub fn skip_places(&self, at: usize) -> usize
        ensures { SkipsPlaces self.now.w.now at result }
    {
        skip_places(self.w, at)
    }

    // Where the type of an entry begins.
    pub fn skip_head(&self, at: usize) -> usize
        ensures { SkipsHead self.now.w.now at result }
    {
        skip_head(self.w, at)
    }

    // Behind an entry of at most so many levels.
    pub fn next_entry(&self, at: usize, levels: usize) -> usize
        ensures { SkipsEntries self.now.w.now at levels result }
    {
        next_entry(self.w, at, levels)
    }

    // The place of the entry that has the name of a field of the train, or the row's end.
    pub fn find(&self, row: usize, hint: usize, q: usize, levels: usize) -> Result<usize, usize>
        ensures { (l k : ℕ) (y : Bytes) (fs : List (Field l)) (g : Head) → l ≤ levels → SpellRow l self.now.train.now k y fs → Stands self.now.w.now row y → Stands self.now.train.now q (head_bytes g) → Cut l self.now.train.now row k y fs hint → Finds l self.now.train.now row k y fs g.name result }
    {
        find(self.train, self.w, row, hint, q, levels)
    }

    // Writes bytes over as many that stand at a place.
    pub fn overwrite(&mut self, at: usize, v: &[u8])
        ensures { Rewrites (λ _. Overwrites at v.now) self.old self.new }
    {
        if self.w.len() < at || self.w.len() - at < v.len() {
            return;
        }
        self.w[at..at + v.len()].copy_from_slice(v);
    }

    // One byte over another.
    pub fn set_byte(&mut self, at: usize, n: usize)
        ensures { Rewrites (λ _. SetsByte at n) self.old self.new }
    {
        self.overwrite(at, &[(n % 256) as u8]);
    }

    // "The first Null takes the other's type": a place of the train instead of what stands there.
    pub fn take_type(&mut self, at: usize, t: usize)
        ensures { Rewrites (λ _. TakesType at t) self.old self.new }
    {
        let [a, b, c] = place_bytes(t);
        self.overwrite(at, &[Kind::Raw as u8, a, b, c]);
    }

    // Puts bytes in at a place: what is in use behind it moves on. It moves within the part that begins at the place: the compiler makes a
    // `memmove` of that, and a slow loop of the same move within the whole buffer.
    pub fn insert(&mut self, at: usize, v: &[u8])
        ensures { Edits (λ _. Inserts at v.now) self.old self.new }
    {
        if self.used < at || self.w.len() < self.used || self.w.len() - self.used < v.len() {
            return;
        }
        let behind = self.used - at;
        self.w[at..].copy_within(..behind, v.len());
        self.w[at..at + v.len()].copy_from_slice(v);
        self.used += v.len();
    }

    // Puts a place of the train in.
    pub fn insert_place(&mut self, at: usize, place: usize)
        ensures { Edits (λ _. InsertsPlace at place) self.old self.new }
    {
        self.insert(at, &place_bytes(place));
    }

    // The entry of a field of the train that nothing was merged into yet: nullable and ordered or not, its place, and its type's.
    pub fn insert_entry(&mut self, at: usize, q: usize)
        ensures { Edits (InsertsEntry at q) self.old self.new }
    {
        let flags = (walk::byte(self.train, q) % 4) as u8;
        let [a, b, c] = place_bytes(q);
        let [d, e, f] = place_bytes(walk::skip_head(self.train, q));
        self.insert(at, &[flags, a, b, c, Kind::Raw as u8, d, e, f]);
    }

    // A raw struct becomes an open one that has no children yet.
    pub fn open_struct(&mut self, at: usize)
        ensures { Edits (λ _. OpensRow at) self.old self.new }
    {
        self.set_byte(at, Kind::OpenStruct as usize);
        let inner = self.ahead(at, 4);
        self.insert(inner, &[NO_ENTRY as u8]);
    }

    // A raw list or large list becomes an open one with the entry of its child.
    pub fn open_list(&mut self, at: usize)
        ensures { Edits (OpensList at) self.old self.new }
    {
        if self.kind_at(at) == Kind::OpenList {
            return;
        }
        let child = walk::ahead(self.train, self.place_at(at), 1);
        let inner = self.ahead(at, 4);
        self.set_byte(at, Kind::OpenList as usize);
        self.insert_entry(inner, child);
    }
}

// The three bytes of a place.
#[tactic(auto, unfolding(crate::specs::Table::u24))]
fn place_bytes(place: usize) -> [u8; 3]
    ensures { result ≡ u24 place }
{
    let [a, b, c, ..] = place.to_le_bytes();
    [a, b, c]
}

// The flags of an entry whose type has the first code when a field whose type has the second is merged into it. The order bit is its own, but "a
// Null column that takes a type takes its order flag too"; as the Rust merges, the two bits are equal there. Nullable it is if it was, or if
// any of these is so: the incoming field is nullable, either type is Null.
pub fn flags_of(flags: usize, map: usize, mine: usize, theirs: usize) -> usize
    ensures { result ≡ flags / 4 * 4 + cond (eqb mine 0) (map / 2 % 2) (flags / 2 % 2) * 2 + flag 1 (eqb (flags % 2) 1 || eqb (map % 2) 1 || eqb mine 0 || eqb theirs 0) }
{
    let ordered = if mine == 0 { map } else { flags };
    let nullable = flags % 2 == 1 || map % 2 == 1 || mine == 0 || theirs == 0;
    flags / 4 * 4 + ordered / 2 % 2 * 2 + usize::from(nullable)
}
