// Document 01, module 1: "compare, lookup". Texts and metadata of sheets that have been read, where they stand: `Metadata::get` of
// metadata.rs, and what `contains` of field.rs and schema.rs asks of the metadata of two sides.
ghost use Rattle.std.specs.Prelude.{◌≡◌, ◌+◌, length};
ghost use Rattle.model.specs.Bytes.{Bytes, Metadata, same_bytes, get_is};
ghost use Rattle.model.specs.Tree.{Head, Schema};
ghost use Rattle.model.specs.Sheet.{each, part, stands, with_count, text_bytes, pair_bytes, head_bytes, sheet_bytes};
ghost use Rattle.model.specs.Datatype.{contains_metadata};
ghost use Rattle.walk.specs.Stands.{Stands};
ghost use Rattle.datatype.specs.Comparisons.{PairsAt};

use walk::Elements;

// Whether the bytes from one place to another are equal to those between two places of the other sheet.
pub fn same_stretch(s: &[u8], a: usize, e: usize, t: &[u8], b: usize, f: usize) -> bool
    ensures { (x y : Bytes) → Stands s.now a x → Stands t.now b y → e ≡ a + length x → f ≡ b + length y → result ≡ same_bytes x y }
{
    let (Some(own), Some(other)) = (s.get(a..e), t.get(b..f)) else {
        return false;
    };
    text::same(own, other)
}

// Whether two texts are equal: their bytes without the lengths.
pub fn same_text(s: &[u8], a: usize, t: &[u8], b: usize) -> bool
    ensures { (x y : Bytes) → Stands s.now a (text_bytes x) → Stands t.now b (text_bytes y) → result ≡ same_bytes x y }
{
    let from = walk::ahead(s, a, 2);
    let since = walk::ahead(t, b, 2);
    same_stretch(
        s,
        from,
        walk::skip_text(s, a),
        t,
        since,
        walk::skip_text(t, b),
    )
}

// Whether two fields have one name: an empty name is not written.
pub fn same_name(s: &[u8], a: usize, t: &[u8], b: usize) -> bool
    ensures { (h g : Head) → Stands s.now a (head_bytes h) → Stands t.now b (head_bytes g) → result ≡ same_bytes h.name g.name }
{
    let named = walk::bit(walk::byte(s, a), 2);
    if named != walk::bit(walk::byte(t, b), 2) {
        return false;
    }
    if !named {
        return true;
    }
    same_text(s, walk::ahead(s, a, 1), t, walk::ahead(t, b, 1))
}

// The name of a field as its head has it, the length before it. Nothing for an empty name, which is not written.
pub fn name_of<'a>(s: &'a [u8], at: usize) -> &'a [u8]
    ensures { (h : Head) → Stands s.now at (head_bytes h) → result.now ≡ part text_bytes h.name }
{
    let from = walk::ahead(s, at, 1);
    s.get(from..walk::skip_name(s, at)).unwrap_or(&[])
}

// Whether a field has a name, which is given as `name_of` gives one. So one name can be compared with many; since the length is compared
// as the first bytes of it, the field's own is not read.
pub fn has_name(s: &[u8], at: usize, name: &[u8]) -> bool
    ensures { (h : Head) (n : Bytes) → Stands s.now at (head_bytes h) → name.now ≡ part text_bytes n → result ≡ same_bytes h.name n }
{
    let named = walk::bit(walk::byte(s, at), 2);
    if name.is_empty() {
        return !named;
    }
    if !named {
        return false;
    }
    let from = walk::ahead(s, at, 1);
    if s.len() - from < name.len() {
        return false;
    }
    text::same(&s[from..from + name.len()], name)
}

// `Metadata::get(key).is_some_and(|v| v == value)`, for the key and the value that stand at a place: the first pair with that key decides.
pub fn get_is(s: &[u8], pairs: Elements, t: &[u8], key: usize) -> bool
    ensures { (p : Bytes × Bytes) (m : Metadata) → length m ≡ pairs.count → Stands t.now key (pair_bytes p) → Stands s.now pairs.at (each pair_bytes m) → result ≡ get_is m p.0 p.1 }
{
    let value = walk::skip_text(t, key);
    let mut place = pairs.at;
    for _ in 0..pairs.count {
        let own = walk::skip_text(s, place);
        if same_text(s, place, t, key) {
            return same_text(s, own, t, value);
        }
        place = walk::skip_text(s, own);
    }
    false
}

// Whether the first has every key of the second, with the same value.
pub fn contains_metadata(s: &[u8], all: Elements, t: &[u8], asked: Elements) -> bool
    ensures { (m other : Metadata) → PairsAt s.now m all.count all.at → PairsAt t.now other asked.count asked.at → result ≡ contains_metadata m other }
{
    let mut place = asked.at;
    for _ in 0..asked.count {
        if !get_is(s, all, t, place) {
            return false;
        }
        place = walk::skip_pair(t, place);
    }
    true
}

// The metadata of a field.
pub fn of_head(s: &[u8], at: usize) -> Elements
    ensures { (h : Head) → Stands s.now at (head_bytes h) → PairsAt s.now h.metadata result.count result.at }
{
    let place = walk::skip_name(s, at);
    Elements::counted_if(s, place, walk::bit(walk::byte(s, at), 3))
}

// The metadata of a sheet's schema.
pub fn of_sheet(s: &[u8], at: usize) -> Elements
    ensures { (x : Schema) → Stands s.now at (sheet_bytes x) → PairsAt s.now x.metadata result.count result.at }
{
    let map = walk::byte(s, at);
    let place = walk::ahead(s, at, 1);
    Elements::counted_if(s, place, walk::bit(map, 0))
}
