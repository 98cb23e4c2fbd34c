// Reading sheets: document 01, "The sheet" and "Numbers a call gives". The limits, the cursor, items, a sheet, two
// sheets, a train. Each answer is the definition's (crates/model, Read), without the tree.
#![tactic(auto)]

pub mod call;

ghost use Rattle.std.specs.Prelude.{◌≡◌, ◌<◌, ◌≤◌, ◌+◌, length, [], false, true, ◌^◌, not, ◌||◌, eqb, Ok, option_copied};
ghost use Rattle.model.specs.Bytes.{bit};
ghost use Rattle.model.specs.Tree.{layout};
ghost use Rattle.model.specs.Tree.Params.{timestamp};
ghost use Rattle.model.specs.Read.{anything, is_text, if_set, param_fits, read_item, read_number, read_text, read_many, read_pair, read_metadata, read_dict_id, read_zone, read_params, read_field, read_type, read_children, read_union_child, read_list, read_column, read_schema, read_sheet, read_two, read_train};
ghost use Rattle.model.specs.Numbers.{max_sheet_bytes};
ghost use Rattle.buffer.specs.Refusals.{numbered};
ghost use Rattle.sheet.specs.Answers.{item_of, step_of, cursor_at};
ghost use Rattle.sheet.specs.Keys.{read_key};
ghost use Rattle.layout.specs.Kinds.{params_of};
ghost use Rattle.layout.specs.declared.ParamsKind.TheVariants.{Decimal};
ghost use Rattle.sheet.specs.Shapes.{read_head, read_shape, read_id};
ghost use Rattle.model.specs.Tree.{Dictionary};
ghost use Rattle.model.specs.Tree.Children.{counted, counted_with_ids, key_and_value};

use buffer::{Number, Refusal};
use layout::{ChildrenKind, ParamsKind};

// Where a sheet is read: the place of the next byte, and the place behind its byte 65,535. Document 01: "These limits are
// named constants of the sheet itself."
#[derive(Clone, Copy)]
pub struct Cursor {
    pub at: usize,
    pub limit: usize,
}

impl Cursor {
    pub const LEVELS: usize = 32;

    pub const SHEET_BYTES: usize = 65535;

    pub const SHEETS: usize = 256;

    // At the first byte of an input.
    pub fn first() -> Cursor
        ensures { result ≡ cursor_at 0 }
    {
        Cursor {
            at: 0,
            limit: Cursor::SHEET_BYTES,
        }
    }

    // At the first byte of a sheet that begins at a place of a train.
    pub fn sheet(at: usize) -> Cursor
        requires { at + max_sheet_bytes < 2 ^ 64 }
        ensures { result ≡ cursor_at at }
    {
        Cursor {
            at,
            limit: at + Cursor::SHEET_BYTES,
        }
    }
}

// Whether a type of this code may stand under a field with the ordered bit, or without it.
fn may_order(ordered: bool, code: usize) -> bool
    ensures { result ≡ (not ordered || eqb code Dictionary) }
{
    if ordered {
        return code == layout::DICTIONARY;
    }
    true
}

// What is read, and the place behind the last byte that the sheet may have.
#[derive(Clone, Copy)]
struct Reader<'a> {
    bytes: &'a [u8],
    limit: usize,
}

impl<'a> Reader<'a> {
    // Bytes as they stand: the place past them.
    fn read_raw(&self, at: usize, n: usize) -> Result<usize, Refusal>
        ensures { numbered result ≡ step_of (read_item self.now.bytes.now self.now.limit n anything at) }
    {
        if self.bytes.len() < at {
            return Err(Refusal(Number::EndsInside, at));
        }
        if self.bytes.len() - at < n {
            return Err(Refusal(Number::EndsInside, at));
        }
        if self.limit < at + n {
            return Err(Refusal(Number::SheetTooLong, at));
        }
        Ok(at + n)
    }

    // One byte, and the place past it.
    fn read_byte(&self, at: usize) -> Result<(usize, usize), Refusal>
        ensures { numbered result ≡ item_of (read_number self.now.bytes.now self.now.limit 1 anything at) }
    {
        let next = self.read_raw(at, 1)?;
        Ok((usize::from(self.bytes[at]), next))
    }

    // A number of two bytes, the low byte first, and the place past it.
    fn read_u16(&self, at: usize) -> Result<(usize, usize), Refusal>
        ensures { numbered result ≡ item_of (read_number self.now.bytes.now self.now.limit 2 anything at) }
    {
        let next = self.read_raw(at, 2)?;
        let number = u16::from_le_bytes([self.bytes[at], self.bytes[at + 1]]);
        Ok((usize::from(number), next))
    }

    // A parameter of one byte, at most `top`.
    fn read_param(&self, at: usize, top: usize) -> Result<usize, Refusal>
        ensures { numbered result ≡ step_of (read_item self.now.bytes.now self.now.limit 1 (param_fits (1, top)) at) }
    {
        let (v, next) = self.read_byte(at)?;
        if v <= top {
            Ok(next)
        } else {
            Err(Refusal(Number::Malformed, at))
        }
    }

    // A string's body.
    fn read_body(&self, at: usize, n: usize) -> Result<usize, Refusal>
        ensures { numbered result ≡ step_of (read_item self.now.bytes.now self.now.limit n is_text at) }
    {
        let raw = self.read_raw(at, n);
        let Ok(end) = raw else {
            return raw;
        };
        let Ok(()) = text::check(&self.bytes[at..end]) else {
            return Err(Refusal(Number::NotUtf8, at));
        };
        raw
    }

    // A string of at least so many bytes.
    fn read_text(&self, at: usize, least: usize) -> Result<usize, Refusal>
        ensures { numbered result ≡ step_of (read_text self.now.bytes.now self.now.limit least at) }
    {
        let (n, next) = self.read_u16(at)?;
        if n < least {
            return Err(Refusal(Number::Malformed, at));
        }
        self.read_body(next, n)
    }

    // A name that is not empty.
    fn read_name(&self, at: usize) -> Result<usize, Refusal>
        ensures { numbered result ≡ step_of (read_text self.now.bytes.now self.now.limit 1 at) }
    {
        self.read_text(at, 1)
    }

    // A part that stands where a bit of a map is set. In line, so that one that does not stand costs no call.
    #[inline(always)]
    fn read_if<F: FnOnce(&Reader<'a>, usize) -> Result<usize, Refusal>>(
        &self,
        at: usize,
        set: bool,
        read: F,
    ) -> Result<usize, Refusal>
        requires { F.pre read self at }
        ensures there { set ≡ true → F.post read self.entry at result }
        ensures absent { set ≡ false → result ≡ Ok at }
    {
        if set { read(self, at) } else { Ok(at) }
    }

    // A key, which has to be above the one before it, if there is one.
    fn read_key(&self, at: usize, previous: Option<&[u8]>) -> Result<usize, Refusal>
        ensures { numbered result ≡ step_of (read_key self.now.bytes.now self.now.limit (option_copied previous.entry) at) }
    {
        let read = self.read_text(at, 0);
        let Ok(end) = read else {
            return read;
        };
        let Some(key) = previous else {
            return read;
        };
        if text::is_below(key, &self.bytes[at + 2..end]) {
            return read;
        }
        Err(Refusal(Number::KeyNotAbove, at))
    }

    // So many keys and values, the keys ascending.
    fn read_pairs(&self, at: usize, count: usize) -> Result<usize, Refusal>
        ensures { numbered result ≡ step_of (read_many count (read_pair self.now.bytes.now self.now.limit) [] at) }
    {
        let mut previous: Option<&[u8]> = None;
        let mut place = at;
        for _ in 0..count {
            let keyed = self.read_key(place, previous);
            let Ok(value) = keyed else {
                return keyed;
            };
            let valued = self.read_text(value, 0);
            let Ok(end) = valued else {
                return valued;
            };
            previous = Some(&self.bytes[place + 2..value]);
            place = end;
        }
        Ok(place)
    }

    // Metadata that is not empty.
    fn read_metadata(&self, at: usize) -> Result<usize, Refusal>
        ensures { numbered result ≡ step_of (read_metadata self.now.bytes.now self.now.limit at) }
    {
        let (count, first) = self.read_u16(at)?;
        if count < 1 {
            return Err(Refusal(Number::Malformed, at));
        }
        self.read_pairs(first, count)
    }

    // A dictionary number: "2 for a stored 0".
    fn read_dict_id(&self, at: usize) -> Result<usize, Refusal>
        ensures { numbered result ≡ step_of (read_dict_id self.now.bytes.now self.now.limit at) }
    {
        let raw = self.read_raw(at, 8);
        let Ok(end) = raw else {
            return raw;
        };
        if text::word(self.bytes, at) == 0 {
            return Err(Refusal(Number::Malformed, at));
        }
        Ok(end)
    }

    // A time zone, which may be the empty text.
    fn read_zone(&self, at: usize) -> Result<usize, Refusal>
        ensures { numbered result ≡ step_of (read_zone self.now.bytes.now self.now.limit at) }
    {
        let (n, next) = self.read_u16(at)?;
        self.read_body(next, n)
    }

    // A time stamp's unit, map and zone.
    fn read_timestamp(&self, at: usize) -> Result<usize, Refusal>
        ensures { numbered result ≡ step_of (read_params self.now.bytes.now self.now.limit timestamp at) }
    {
        let unit = self.read_param(at, 3);
        let Ok(next) = unit else {
            return unit;
        };
        let (map, zone) = self.read_byte(next)?;
        if 1 < map {
            return Err(Refusal(Number::Malformed, next));
        }
        self.read_if(zone, map % 2 == 1, Self::read_zone)
    }

    // Precision and scale: each byte is allowed.
    fn read_decimal(&self, at: usize) -> Result<usize, Refusal>
        ensures { numbered result ≡ step_of (read_params self.now.bytes.now self.now.limit (params_of Decimal) at) }
    {
        let precision = self.read_param(at, 255);
        let Ok(next) = precision else {
            return precision;
        };
        self.read_param(next, 255)
    }

    // The parameters of a type.
    fn read_params(&self, at: usize, code: usize) -> Result<usize, Refusal>
        ensures { numbered result ≡ step_of (read_params self.now.bytes.now self.now.limit (layout code).params at) }
    {
        match layout::params(code) {
            ParamsKind::None => Ok(at),
            ParamsKind::Timestamp => self.read_timestamp(at),
            ParamsKind::Unit => self.read_param(at, 3),
            ParamsKind::IntervalUnit => self.read_param(at, 2),
            ParamsKind::Int32 => self.read_raw(at, 4),
            ParamsKind::Flag => self.read_param(at, 1),
            ParamsKind::Decimal => self.read_decimal(at),
        }
    }

    // The rest of a field's head, behind its map: the name under bit 2, the metadata under bit 3, the dictionary number under bit 4.
    fn read_head(&self, at: usize, map: usize) -> Result<usize, Refusal>
        ensures { numbered result ≡ step_of (read_head self.now.bytes.now self.now.limit map at) }
    {
        let named = self.read_if(at, map / 4 % 2 == 1, Self::read_name);
        let Ok(next) = named else {
            return named;
        };
        let metadata = self.read_if(next, map / 8 % 2 == 1, Self::read_metadata);
        let Ok(end) = metadata else {
            return metadata;
        };
        self.read_if(end, map / 16 % 2 == 1, Self::read_dict_id)
    }

    // A union child's id, after those whose flag stands.
    fn read_id(&self, used: &[bool; 128], at: usize) -> Result<(usize, usize), Refusal>
        ensures { numbered result ≡ item_of (read_id self.now.bytes.now self.now.limit used.now at) }
    {
        let (id, next) = self.read_byte(at)?;
        if 127 < id {
            return Err(Refusal(Number::IdTooLarge, at));
        }
        if used[id] {
            return Err(Refusal(Number::IdRepeated, at));
        }
        Ok((id, next))
    }

    // A field, with so many levels left for it and what it holds.
    #[cycle(reading)]
    fn read_field(&self, at: usize, levels: usize) -> Result<usize, Refusal>
        ensures { numbered result ≡ step_of (read_field self.now.bytes.now self.now.limit levels (read_type self.now.bytes.now self.now.limit levels) 0 at) }
    {
        let (map, next) = self.read_byte(at)?;
        if levels == 0 {
            return Err(Refusal(Number::TooDeep, at));
        }
        if 31 < map {
            return Err(Refusal(Number::Malformed, at));
        }
        let head = self.read_head(next, map);
        let Ok(body) = head else {
            return head;
        };
        // What is handed up whole is copied just after it was written in parts, for which the processor waits: of a field that is read, the
        // place alone is.
        let read = self.read_type(body, map / 2 % 2 == 1, levels);
        let Ok(end) = read else {
            return read;
        };
        Ok(end)
    }

    // A type, with so many levels left, itself among them; ordered where the field that holds it is.
    #[cycle(reading)]
    fn read_type(&self, at: usize, ordered: bool, levels: usize) -> Result<usize, Refusal>
        ensures { numbered result ≡ step_of (read_type self.now.bytes.now self.now.limit levels ordered at) }
    {
        let (code, next) = self.read_byte(at)?;
        if levels == 0 {
            return Err(Refusal(Number::TooDeep, at));
        }
        if layout::LAST_CODE < code {
            return Err(Refusal(Number::Malformed, at));
        }
        if may_order(ordered, code) {
            return self.read_shape(next, code, levels - 1);
        }
        Err(Refusal(Number::Malformed, at))
    }

    // What follows a code, with so many levels left for the children.
    #[cycle(reading)]
    fn read_shape(&self, at: usize, code: usize, levels: usize) -> Result<usize, Refusal>
        ensures { numbered result ≡ step_of (read_shape self.now.bytes.now self.now.limit levels code at) }
    {
        let read = self.read_params(at, code);
        let Ok(next) = read else {
            return read;
        };
        let children = self.read_children(next, code, levels);
        let Ok(end) = children else {
            return children;
        };
        Ok(end)
    }

    // The children of a type. Most types have none, and lists one: for these no loop is begun.
    #[cycle(reading)]
    fn read_children(&self, at: usize, code: usize, levels: usize) -> Result<usize, Refusal>
        ensures { numbered result ≡ step_of (read_children self.now.bytes.now self.now.limit levels (read_type self.now.bytes.now self.now.limit levels) (layout code).children at) }
    {
        match layout::children(code) {
            ChildrenKind::Fields(0) => Ok(at),
            ChildrenKind::Fields(1) => self.read_field(at, levels),
            ChildrenKind::Fields(count) => self.read_fields(at, count, levels),
            ChildrenKind::KeyAndValue => self.read_dictionary(at, levels),
            ChildrenKind::Counted => self.read_struct(at, levels),
            ChildrenKind::CountedWithIds => self.read_union(at, levels),
        }
    }

    // So many fields, one after the other.
    #[cycle(reading)]
    fn read_fields(&self, at: usize, count: usize, levels: usize) -> Result<usize, Refusal>
        ensures { numbered result ≡ step_of (read_many count (λ seen. read_field self.now.bytes.now self.now.limit levels (read_type self.now.bytes.now self.now.limit levels) 0) [] at) }
    {
        let mut place = at;
        for _ in 0..count {
            let got = self.read_field(place, levels);
            let Ok(next) = got else {
                return got;
            };
            place = next;
        }
        Ok(place)
    }

    // A dictionary's key type, then its value type.
    #[cycle(reading)]
    fn read_dictionary(&self, at: usize, levels: usize) -> Result<usize, Refusal>
        ensures { numbered result ≡ step_of (read_children self.now.bytes.now self.now.limit levels (read_type self.now.bytes.now self.now.limit levels) key_and_value at) }
    {
        let key = self.read_type(at, false, levels);
        let Ok(next) = key else {
            return key;
        };
        self.read_type(next, false, levels)
    }

    // A struct's count and its fields.
    #[cycle(reading)]
    fn read_struct(&self, at: usize, levels: usize) -> Result<usize, Refusal>
        ensures { numbered result ≡ step_of (read_children self.now.bytes.now self.now.limit levels (read_type self.now.bytes.now self.now.limit levels) counted at) }
    {
        let (count, first) = self.read_u16(at)?;
        self.read_fields(first, count, levels)
    }

    // A union's count and its children.
    #[cycle(reading)]
    fn read_union(&self, at: usize, levels: usize) -> Result<usize, Refusal>
        ensures { numbered result ≡ step_of (read_children self.now.bytes.now self.now.limit levels (read_type self.now.bytes.now self.now.limit levels) counted_with_ids at) }
    {
        let (count, first) = self.read_u16(at)?;
        self.read_members(first, count, levels)
    }

    // So many union children, each an id and a field.
    #[cycle(reading)]
    fn read_members(&self, at: usize, count: usize, levels: usize) -> Result<usize, Refusal>
        ensures { numbered result ≡ step_of (read_many count (read_union_child self.now.bytes.now self.now.limit levels (read_type self.now.bytes.now self.now.limit levels)) [] at) }
    {
        let mut used = [false; 128];
        let mut place = at;
        for _ in 0..count {
            let (id, body) = self.read_id(&used, place)?;
            let got = self.read_field(body, levels);
            let Ok(next) = got else {
                return got;
            };
            used[id] = true;
            place = next;
        }
        Ok(place)
    }

    // The columns of a sheet that has some.
    fn read_columns(&self, at: usize) -> Result<usize, Refusal>
        ensures { numbered result ≡ step_of (read_list self.now.bytes.now self.now.limit 1 (λ seen. read_column self.now.bytes.now self.now.limit) at) }
    {
        let (count, first) = self.read_u16(at)?;
        if count < 1 {
            return Err(Refusal(Number::Malformed, at));
        }
        self.read_fields(first, count, Cursor::LEVELS)
    }
}

// A sheet, from a cursor at its first byte on: of its map bit 0 is for the metadata, and bit 1 for the columns.
pub fn read_schema(s: &[u8], c: Cursor) -> Result<usize, Refusal>
    ensures { numbered result ≡ step_of (read_schema s.now c.limit c.at) }
{
    let at = c.at;
    let reader = Reader {
        bytes: s,
        limit: c.limit,
    };
    let (map, next) = reader.read_byte(at)?;
    if 3 < map {
        return Err(Refusal(Number::Malformed, at));
    }
    let metadata = reader.read_if(next, map % 2 == 1, Reader::read_metadata);
    let Ok(columns) = metadata else {
        return metadata;
    };
    reader.read_if(columns, map / 2 % 2 == 1, Reader::read_columns)
}

// A single sheet, and nothing behind it.
pub fn read_sheet(s: &[u8]) -> Result<usize, Refusal>
    ensures { numbered result ≡ step_of (read_sheet s.now) }
{
    let read = read_schema(s, Cursor::first());
    let Ok(end) = read else {
        return read;
    };
    if end < s.len() {
        return Err(Refusal(Number::BytesLeft, end));
    }
    Ok(end)
}

// A train: sheets end to end, at most 256.
pub fn read_train(s: &[u8]) -> Result<usize, Refusal>
    ensures { numbered result ≡ step_of (read_train s.now) }
{
    let mut at = 0;
    for _ in 0..Cursor::SHEETS {
        if s.len() <= at {
            return Ok(at);
        }
        let read = read_schema(s, Cursor::sheet(at));
        let Ok(end) = read else {
            return read;
        };
        at = end;
    }
    if at < s.len() {
        return Err(Refusal(Number::TooManySheets, at));
    }
    Ok(at)
}

// Two sheets: the first is read whole, then the second, whose places count on from the first's length.
pub fn read_two(s: &[u8], t: &[u8]) -> Result<usize, Refusal>
    ensures { numbered result ≡ step_of (read_two s.now t.now) }
{
    let first = read_sheet(s);
    let Ok(_) = first else {
        return first;
    };
    match read_sheet(t) {
        Ok(end) => Ok(s.len() + end),
        Err(Refusal(number, place)) => Err(Refusal(number, s.len() + place)),
    }
}
