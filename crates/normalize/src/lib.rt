// Document 01, module 5, schemas: `Schema::normalize` of schema.rs. The Rust keeps the fields that it has not come to on a stack, each with
// the parts of its name; here the sheet that was read is gone over in order, with the places of the fields above, and a name is joined only
// as it is written. The columns are gone over twice: into a buffer of no bytes for their length and number, then into the answer buffer.
#![tactic(auto)]

ghost use Rattle.std.specs.Prelude.{◌≡◌, ℕ, List, [], ◌∷◌, ◌++◌, ◌&&◌, ◌||◌, ◌≤◌, ◌<◌, length, take, eqb, ltb, leb};
ghost use Rattle.model.specs.Numbers.{max_levels};
ghost use Rattle.model.specs.Tree.{Head, Schema, Struct};
ghost use Rattle.model.specs.Sheet.{head_bytes, sheet_bytes};
ghost use Rattle.model.specs.WellFormed.{Fits};
ghost use Rattle.model.specs.Schema as schemas;
ghost use Rattle.model.specs.Call.{sheet_answer, settled, zeros, normalize_call};
ghost use Rattle.buffer.specs.Puts.{Puts};
ghost use Rattle.buffer.specs.Leaves.{leaves};
ghost use Rattle.walk.specs.Stands.{Stands};
ghost use Rattle.normalize.specs.Expands.{Above, prefix, Measures, ExpandsColumn, ExpandsField, ExpandsFields, PutsColumns, sheet_length, PutsNormalized};

use buffer::{Number, Output, Refusal};
use layout::STRUCT;
use sheet::Cursor;
use sheet::call::on_sheet;
use std::marker::Model;
use walk::Elements;

// How far a walk came: the place in the sheet, and the number of columns that were put.
#[derive(Clone, Copy)]
struct Reach {
    place: usize,
    count: usize,
}

// The places of the fields above a field, the outermost first. No field of a sheet that was read has more.
#[derive(Drop)]
struct Path {
    places: [usize; Cursor::LEVELS],
    depth: usize,
}

impl Model for Path {
    ghost Value = { List ℕ };

    ghost view = { λ p. take p.depth p.places };

    ghost invariant = { λ p. p.depth ≤ max_levels };
}

impl Path {
    // That of a column: no field is above it.
    fn new() -> Self
        ensures { result ≡ [] }
    {
        Self {
            places: [0; Cursor::LEVELS],
            depth: 0,
        }
    }

    fn places(&self) -> &[usize]
        ensures { result.now ≡ self.now }
    {
        &self.places[..self.depth]
    }

    // Whether it has no room for the place of one more field.
    fn is_full(&self) -> bool
        ensures { result ≡ leb max_levels (length self.now) }
    {
        Cursor::LEVELS <= self.depth
    }

    // Adds the place of a field, on the way to its children.
    fn push(&mut self, at: usize)
        requires { length self.old < max_levels }
        ensures { self.new ≡ self.old ++ at ∷ [] }
    {
        self.places[self.depth] = at;
        self.depth += 1;
    }

    // Takes the last place away again, on the way back.
    fn pop(&mut self)
        requires { 0 < length self.old }
        ensures { (path : List ℕ) (at : ℕ) → self.old ≡ path ++ at ∷ [] → self.new ≡ path }
    {
        self.depth -= 1;
    }
}

// The length of a sheet whose columns, behind its map and their count, reach so far: without a column it is its map alone.
#[tactic(auto, using(crate::proofs::Sheets::short_sheet, crate::proofs::Sheets::long_sheet))]
fn sheet_length(end: usize) -> usize
    ensures { result ≡ sheet_length end }
{
    if end <= 3 {
        return 1;
    }
    end
}

// What is expanded, a sheet, and how: the separator between the parts of a name, and the level where it ends.
#[derive(Clone, Copy)]
struct Expansion<'a> {
    sheet: &'a [u8],
    separator: &'a [u8],
    max_level: u16,
}

impl Expansion<'_> {
    // The name of the field that stands at a place, without its length.
    fn put_own_name(&self, out: &mut Output<'_>, at: usize)
        ensures { (h : Head) → Stands self.now.sheet.now at (head_bytes h) → Puts h.name out.old out.new }
    {
        if walk::bit(walk::byte(self.sheet, at), 2) {
            let text = walk::ahead(self.sheet, at, 1);
            let body = walk::ahead(self.sheet, text, 2);
            let end = walk::skip_text(self.sheet, text);
            walk::put_part(out, self.sheet, body, end);
        }
    }

    // The names of the fields above, the outermost first, each with the separator behind it.
    fn put_prefix(&self, out: &mut Output<'_>, path: &Path)
        ensures { (hs : List Head) → Above self.now.sheet.now path.now hs → Puts (prefix self.now.separator.now hs) out.old out.new }
    {
        for &place in path.places() {
            self.put_own_name(out, place);
            out.put(self.separator);
        }
    }

    // The name of a column, without its length.
    fn put_name(&self, out: &mut Output<'_>, at: usize, path: &Path)
        ensures { (hs : List Head) (h : Head) → Above self.now.sheet.now path.now hs → Stands self.now.sheet.now at (head_bytes h) → Puts (prefix self.now.separator.now hs ++ h.name) out.old out.new }
    {
        self.put_prefix(out, path);
        self.put_own_name(out, at);
    }

    // The length of a column's name, which stands before it. A separator may be as long as memory, so it is counted as the name is put.
    fn name_length(&self, at: usize, path: &Path) -> usize
        ensures { (hs : List Head) (h : Head) → Above self.now.sheet.now path.now hs → Stands self.now.sheet.now at (head_bytes h) → Measures (prefix self.now.separator.now hs ++ h.name) result }
    {
        let mut out = Output::new(&mut []);
        self.put_name(&mut out, at, path);
        out.written
    }

    // A column's head: "written columns lose metadata and order flag, keep their own nullability", and lose the dictionary number. A name
    // that comes out empty has its bit clear.
    fn put_head(&self, out: &mut Output<'_>, at: usize, path: &Path)
        ensures { (hs : List Head) (h : Head) → Above self.now.sheet.now path.now hs → Stands self.now.sheet.now at (head_bytes h) → Puts (head_bytes (schemas.plain_head (prefix self.now.separator.now hs ++ h.name) h)) out.old out.new }
    {
        let nullable = walk::byte(self.sheet, at) % 2;
        let length = self.name_length(at, path);
        if length == 0 {
            out.put_one(nullable as u8);
            return;
        }
        out.put_one((nullable + 4) as u8);
        out.put_two(length);
        self.put_name(out, at, path);
    }

    // A field that is a column itself: its head, then its type as it stands.
    fn put_column(&self, out: &mut Output<'_>, from: Reach, path: &Path) -> Reach
        ensures { ExpandsColumn self.now.sheet.now self.now.separator.now path.now out.old out.new from result }
    {
        let data_type = walk::skip_head(self.sheet, from.place);
        let place = walk::skip_type(self.sheet, data_type, Cursor::LEVELS);
        self.put_head(out, from.place, path);
        walk::put_part(out, self.sheet, data_type, place);
        Reach {
            place,
            count: from.count.saturating_add(1),
        }
    }

    // Whether a field at a depth is expanded whose type has this code: "the level is a u16, and 0 means no limit".
    fn expands(&self, code: usize, depth: usize) -> bool
        ensures { result ≡ (eqb code Struct && (eqb self.now.max_level 0 || ltb depth self.now.max_level)) }
    {
        code == STRUCT && (self.max_level == 0 || depth < usize::from(self.max_level))
    }

    // A turn of the Rust's loop: a Struct that is expanded becomes the columns of its children, any other field is one column. The path is
    // longer while the children are gone over, and as it was then.
    #[cycle(expanding)]
    fn expand_field(&self, out: &mut Output<'_>, from: Reach, path: &mut Path) -> Reach
        ensures { (path.new ≡ path.old) × ExpandsField self.now.sheet.now self.now.separator.now self.now.max_level path.old out.old out.new from result }
    {
        let data_type = walk::skip_head(self.sheet, from.place);
        if !self.expands(walk::byte(self.sheet, data_type), path.places().len()) {
            return self.put_column(out, from, path);
        }
        if path.is_full() {
            return from;
        }
        path.push(from.place);
        let fields = Elements::counted(self.sheet, walk::ahead(self.sheet, data_type, 1));
        let first = Reach {
            place: fields.at,
            ..from
        };
        let reach = self.expand_fields(out, first, fields.count, path);
        path.pop();
        reach
    }

    // So many fields, one behind the other. It stops once they are known to pass the longest answer.
    #[cycle(expanding)]
    fn expand_fields(
        &self,
        out: &mut Output<'_>,
        from: Reach,
        count: usize,
        path: &mut Path,
    ) -> Reach
        ensures { (path.new ≡ path.old) × ExpandsFields self.now.sheet.now self.now.separator.now self.now.max_level path.old count out.old out.new from result }
    {
        let mut reach = from;
        for _ in 0..count {
            reach = self.expand_field(out, reach, path);
            if buffer::MAX_ANSWER_BYTES < out.written {
                return reach;
            }
        }
        reach
    }

    // All columns, and how many they are.
    fn put_columns(&self, out: &mut Output<'_>) -> usize
        ensures { PutsColumns self.now.sheet.now self.now.separator.now self.now.max_level out.old out.new result }
    {
        let columns = walk::find_columns(self.sheet, 0);
        let first = Reach {
            place: columns.at,
            count: 0,
        };
        self.expand_fields(out, first, columns.count, &mut Path::new())
            .count
    }

    // The normalised sheet, where it has so many columns: "schema metadata goes".
    fn put_normalized(&self, out: &mut Output<'_>, count: usize)
        ensures { PutsNormalized self.now.sheet.now self.now.separator.now self.now.max_level count out.old out.new }
    {
        if count == 0 {
            out.put_one(0);
            return;
        }
        out.put_one(2);
        out.put_two(count);
        self.put_columns(out);
    }

    // The parameters and the answer of a call whose sheet was read: 18, 30, 31, or acceptance.
    fn answer(&self, work: &mut [u8], answer: &mut [u8]) -> Result<usize, Refusal>
        ensures { (x : Schema) → Fits x → self.now.sheet.now ≡ sheet_bytes x → leaves result answer.new work.new ≡ settled (sheet_answer (schemas.normalize x self.now.separator.now self.now.max_level)) (zeros (length work.old)) answer.old }
    {
        if text::check(self.separator).is_err() {
            return buffer::refuse(work, Refusal::from(Number::SeparatorNotUtf8));
        }
        // The map and the count of the columns are three bytes whatever they are.
        let mut measured = Output::new(&mut []);
        measured.put(&[0; 3]);
        let count = self.put_columns(&mut measured);
        let length = sheet_length(measured.written);
        match buffer::length_fits(length, answer.len()) {
            Err(refusal) => buffer::refuse(work, refusal),
            Ok(()) => {
                self.put_normalized(&mut Output::new(answer), count);
                buffer::clear(work);
                Ok(length)
            }
        }
    }
}

// `Schema::normalize`.
pub fn normalize(
    sheet: &[u8],
    separator: &[u8],
    max_level: u16,
    work: &mut [u8],
    answer: &mut [u8],
) -> Result<usize, Refusal>
    ensures { leaves result answer.new work.new ≡ normalize_call sheet.now separator.now max_level work.old answer.old }
{
    on_sheet(sheet, work, answer, |work, answer| {
        let expansion = Expansion {
            sheet,
            separator,
            max_level,
        };
        expansion.answer(work, answer)
    })
}
