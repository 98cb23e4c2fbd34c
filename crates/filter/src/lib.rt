// Document 01, module 6, the leaf filter: `Fields::try_filter_leaves` of fields.rs. A sheet that was read is gone over once, and what is
// kept of it is put into the work buffer. Nothing here tests the format again: each function takes any bytes and any place, and says
// what it keeps where the part that it is for stands there.
#![tactic(auto)]

ghost use Rattle.std.specs.Prelude.{◌≡◌, ◌*◌, ◌≤◌, length};
ghost use Rattle.model.specs.Tree.{Schema};
ghost use Rattle.model.specs.Sheet.{sheet_bytes};
ghost use Rattle.model.specs.WellFormed.{Fits};
ghost use Rattle.model.specs.Filter.{filter_leaves};
ghost use Rattle.model.specs.Call.{sheet_answer, settled, zeros, filter_call};
ghost use Rattle.buffer.specs.Leaves.{leaves};
ghost use Rattle.filter.specs.Filters.{CopiesTo, FiltersLeaf, FiltersType, FiltersField, FiltersChild, FiltersRow, FiltersCounted, FiltersChildren, FiltersNested, FiltersInner, FiltersEncoded, FiltersSheet, FiltersColumns, reached, taken_back};

use buffer::{Number, Output, Refusal};
use layout::{DICTIONARY, RUN_END_ENCODED, STRUCT, UNION};
use sheet::Cursor;
use sheet::call::on_sheet;
use walk::Elements;

// What stands before a part was put from `put` to `front`. Where nothing was put behind it, it is taken back: "A nested type with no leaf
// left vanishes."
#[tactic(auto, unfolding(model::specs::Bytes::choose))]
fn take_back(out: &mut Output<'_>, put: usize, front: usize)
    ensures { out.new ≡ taken_back put front out.old }
{
    if out.written == front {
        out.written = put;
    }
}

// What is filtered, a sheet, and by what: a mask, whose bytes are those of the leaves. And how far it was gone over: the place in the sheet,
// and the number of the next leaf.
#[derive(Clone, Copy)]
struct Sieve<'a> {
    sheet: &'a [u8],
    mask: &'a [u8],
    at: usize,
    leaf: usize,
}

impl Sieve<'_> {
    // Copies what stands up to a place, which has no leaf that is not counted yet.
    fn copy_to(&mut self, out: &mut Output<'_>, to: usize)
        ensures { CopiesTo to (reached self.old out.old) (reached self.new out.new) }
    {
        walk::put_part(out, self.sheet, self.at, to);
        self.at = to;
    }

    // "Mask byte i keeps leaf i unless 0." A field that is a leaf stands up to the place. Behind the mask's end nothing is kept. A sheet has
    // fewer leaves than bytes, so their number never stops at the largest.
    fn filter_leaf(&mut self, out: &mut Output<'_>, end: usize)
        ensures { FiltersLeaf end (reached self.old out.old) (reached self.new out.new) }
    {
        let mark = walk::byte(self.mask, self.leaf);
        self.leaf = self.leaf.saturating_add(1);
        if mark == 0 {
            self.at = end;
        } else {
            self.copy_to(out, end);
        }
    }

    // `filter_field`: the field with what is left of its type, or the leaf that it is.
    #[cycle(filtering)]
    fn filter_field(&mut self, out: &mut Output<'_>, levels: usize)
        ensures { FiltersField levels (reached self.old out.old) (reached self.new out.new) }
    {
        let from = *self;
        let put = out.written;
        let body = walk::skip_head(self.sheet, from.at);
        self.copy_to(out, body);
        let front = out.written;
        if self.filter_type(out, levels, true) {
            take_back(out, put, front);
        } else {
            *self = from;
            out.written = put;
            self.filter_leaf(out, walk::skip_type(self.sheet, body, levels));
        }
    }

    // `filter_field`, its matches on the type, of at most so many levels: whether it was gone over, and what is kept of it put. Where it was
    // not, it has no leaf below it, so that its field is one itself, and is to be gone over anew. "One Dictionary or RunEndEncoded is looked
    // through, not two": `through` says that none was yet.
    #[cycle(filtering)]
    fn filter_type(&mut self, out: &mut Output<'_>, levels: usize, through: bool) -> bool
        ensures { FiltersType levels through (reached self.old out.old) (reached self.new out.new) result }
    {
        if levels == 0 {
            return false;
        }
        let code = walk::byte(self.sheet, self.at);
        if walk::holds_fields(code) {
            self.filter_nested(out, code, levels - 1);
            return true;
        }
        if !through {
            return false;
        }
        self.filter_encoded(out, code, levels - 1)
    }

    // A Dictionary or RunEndEncoded is what the type of its second child is. All others have no leaf below them.
    #[cycle(filtering)]
    fn filter_encoded(&mut self, out: &mut Output<'_>, code: usize, levels: usize) -> bool
        ensures { FiltersEncoded code levels (reached self.old out.old) (reached self.new out.new) result }
    {
        let first = walk::ahead(self.sheet, self.at, 1);
        if code == DICTIONARY {
            let value = walk::skip_type(self.sheet, first, levels);
            return self.filter_inner(out, value, levels);
        }
        if code == RUN_END_ENCODED {
            let values = walk::skip_field(self.sheet, first, levels);
            let body = walk::skip_head(self.sheet, values);
            return self.filter_inner(out, body, levels);
        }
        false
    }

    // The type that stands at a place, and what stands before it, which is kept with it.
    #[cycle(filtering)]
    fn filter_inner(&mut self, out: &mut Output<'_>, inner: usize, levels: usize) -> bool
        ensures { FiltersInner inner levels (reached self.old out.old) (reached self.new out.new) result }
    {
        let put = out.written;
        self.copy_to(out, inner);
        let front = out.written;
        let nested = self.filter_type(out, levels, false);
        take_back(out, put, front);
        nested
    }

    // A type that holds fields: its code and parameters, and what is left of its children.
    #[cycle(filtering)]
    fn filter_nested(&mut self, out: &mut Output<'_>, code: usize, levels: usize)
        ensures { FiltersNested code levels (reached self.old out.old) (reached self.new out.new) }
    {
        let put = out.written;
        let params = walk::ahead(self.sheet, self.at, 1);
        let children = walk::skip_params(self.sheet, params, code);
        self.copy_to(out, children);
        let front = out.written;
        self.filter_children(out, code, levels);
        take_back(out, put, front);
    }

    // The children of such a type. One that is no Struct and no Union has one field.
    #[cycle(filtering)]
    fn filter_children(&mut self, out: &mut Output<'_>, code: usize, levels: usize)
        ensures { FiltersChildren code levels (reached self.old out.old) (reached self.new out.new) }
    {
        match code {
            STRUCT => self.filter_counted(out, 0, levels),
            UNION => self.filter_counted(out, 1, levels),
            _ => self.filter_field(out, levels),
        }
    }

    // A count, and as many children with so many bytes before each. How many are kept is known at the end, and put over the two bytes that
    // were held for it. Where none is, these are taken back.
    #[cycle(filtering)]
    fn filter_counted(&mut self, out: &mut Output<'_>, before: usize, levels: usize)
        ensures { FiltersCounted before levels (reached self.old out.old) (reached self.new out.new) }
    {
        let held = out.written;
        out.put_two(0);
        let children = Elements::counted(self.sheet, self.at);
        self.at = children.at;
        let kept = self.filter_row(out, children.count, before, levels);
        let end = out.written;
        out.written = held;
        if kept != 0 {
            out.put_two(kept);
            out.written = end;
        }
    }

    // So many children, one behind the other, and how many of them are kept: those that something was put of.
    #[cycle(filtering)]
    fn filter_row(
        &mut self,
        out: &mut Output<'_>,
        count: usize,
        before: usize,
        levels: usize,
    ) -> usize
        ensures { FiltersRow count before levels (reached self.old out.old) (reached self.new out.new) result }
    {
        let mut kept = 0;
        for _ in 0..count {
            let put = out.written;
            self.filter_child(out, before, levels);
            kept += usize::from(out.written != put);
        }
        kept
    }

    // A child with so many bytes before it: a union's child has its id there, others nothing.
    #[cycle(filtering)]
    fn filter_child(&mut self, out: &mut Output<'_>, before: usize, levels: usize)
        ensures { FiltersChild before levels (reached self.old out.old) (reached self.new out.new) }
    {
        let put = out.written;
        let field = walk::ahead(self.sheet, self.at, before);
        self.copy_to(out, field);
        let front = out.written;
        self.filter_field(out, levels);
        take_back(out, put, front);
    }

    // The columns behind their count. Where none is kept, the map at the start of what was put loses its bit.
    fn filter_columns(&mut self, out: &mut Output<'_>)
        ensures { FiltersColumns (reached self.old out.old) (reached self.new out.new) }
    {
        let put = out.written;
        self.filter_counted(out, 0, Cursor::LEVELS);
        if out.written == put {
            let map = walk::byte(self.sheet, 0) % 2;
            out.written = 0;
            out.put_one(map as u8);
            out.written = put;
        }
    }

    // The sheet: the map, the schema's metadata as it is, and what is left of the columns.
    fn filter_sheet(&mut self, out: &mut Output<'_>)
        ensures { FiltersSheet (reached self.old out.old) (reached self.new out.new) }
    {
        let columns = walk::skip_sheet_head(self.sheet, 0);
        self.copy_to(out, columns);
        if walk::bit(walk::byte(self.sheet, 0), 1) {
            self.filter_columns(out);
        }
    }
}

// What is answered of a sheet that was read: 12, or the filtered sheet. The leaves are counted on the way, and 12 is decided at the end.
fn answer_filtered(
    sheet: &[u8],
    mask: &[u8],
    work: &mut [u8],
    answer: &mut [u8],
) -> Result<usize, Refusal>
    requires { (x : Schema) × Fits x × (sheet.now ≡ sheet_bytes x) × (4 * length sheet.now ≤ length work.old) }
    ensures { (x : Schema) → Fits x → sheet.now ≡ sheet_bytes x → 4 * length sheet.now ≤ length work.old → leaves result answer.new work.new ≡ settled (sheet_answer (filter_leaves x mask.now)) (zeros (length work.old)) answer.old }
{
    let mut sieve = Sieve {
        sheet,
        mask,
        at: 0,
        leaf: 0,
    };
    let mut out = Output::new(work);
    sieve.filter_sheet(&mut out);
    let written = out.written;
    if sieve.leaf != mask.len() {
        return buffer::refuse(work, Refusal::from(Number::MaskLength));
    }
    buffer::accept_written(work, written, answer)
}

// `Fields::try_filter_leaves`. "Keeping schema metadata is added."
pub fn filter(
    sheet: &[u8],
    mask: &[u8],
    work: &mut [u8],
    answer: &mut [u8],
) -> Result<usize, Refusal>
    ensures { leaves result answer.new work.new ≡ filter_call sheet.now mask.now work.old answer.old }
{
    on_sheet(sheet, work, answer, |work, answer| {
        answer_filtered(sheet, mask, work, answer)
    })
}
