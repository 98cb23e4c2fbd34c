// Document 01, module 2: plain equality, `equals_datatype` and `contains`, of types, fields and columns that have been read, where they
// stand in two sheets. All three go over both trees side by side in one way: the heads, the code, the parameters, the children. Where they
// differ, a `Comparison` says which is meant. The levels left fall from a type to its children; loops go over children.
ghost use Rattle.std.specs.Prelude.{◌≡◌, List, ℕ, ◌≤◌, length};
ghost use Rattle.model.specs.Bytes.{Every, same, all, any};
ghost use Rattle.model.specs.Tree.{Head, DataType, Field, Schema, layout};
ghost use Rattle.model.specs.Tree.Children.{counted, counted_with_ids};
ghost use Rattle.model.specs.Sheet.{each, head_bytes, field_bytes, children_bytes, type_bytes, sheet_bytes};
ghost use Rattle.model.specs.WellFormed.{CountFits, LaidOut, Whole, Child, Fits};
ghost use Rattle.model.specs.Call.{yes_no, settled, zeros};
ghost use Rattle.buffer.specs.Leaves.{leaves};
ghost use Rattle.layout.specs.Kinds.{children_of};
ghost use Rattle.walk.specs.Stands.{Stands, Skips};
ghost use Rattle.datatype.specs.Children.{child_bytes};
ghost use Rattle.datatype.specs.Comparisons.{same_head, contains_head, compare_head, compare_type, compare_field, compare_child, compare_members, compare_children, compare_schema, by_id, below, counts_agree};

use crate::metadata::{contains_metadata, of_head, of_sheet, same_name, same_stretch};
use buffer::Refusal;
use layout::{ChildrenKind, RUN_END_ENCODED, UNION};
use sheet::Cursor;
use walk::Elements;

// `==`, `DataType::equals_datatype`, `DataType::contains`.
#[derive(Clone, Copy, PartialEq, Eq)]
pub enum Comparison {
    Equal,
    EqualsDatatype,
    Contains,
}

impl Comparison {
    // Whether the children of a type of this code are matched by id, in any order. Plain equality goes by position.
    #[tactic(auto, unfolding(crate::specs::Comparisons::by_id))]
    fn by_id(self, code: usize) -> bool
        ensures { result ≡ by_id self code }
    {
        self != Comparison::Equal && code == UNION
    }

    // How the children of a type of this code are compared: `contains` has no arm for RunEndEncoded, so there they must be equal.
    #[tactic(auto, unfolding(crate::specs::Comparisons::below, model::specs::Bytes::choose))]
    fn below(self, code: usize) -> Comparison
        ensures { result ≡ below self code }
    {
        match self {
            Comparison::Contains if code == RUN_END_ENCODED => Comparison::Equal,
            _ => self,
        }
    }

    // What is asked of the numbers of children of two unions: `equals_datatype` asks that they are equal, `contains` nothing.
    #[tactic(auto, unfolding(crate::specs::Comparisons::counts_agree))]
    fn counts_agree(self, n: usize, m: usize) -> bool
        ensures { result ≡ counts_agree self n m }
    {
        self != Comparison::EqualsDatatype || n == m
    }
}

// The place behind a child of a parent with this kind of children: a Dictionary's two types have no head, a union's fields stand behind ids.
fn skip_child(s: &[u8], at: usize, kind: ChildrenKind, levels: usize) -> usize
    ensures { (l : ℕ) (k : Field l) → l ≤ levels → LaidOut l k.data_type → Skips s.now at (child_bytes l (children_of kind) k) result }
{
    match kind {
        ChildrenKind::KeyAndValue => walk::skip_type(s, at, levels),
        ChildrenKind::Fields(_) | ChildrenKind::Counted => walk::skip_field(s, at, levels),
        ChildrenKind::CountedWithIds => walk::skip_field(s, walk::ahead(s, at, 1), levels),
    }
}

// Two sheets, and what of them is compared.
#[derive(Clone, Copy)]
pub struct Comparer<'a> {
    pub own: &'a [u8],
    pub other: &'a [u8],
    pub how: Comparison,
}

impl Comparer<'_> {
    // Whether two heads are equal but for the order flag and the dictionary number. Of the maps the bits of nullable, name and metadata count.
    fn same_head(&self, a: usize, b: usize) -> bool
        ensures { (h g : Head) → Stands self.now.own.now a (head_bytes h) → Stands self.now.other.now b (head_bytes g) → result ≡ same_head h g }
    {
        let map = walk::byte(self.own, a);
        let other = walk::byte(self.other, b);
        if walk::bit(map, 0) != walk::bit(other, 0) {
            return false;
        }
        if map / 4 % 4 != other / 4 % 4 {
            return false;
        }
        let from = walk::ahead(self.own, a, 1);
        let since = walk::ahead(self.other, b, 1);
        same_stretch(
            self.own,
            from,
            walk::skip_front(self.own, a),
            self.other,
            since,
            walk::skip_front(self.other, b),
        )
    }

    // What `Field::contains` asks of two heads: one name, one order flag, nullable where the other is, all of the other's metadata.
    fn contains_head(&self, a: usize, b: usize) -> bool
        ensures { (h g : Head) → Stands self.now.own.now a (head_bytes h) → Stands self.now.other.now b (head_bytes g) → result ≡ contains_head h g }
    {
        let map = walk::byte(self.own, a);
        let other = walk::byte(self.other, b);
        if walk::bit(map, 1) != walk::bit(other, 1) {
            return false;
        }
        if walk::bit(other, 0) && !walk::bit(map, 0) {
            return false;
        }
        if !same_name(self.own, a, self.other, b) {
            return false;
        }
        let own = of_head(self.own, a);
        let asked = of_head(self.other, b);
        contains_metadata(self.own, own, self.other, asked)
    }

    // What a comparison asks of two heads. `equals_datatype` "ignores names, metadata and order flags".
    fn compare_head(&self, a: usize, b: usize) -> bool
        ensures { (h g : Head) → Stands self.now.own.now a (head_bytes h) → Stands self.now.other.now b (head_bytes g) → result ≡ compare_head self.now.how h g }
    {
        match self.how {
            Comparison::Equal => self.same_head(a, b),
            Comparison::EqualsDatatype => walk::bit(walk::byte(self.own, a), 0)
                == walk::bit(walk::byte(self.other, b), 0),
            Comparison::Contains => self.contains_head(a, b),
        }
    }

    // Two types of at most so many levels: one code, equal parameters, and the children. A plain type has neither.
    #[cycle(comparing)]
    pub fn compare_type(&self, a: usize, b: usize, levels: usize) -> bool
        ensures { (l : ℕ) (x y : DataType l) → l ≤ levels → Whole l x → Whole l y → Stands self.now.own.now a (type_bytes l x) → Stands self.now.other.now b (type_bytes l y) → result ≡ compare_type self.now.how l x y }
    {
        if levels == 0 {
            return true;
        }
        let code = walk::byte(self.own, a);
        if code != walk::byte(self.other, b) {
            return false;
        }
        if layout::is_plain(code) {
            return true;
        }
        let from = walk::ahead(self.own, a, 1);
        let since = walk::ahead(self.other, b, 1);
        let first = walk::skip_params(self.own, from, code);
        let other = walk::skip_params(self.other, since, code);
        if !same_stretch(self.own, from, first, self.other, since, other) {
            return false;
        }
        self.compare_children(first, other, code, levels - 1)
    }

    // Two fields: the heads, then the types.
    #[cycle(comparing)]
    pub fn compare_field(&self, a: usize, b: usize, levels: usize) -> bool
        ensures { (l : ℕ) (f g : Field l) → l ≤ levels → Whole l f.data_type → Whole l g.data_type → Stands self.now.own.now a (field_bytes (type_bytes l) f) → Stands self.now.other.now b (field_bytes (type_bytes l) g) → result ≡ compare_field self.now.how l f g }
    {
        if !self.compare_head(a, b) {
            return false;
        }
        let from = walk::skip_head(self.own, a);
        let since = walk::skip_head(self.other, b);
        self.compare_type(from, since, levels)
    }

    // Two children of parents with this kind of children. Only what is written of them is compared.
    #[cycle(comparing)]
    fn compare_child(&self, a: usize, b: usize, kind: ChildrenKind, levels: usize) -> bool
        ensures { (l : ℕ) (j k : Field l) → l ≤ levels → Child l (children_of kind) j → Child l (children_of kind) k → Stands self.now.own.now a (child_bytes l (children_of kind) j) → Stands self.now.other.now b (child_bytes l (children_of kind) k) → result ≡ compare_child self.now.how l j k }
    {
        match kind {
            ChildrenKind::KeyAndValue => self.compare_type(a, b, levels),
            ChildrenKind::Fields(_) | ChildrenKind::Counted => self.compare_field(a, b, levels),
            ChildrenKind::CountedWithIds => {
                if walk::byte(self.own, a) != walk::byte(self.other, b) {
                    return false;
                }
                let own = walk::ahead(self.own, a, 1);
                let other = walk::ahead(self.other, b, 1);
                self.compare_field(own, other, levels)
            }
        }
    }

    // So many children one behind the other, each with the one at its position. A loop: a thousand take no more stack than one. The last decides,
    // and the place behind it is not looked for: so structs of one child inside one another are gone over once.
    #[cycle(comparing)]
    fn compare_row(
        &self,
        a: usize,
        b: usize,
        kind: ChildrenKind,
        count: usize,
        levels: usize,
    ) -> bool
        ensures { (l : ℕ) (js ks : List (Field l)) → l ≤ levels → length js ≡ count → length ks ≡ count → Every (Child l (children_of kind)) js → Every (Child l (children_of kind)) ks → Stands self.now.own.now a (each (child_bytes l (children_of kind)) js) → Stands self.now.other.now b (each (child_bytes l (children_of kind)) ks) → result ≡ same (compare_child self.now.how l) js ks }
    {
        if count == 0 {
            return true;
        }
        let mut place = a;
        let mut other = b;
        for _ in 1..count {
            if !self.compare_child(place, other, kind, levels) {
                return false;
            }
            place = skip_child(self.own, place, kind, levels);
            other = skip_child(self.other, other, kind, levels);
        }
        self.compare_child(place, other, kind, levels)
    }

    // The children of two types of one code, by position.
    #[cycle(comparing)]
    fn compare_in_order(&self, a: usize, b: usize, kind: ChildrenKind, levels: usize) -> bool
        ensures { (l : ℕ) (js ks : List (Field l)) → l ≤ levels → CountFits (children_of kind) js → CountFits (children_of kind) ks → Every (Child l (children_of kind)) js → Every (Child l (children_of kind)) ks → Stands self.now.own.now a (children_bytes (type_bytes l) (children_of kind) js) → Stands self.now.other.now b (children_bytes (type_bytes l) (children_of kind) ks) → result ≡ same (compare_child self.now.how l) js ks }
    {
        match kind {
            ChildrenKind::Fields(count) => self.compare_row(a, b, kind, count, levels),
            ChildrenKind::KeyAndValue => self.compare_row(a, b, kind, 2, levels),
            ChildrenKind::Counted | ChildrenKind::CountedWithIds => {
                let own = Elements::counted(self.own, a);
                let others = Elements::counted(self.other, b);
                if own.count != others.count {
                    return false;
                }
                self.compare_row(own.at, others.at, kind, own.count, levels)
            }
        }
    }

    // Whether one of so many union children agrees with the one at a place of the first sheet.
    #[cycle(comparing)]
    fn has_member(&self, a: usize, others: Elements, levels: usize) -> bool
        ensures { (l : ℕ) (j : Field l) (ks : List (Field l)) → l ≤ levels → length ks ≡ others.count → Child l counted_with_ids j → Every (Child l counted_with_ids) ks → Stands self.now.own.now a (child_bytes l counted_with_ids j) → Stands self.now.other.now others.at (each (child_bytes l counted_with_ids) ks) → result ≡ any (compare_child self.now.how l j) ks }
    {
        let mut place = others.at;
        for _ in 0..others.count {
            if self.compare_child(a, place, ChildrenKind::CountedWithIds, levels) {
                return true;
            }
            place = skip_child(self.other, place, ChildrenKind::CountedWithIds, levels);
        }
        false
    }

    // Whether each of so many union children agrees with one of so many others.
    #[cycle(comparing)]
    fn every_member(&self, own: Elements, others: Elements, levels: usize) -> bool
        ensures { (l : ℕ) (js ks : List (Field l)) → l ≤ levels → length js ≡ own.count → length ks ≡ others.count → Every (Child l counted_with_ids) js → Every (Child l counted_with_ids) ks → Stands self.now.own.now own.at (each (child_bytes l counted_with_ids) js) → Stands self.now.other.now others.at (each (child_bytes l counted_with_ids) ks) → result ≡ all (λ j. any (compare_child self.now.how l j) ks) js }
    {
        let mut place = own.at;
        for _ in 0..own.count {
            if !self.has_member(place, others, levels) {
                return false;
            }
            place = skip_child(self.own, place, ChildrenKind::CountedWithIds, levels);
        }
        true
    }

    // The children of two unions, by id.
    #[cycle(comparing)]
    fn compare_members(&self, a: usize, b: usize, levels: usize) -> bool
        ensures { (l : ℕ) (js ks : List (Field l)) → l ≤ levels → Every (Child l counted_with_ids) js → Every (Child l counted_with_ids) ks → Stands self.now.own.now a (children_bytes (type_bytes l) counted_with_ids js) → Stands self.now.other.now b (children_bytes (type_bytes l) counted_with_ids ks) → result ≡ compare_members self.now.how l js ks }
    {
        let own = Elements::counted(self.own, a);
        let others = Elements::counted(self.other, b);
        if !self.how.counts_agree(own.count, others.count) {
            return false;
        }
        self.every_member(own, others, levels)
    }

    // The children of two types of this code.
    #[cycle(comparing)]
    fn compare_children(&self, a: usize, b: usize, code: usize, levels: usize) -> bool
        ensures { (l : ℕ) (js ks : List (Field l)) → l ≤ levels → CountFits (layout code).children js → CountFits (layout code).children ks → Every (Child l (layout code).children) js → Every (Child l (layout code).children) ks → Stands self.now.own.now a (children_bytes (type_bytes l) (layout code).children js) → Stands self.now.other.now b (children_bytes (type_bytes l) (layout code).children ks) → result ≡ compare_children self.now.how l code js ks }
    {
        if self.how.by_id(code) {
            return self.compare_members(a, b, levels);
        }
        let how = self.how.below(code);
        Comparer { how, ..*self }.compare_in_order(a, b, layout::children(code), levels)
    }

    // The columns, by position.
    fn compare_columns(&self) -> bool
        ensures { (x y : Schema) → Every (Child 32 counted) x.columns → Every (Child 32 counted) y.columns → Stands self.now.own.now 0 (sheet_bytes x) → Stands self.now.other.now 0 (sheet_bytes y) → result ≡ same (compare_child self.now.how 32) x.columns y.columns }
    {
        let own = walk::find_columns(self.own, 0);
        let others = walk::find_columns(self.other, 0);
        if own.count != others.count {
            return false;
        }
        self.compare_row(
            own.at,
            others.at,
            ChildrenKind::Counted,
            own.count,
            Cursor::LEVELS,
        )
    }

    // Two sheets: "both equalities take each sheet as the Struct of its columns", `Schema::contains` compares schema metadata too.
    fn compare_sheets(&self) -> bool
        ensures { (x y : Schema) → Every (Child 32 counted) x.columns → Every (Child 32 counted) y.columns → Stands self.now.own.now 0 (sheet_bytes x) → Stands self.now.other.now 0 (sheet_bytes y) → result ≡ compare_schema self.now.how x y }
    {
        if !self.compare_columns() {
            return false;
        }
        match self.how {
            Comparison::Equal | Comparison::EqualsDatatype => true,
            Comparison::Contains => {
                let all = of_sheet(self.own, 0);
                let asked = of_sheet(self.other, 0);
                contains_metadata(self.own, all, self.other, asked)
            }
        }
    }

    // What is answered of two sheets that were read: "one byte, 1 for yes and 0 for no".
    pub fn answer(&self, work: &mut [u8], answer: &mut [u8]) -> Result<usize, Refusal>
        ensures { (x y : Schema) → Fits x → Fits y → self.now.own.now ≡ sheet_bytes x → self.now.other.now ≡ sheet_bytes y → leaves result answer.new work.new ≡ settled (yes_no (compare_schema self.now.how x y)) (zeros (length work.old)) answer.old }
    {
        buffer::accept_byte(work, answer, u8::from(self.compare_sheets()))
    }
}
