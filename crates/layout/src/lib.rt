// The table of the 41 types as the code reads it: document 01, "A type is a code byte 0 to 40 in the order of `enum DataType`, then
// parameters, then children." Reading a sheet and going over one that was read look types up here.
#![tactic(auto)]

ghost use Rattle.std.specs.Prelude.{◌≡◌, true};
ghost use Rattle.model.specs.Tree.{layout, leaf};
ghost use Rattle.layout.specs.Kinds.{params_of, children_of};

// Codes that a rule speaks of, in the order of `DataType`.
pub const NULL: usize = 0;

pub const LIST: usize = 27;

pub const LIST_VIEW: usize = 28;

pub const FIXED_SIZE_LIST: usize = 29;

pub const LARGE_LIST: usize = 30;

pub const LARGE_LIST_VIEW: usize = 31;

pub const STRUCT: usize = 32;

pub const UNION: usize = 33;

pub const DICTIONARY: usize = 34;

pub const MAP: usize = 39;

pub const RUN_END_ENCODED: usize = 40;

pub const LAST_CODE: usize = 40;

// What parameters a type has.
#[derive(Clone, Copy, PartialEq, Eq)]
pub enum ParamsKind {
    None,
    // A unit, a map, perhaps a zone.
    Timestamp,
    Unit,
    IntervalUnit,
    // An i32.
    Int32,
    // A byte 0 or 1: a union's mode, whether a map is sorted.
    Flag,
    // Precision and scale.
    Decimal,
}

// What children a type has.
#[derive(Clone, Copy, PartialEq, Eq)]
pub enum ChildrenKind {
    // So many fields.
    Fields(usize),
    // A key type and a value type.
    KeyAndValue,
    // A count, then as many fields.
    Counted,
    // A count, then an id and a field each.
    CountedWithIds,
}

// The parameters of the type of a code; none past the table. A match and no table: a table would be laid out anew at each call.
pub fn params(code: usize) -> ParamsKind
    ensures { params_of result ≡ (layout code).params }
{
    match code {
        13 => ParamsKind::Timestamp,
        16..=18 => ParamsKind::Unit,
        19 => ParamsKind::IntervalUnit,
        21 | FIXED_SIZE_LIST => ParamsKind::Int32,
        UNION | MAP => ParamsKind::Flag,
        35..=38 => ParamsKind::Decimal,
        _ => ParamsKind::None,
    }
}

// The children of the type of a code; none past the table.
pub fn children(code: usize) -> ChildrenKind
    ensures { children_of result ≡ (layout code).children }
{
    match code {
        LIST..=LARGE_LIST_VIEW | MAP => ChildrenKind::Fields(1),
        STRUCT => ChildrenKind::Counted,
        UNION => ChildrenKind::CountedWithIds,
        DICTIONARY => ChildrenKind::KeyAndValue,
        RUN_END_ENCODED => ChildrenKind::Fields(2),
        _ => ChildrenKind::Fields(0),
    }
}

// Whether the type of a code has neither parameters nor children. Most columns of a log are such, and a sheet has nothing of their types but
// the code.
pub fn is_plain(code: usize) -> bool
    ensures { (result ≡ true → layout code ≡ leaf) × (layout code ≡ leaf → result ≡ true) }
{
    if params(code) != ParamsKind::None {
        return false;
    }
    children(code) == ChildrenKind::Fields(0)
}
