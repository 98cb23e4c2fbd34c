// Why a call refuses: document 01, "Numbers a call gives". The Rust says it by an `ArrowError` and its sentence.
ghost use Rattle.std.specs.Prelude.{◌≡◌};
ghost use Rattle.buffer.specs.Refusals.{number_of, without_place};

// The numbers of the table, in its order, but for 0, which is acceptance.
#[derive(Clone, Copy, Debug, PartialEq, Eq)]
pub enum Number {
    EndsInside = 1,
    SheetTooLong = 9,
    TooDeep = 5,
    Malformed = 2,
    NotUtf8 = 3,
    KeyNotAbove = 4,
    IdTooLarge = 6,
    IdRepeated = 7,
    BytesLeft = 8,
    TooManySheets = 33,
    OddList = 17,
    IndexOutOfBounds = 10,
    IndexRepeated = 11,
    MaskLength = 12,
    SeparatorNotUtf8 = 18,
    NoSuchColumn = 13,
    MoreFieldsThanIds = 14,
    MoreIdsThanFields = 15,
    TooManyFields = 16,
    SchemaMetadataClash = 25,
    OrderedClash = 20,
    FieldMetadataClash = 21,
    TypeClash = 22,
    EqualChildClash = 23,
    TypeIdClash = 24,
    AnswerTooLong = 30,
    AnswerBufferShort = 31,
    WorkBufferShort = 32,
    InputTooLong = 35,
}

impl From<Number> for u8 {
    ghost from_gives = { λ number n. n ≡ number_of number };

    fn from(number: Number) -> u8 {
        number as u8
    }
}

// A refusal: its number, and the place that the number names.
#[derive(Clone, Copy, Debug, PartialEq, Eq)]
pub struct Refusal(pub Number, pub usize);

// A number that names no place is given with 0.
impl From<Number> for Refusal {
    ghost from_gives = { λ number refusal. refusal ≡ without_place number };

    fn from(number: Number) -> Refusal {
        Refusal(number, 0)
    }
}
