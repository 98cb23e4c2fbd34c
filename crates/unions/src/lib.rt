// Document 01, module 3, unions: the two union numbering calls, and the look-up of a type id. They render `UnionFields::try_new`,
// `UnionFields::try_from_fields` and `UnionFields::find_by_type_id` of fields.rs. "A union child's type id and its position are two
// counters, never used for each other": each has a type of its own. "`u128` of seen ids: an array of flags."
// The look-up of an equal field compares fields: datatype has it.
#![tactic(auto)]

ghost use Rattle.std.specs.Prelude.{◌≡◌, [], suc, ◌+◌, ◌≤◌, eqb, get_or, set};
ghost use Rattle.model.specs.Numbers.{max_type_id};
ghost use Rattle.model.specs.Bytes.{position};
ghost use Rattle.model.specs.Read.{judged};
ghost use Rattle.model.specs.Unions.{try_new, ids_from};
ghost use Rattle.model.specs.Call.{try_new_call, try_from_fields_call};
ghost use Rattle.buffer.specs.Refusals.{numbered};
ghost use Rattle.buffer.specs.Leaves.{leaves};
ghost use Rattle.unions.specs.Answers.{checked_of, found_of};
ghost use Rattle.unions.specs.Seen.{id_fits_by, marked};

use buffer::{Number, Refusal};

// A union child's type id, 0 to 127.
#[derive(Clone, Copy)]
pub struct TypeId(pub u8);

// A union child's position among the children, from 0, which is its id's position in the list of ids.
#[derive(Clone, Copy)]
pub struct Position(pub usize);

impl TypeId {
    // The largest i8, which is what the Rust holds an id in. A byte above it is a negative one.
    pub const LAST: u8 = 127;

    // How many ids there are.
    pub const COUNT: usize = 128;

    // Whether the flag of this id is set.
    pub fn is_seen(self, seen: &[u8; TypeId::COUNT]) -> bool
        requires { self.0 ≤ max_type_id }
        ensures { result ≡ eqb (get_or seen.now self.0 0) 1 }
    {
        seen[usize::from(self.0)] == 1
    }

    // Sets the flag of this id.
    pub fn mark(self, seen: &mut [u8; TypeId::COUNT])
        requires { self.0 ≤ max_type_id }
        ensures { seen.new ≡ set seen.old self.0 1 }
    {
        seen[usize::from(self.0)] = 1;
    }
}

// One id of the list, after those whose flag is set: 6, then 7, or its own flag is set.
fn check_id(seen: &mut [u8; TypeId::COUNT], id: u8, at: Position) -> Result<(), Refusal>
    ensures { (numbered result ≡ checked_of (judged (id_fits_by seen.old id) at.0 id (at.0 + 1))) × (seen.new ≡ marked result seen.old id) }
{
    if TypeId::LAST < id {
        return Err(Refusal(Number::IdTooLarge, at.0));
    }
    let id = TypeId(id);
    if id.is_seen(seen) {
        return Err(Refusal(Number::IdRepeated, at.0));
    }
    id.mark(seen);
    Ok(())
}

// The ids and so many fields, side by side: an id refusal or a length refusal, "whichever is met first".
fn check_ids(ids: &[u8], fields: usize) -> Result<(), Refusal>
    ensures { numbered result ≡ checked_of (try_new ids.now fields [] 0) }
{
    let mut seen = [0u8; TypeId::COUNT];
    for (i, id) in ids.iter().enumerate() {
        if fields <= i {
            return Err(Refusal::from(Number::MoreIdsThanFields));
        }
        let checked = check_id(&mut seen, *id, Position(i));
        let Ok(()) = checked else {
            return checked;
        };
    }
    if ids.len() < fields {
        return Err(Refusal::from(Number::MoreFieldsThanIds));
    }
    Ok(())
}

// `UnionFields::try_new`: "one takes id bytes and a u16 number of fields", and writes the ids, which are those given.
pub fn try_new(ids: &[u8], count: u16, answer: &mut [u8]) -> Result<usize, Refusal>
    ensures { leaves result answer.new [] ≡ try_new_call ids.now count answer.old }
{
    check_ids(ids, usize::from(count))?;
    buffer::write_answer(answer, ids)
}

// All type ids in order. The id and its position are counted each by itself.
fn all_ids() -> [u8; TypeId::COUNT]
    ensures { result ≡ ids_from 0 (suc max_type_id) }
{
    let mut ids = [0u8; TypeId::COUNT];
    let mut next: u8 = 0;
    for id in ids.iter_mut() {
        *id = next;
        next += 1;
    }
    ids
}

// `UnionFields::try_from_fields`: "the other that number alone", and writes the ids, from 0 on.
pub fn try_from_fields(count: u16, answer: &mut [u8]) -> Result<usize, Refusal>
    ensures { leaves result answer.new [] ≡ try_from_fields_call count answer.old }
{
    let fields = usize::from(count);
    if TypeId::COUNT < fields {
        return Err(Refusal::from(Number::TooManyFields));
    }
    let ids = all_ids();
    buffer::write_answer(answer, &ids[..fields])
}

// `UnionFields::find_by_type_id`, over the ids of a union's children: the position of the first that is equal. "Lookup by id and by
// equal field stay inside", so no call has it.
fn find_type_id(ids: &[u8], id: TypeId) -> Option<Position>
    ensures { result ≡ found_of (position (λ i. eqb i id.0) ids.now) }
{
    ids.iter().position(|i| *i == id.0).map(Position)
}
