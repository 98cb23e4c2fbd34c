// The operations of the list.
ghost use Rattle.std.specs.Prelude.{◌≡◌};
ghost use Rattle.buffer.specs.Leaves.{leaves};
ghost use Rattle.replay.specs.Calls.{call_of};

use buffer::Refusal;
use std::fmt;

// What a call is given: the sheet, the train or the ids; the other sheet, the name, list, mask or separator; a count of fields or a level.
#[derive(Clone, Copy)]
pub struct Request<'a> {
    pub first: &'a [u8],
    pub second: &'a [u8],
    pub number: u16,
}

// An operation, by its export's name without the prefix. A merge in each of its modes is an operation of its own.
#[derive(Clone, Copy)]
pub enum Operation {
    IsNested,
    IndexOf,
    FlattenedFields,
    Equal,
    EqualsDatatype,
    Contains,
    TryNew,
    TryFromFields,
    Merge,
    Project,
    ProjectStrict,
    Filter,
    Normalize,
    MergeParkedFirst,
}

impl Operation {
    // In the list's order.
    pub const ALL: [Operation; 14] = [
        Operation::IsNested,
        Operation::IndexOf,
        Operation::FlattenedFields,
        Operation::Equal,
        Operation::EqualsDatatype,
        Operation::Contains,
        Operation::TryNew,
        Operation::TryFromFields,
        Operation::Merge,
        Operation::Project,
        Operation::ProjectStrict,
        Operation::Filter,
        Operation::Normalize,
        Operation::MergeParkedFirst,
    ];

    // The call of that name.
    pub fn call(
        self,
        request: Request<'_>,
        work: &mut [u8],
        answer: &mut [u8],
    ) -> Result<usize, Refusal>
        ensures { leaves result answer.new work.new ≡ call_of self request.entry.first.now request.entry.second.now request.entry.number work.old answer.old }
    {
        let Request {
            first,
            second,
            number,
        } = request;
        match self {
            Operation::IsNested => datatype::is_nested(first, work, answer),
            Operation::IndexOf => schema::index_of(first, second, work, answer),
            Operation::FlattenedFields => schema::flattened_fields(first, work, answer),
            Operation::Equal => datatype::equal(first, second, work, answer),
            Operation::EqualsDatatype => datatype::equals_datatype(first, second, work, answer),
            Operation::Contains => datatype::contains(first, second, work, answer),
            Operation::TryNew => unions::try_new(first, number, answer),
            Operation::TryFromFields => unions::try_from_fields(number, answer),
            Operation::Merge => try_merge::merge(first, work, answer, false),
            Operation::Project => project::project(first, second, work, answer),
            Operation::ProjectStrict => project::project_strict(first, second, work, answer),
            Operation::Filter => filter::filter(first, second, work, answer),
            Operation::Normalize => normalize::normalize(first, second, number, work, answer),
            Operation::MergeParkedFirst => try_merge::merge(first, work, answer, true),
        }
    }
}

impl fmt::Display for Operation {
    fn fmt<W: fmt::Write>(&self, f: &mut fmt::Formatter<W>) -> fmt::Result {
        f.write_str(match self {
            Operation::IsNested => "is_nested",
            Operation::IndexOf => "index_of",
            Operation::FlattenedFields => "flattened_fields",
            Operation::Equal => "equal",
            Operation::EqualsDatatype => "equals_datatype",
            Operation::Contains => "contains",
            Operation::TryNew => "try_new",
            Operation::TryFromFields => "try_from_fields",
            Operation::Merge => "merge",
            Operation::Project => "project",
            Operation::ProjectStrict => "project_strict",
            Operation::Filter => "filter",
            Operation::Normalize => "normalize",
            Operation::MergeParkedFirst => "merge_parked_first",
        })
    }
}
