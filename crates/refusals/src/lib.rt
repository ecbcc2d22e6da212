// Why the library refuses, and the number, line and field that document 01 gives each reason.
#![tactic(auto)]

ghost use Rattle.std.specs.Prelude.{◌≡◌};
ghost use Rattle.refusals.specs.Refusals.{number_of, line_of, field_of};

// A reason that has a line holds it, from 1; BadNumber holds the field, from 1, besides.
#[derive(Clone, Copy)]
pub enum Refusal {
    NoText,
    LongText,
    NoLineFeed,
    ManyLines(usize),
    AfterWaiting(usize),
    FieldCount(usize),
    BadName(usize),
    BadNumber(usize, usize),
    LateDeadline(usize),
    LongTimes(usize),
    NameTaken(usize),
    BadTable,
    NoSuchRow,
    NoRoom,
    ManyTicks,
}

// Three tables written out: a case that carries its line has no number of its own in the language, and lines and fields go by document 01.
impl Refusal {
    pub fn number(self) -> u64
        ensures { result ≡ number_of self }
    {
        match self {
            Refusal::NoText => 1,
            Refusal::LongText => 2,
            Refusal::NoLineFeed => 3,
            Refusal::ManyLines(_) => 4,
            Refusal::AfterWaiting(_) => 5,
            Refusal::FieldCount(_) => 6,
            Refusal::BadName(_) => 7,
            Refusal::BadNumber(_, _) => 8,
            Refusal::LateDeadline(_) => 9,
            Refusal::LongTimes(_) => 10,
            Refusal::NameTaken(_) => 11,
            Refusal::BadTable => 20,
            Refusal::NoSuchRow => 21,
            Refusal::NoRoom => 22,
            Refusal::ManyTicks => 23,
        }
    }

    // The line, from 1; 0 where the reason has none, as document 01 and the C interface have it: no Option.
    pub fn line(self) -> usize
        ensures { result ≡ line_of self }
    {
        match self {
            Refusal::NoText => 0,
            Refusal::LongText => 0,
            Refusal::NoLineFeed => 0,
            Refusal::ManyLines(line) => line,
            Refusal::AfterWaiting(line) => line,
            Refusal::FieldCount(line) => line,
            Refusal::BadName(line) => line,
            Refusal::BadNumber(line, _) => line,
            Refusal::LateDeadline(line) => line,
            Refusal::LongTimes(line) => line,
            Refusal::NameTaken(line) => line,
            Refusal::BadTable => 0,
            Refusal::NoSuchRow => 0,
            Refusal::NoRoom => 0,
            Refusal::ManyTicks => 0,
        }
    }

    // The field, from 1; 0 where the reason has none, as above.
    pub fn field(self) -> usize
        ensures { result ≡ field_of self }
    {
        match self {
            Refusal::NoText => 0,
            Refusal::LongText => 0,
            Refusal::NoLineFeed => 0,
            Refusal::ManyLines(_) => 0,
            Refusal::AfterWaiting(_) => 0,
            Refusal::FieldCount(_) => 0,
            Refusal::BadName(_) => 1,
            Refusal::BadNumber(_, field) => field,
            Refusal::LateDeadline(_) => 3,
            Refusal::LongTimes(_) => 0,
            Refusal::NameTaken(_) => 1,
            Refusal::BadTable => 0,
            Refusal::NoSuchRow => 0,
            Refusal::NoRoom => 0,
            Refusal::ManyTicks => 0,
        }
    }
}
