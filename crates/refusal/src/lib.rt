// The refusals of the whole engine, by the numbers of documents 01 and 02, and the tests that end in one.

#![tactic(auto)]

ghost use Rattle.std.specs.Prelude.{◌≡◌};
ghost use Rattle.refusal.specs.Report.{report_of};
ghost use Rattle.refusal.specs.Judge.{checked_of, room_test, size_test};

#[derive(Clone, Copy, Debug, PartialEq, Eq)]
pub enum Refusal {
    // A context, set or builder number is outside its limit: the first such field's place, 0 for a set.
    OutsideLimits(usize),
    StateOutOfRange,
    // An action number above 30: the first place, 0 for a single one.
    UnknownAction(usize),
    IllegalAction,
    // The first unknown word's byte offset.
    UnknownWord(usize),
    // Lent room is too short, or the records are used up: the number needed.
    NoRoom(usize),
    UnsoundTree,
    UnknownNode,
    // The target is neither the start nor above it.
    NotAbove,
    BadScore,
    VisitsFull,
    MalformedLine,
    // A program's input, or a list to write as text or to time, is above `SIZE_MOST`.
    TooLong,
    // A draw is wanted, and none is left.
    NoDraw,
    // A draw is not below the size of the set that it is to name a member of.
    DrawTooHigh,
    // The options of a search, or its logarithms, are outside their limits.
    BadSearch,
}

// Its number, 0 for no refusal, and what also comes back.
#[derive(Clone, Copy, Debug, PartialEq, Eq)]
pub struct Report(pub u8, pub Option<usize>);

impl Refusal {
    pub fn reported(self) -> Report
        ensures { result ≡ report_of self }
    {
        match self {
            Refusal::OutsideLimits(place) => Report(1, Some(place)),
            Refusal::StateOutOfRange => Report(2, None),
            Refusal::UnknownAction(place) => Report(3, Some(place)),
            Refusal::IllegalAction => Report(4, None),
            Refusal::UnknownWord(offset) => Report(5, Some(offset)),
            Refusal::NoRoom(needed) => Report(6, Some(needed)),
            Refusal::UnsoundTree => Report(7, None),
            Refusal::UnknownNode => Report(8, None),
            Refusal::NotAbove => Report(9, None),
            Refusal::BadScore => Report(10, None),
            Refusal::VisitsFull => Report(11, None),
            Refusal::MalformedLine => Report(12, None),
            Refusal::TooLong => Report(13, None),
            Refusal::NoDraw => Report(19, None),
            Refusal::DrawTooHigh => Report(20, None),
            Refusal::BadSearch => Report(21, None),
        }
    }
}

// Refusal 6: lent room that is shorter than what is to be written.
pub fn check_room(room: usize, needed: usize) -> Result<(), Refusal>
    ensures { result ≡ checked_of (room_test room needed) }
{
    if needed <= room {
        return Ok(());
    }
    Err(Refusal::NoRoom(needed))
}

// In bytes, of a program's input and of a list to write as text or to time.
pub const SIZE_MOST: usize = 65536;

// Refusal 13: one of these is longer than it may be.
pub fn check_size(bytes: usize) -> Result<(), Refusal>
    ensures { result ≡ checked_of (size_test bytes) }
{
    if bytes <= SIZE_MOST {
        return Ok(());
    }
    Err(Refusal::TooLong)
}
