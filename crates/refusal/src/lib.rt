// The refusals: every way in which a call of the kit says no.
#![tactic(auto)]

ghost use Rattle.std.specs.Prelude.{◌≡◌};
ghost use Rattle.refusal.specs.Refusals.{refusal_number};

// In the order of document 01's table "Refusal numbers", which document 02 goes on with.
#[derive(Clone, Copy, PartialEq, Eq)]
pub enum Refusal {
    MemoryTooLong = 1,
    Halted = 2,
    Unspecified = 3,
    BudgetTooHigh = 4,
    TextRoomTooSmall = 5,
    NotAListingLine = 6,
    FirstAboveLast = 7,
    LimitTooHigh = 8,
    MalformedImage = 9,
    WrongBoard = 10,
    PastMemory = 11,
    SumDiffers = 12,
    RoomTooSmall = 13,
    BadMap = 14,
    MalformedMapping = 15,
    MissingFileWords = 16,
    TooManyEntries = 17,
    WrongSetLength = 18,
}

// Document 01's number of a refusal, its discriminant. By a function and not `From`: its contract is what ties the discriminants to the table.
pub fn number(refusal: Refusal) -> u16
    ensures { result ≡ refusal_number refusal }
{
    refusal as u16
}
