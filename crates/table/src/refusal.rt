// Why something is refused, and where a table broke.
ghost use Rattle.std.specs.Prelude.{◌≡◌};
ghost use Rattle.table.specs.Refusal.{numbered};

// Why a table, a query, a change or an entry is refused. Documents 01 and 02 know each by a number, which C editors are given.
#[derive(Clone, Copy, Debug, PartialEq, Eq)]
pub enum Refusal {
    BadLength,
    BytesMissing,
    BadMark,
    BadId,
    BadKind,
    BadDeadline,
    BadGap,
    BadTaskCount,
    BadTask,
    BadChainCount,
    NoChain,
    BadRun,
    OverloadAsked,
    GapUnknown,
    PastHorizon,
    StillOpen,
    TooManySegments,
    StartsAgain,
    CapacityAbove,
    StaleRecord,
    BadRecord,
    BufferShort,
    SameChain,
    NoSuchSegment,
    AnswerShort,
    BadListLength,
    BadDistance,
    LastIsZero,
    GapTooSmall,
    Conflicting,
    BadLargest,
    NoSuchForm,
    InputTooLong,
    NothingKept,
}

impl Refusal {
    // Its number in the documents.
    pub fn number(self) -> u32
        ensures { result ≡ numbered self }
    {
        match self {
            Refusal::BadLength => 1,
            Refusal::BytesMissing => 2,
            Refusal::BadMark => 3,
            Refusal::BadId => 4,
            Refusal::BadKind => 5,
            Refusal::BadDeadline => 6,
            Refusal::BadGap => 7,
            Refusal::BadTaskCount => 9,
            Refusal::BadTask => 10,
            Refusal::BadChainCount => 11,
            Refusal::NoChain => 12,
            Refusal::BadRun => 13,
            Refusal::OverloadAsked => 14,
            Refusal::GapUnknown => 15,
            Refusal::PastHorizon => 16,
            Refusal::StillOpen => 17,
            Refusal::TooManySegments => 18,
            Refusal::StartsAgain => 19,
            Refusal::CapacityAbove => 21,
            Refusal::StaleRecord => 22,
            Refusal::BadRecord => 23,
            Refusal::BufferShort => 24,
            Refusal::SameChain => 25,
            Refusal::NoSuchSegment => 26,
            Refusal::AnswerShort => 27,
            Refusal::BadListLength => 28,
            Refusal::BadDistance => 29,
            Refusal::LastIsZero => 30,
            Refusal::GapTooSmall => 31,
            Refusal::Conflicting => 32,
            Refusal::BadLargest => 33,
            Refusal::NoSuchForm => 34,
            Refusal::InputTooLong => 35,
            Refusal::NothingKept => 36,
        }
    }
}

// The first fault of a table: why it is refused, and the offset of the first byte of the field at fault.
#[derive(Clone, Copy, Debug, PartialEq, Eq)]
pub struct Fault(pub Refusal, pub usize);

// A query on a refused table is refused for the same reason.
impl From<Fault> for Refusal {
    ghost from_gives = { λ f r. r ≡ f.0 };

    fn from(fault: Fault) -> Refusal {
        fault.0
    }
}

// Accepted, or the first fault.
pub type Verdict = Result<(), Fault>;
