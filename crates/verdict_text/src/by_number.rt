// The same for who has a refusal's number alone, as a C caller is given it. A number that no refusal has is told without a sentence, and as
// the field that stands at the byte.
ghost use Rattle.std.specs.Prelude.{◌≡◌, ◌↔◌, Some};
ghost use Rattle.table.specs.Refusal.{numbered};

use crate::place::print_field_at;
use crate::sentence::sentence;
use crate::{put_fault, put_fault_in};
use std::io;
use table::{Fault, Refusal};

// The refusal that has the number.
fn refusal_with(number: u32) -> Option<Refusal>
    ensures { (r : Refusal) → (result ≡ Some r) ↔ (numbered r ≡ number) }
{
    let refusal = match number {
        1 => Refusal::BadLength,
        2 => Refusal::BytesMissing,
        3 => Refusal::BadMark,
        4 => Refusal::BadId,
        5 => Refusal::BadKind,
        6 => Refusal::BadDeadline,
        7 => Refusal::BadGap,
        9 => Refusal::BadTaskCount,
        10 => Refusal::BadTask,
        11 => Refusal::BadChainCount,
        12 => Refusal::NoChain,
        13 => Refusal::BadRun,
        14 => Refusal::OverloadAsked,
        15 => Refusal::GapUnknown,
        16 => Refusal::PastHorizon,
        17 => Refusal::StillOpen,
        18 => Refusal::TooManySegments,
        19 => Refusal::StartsAgain,
        21 => Refusal::CapacityAbove,
        22 => Refusal::StaleRecord,
        23 => Refusal::BadRecord,
        24 => Refusal::BufferShort,
        25 => Refusal::SameChain,
        26 => Refusal::NoSuchSegment,
        27 => Refusal::AnswerShort,
        28 => Refusal::BadListLength,
        29 => Refusal::BadDistance,
        30 => Refusal::LastIsZero,
        31 => Refusal::GapTooSmall,
        32 => Refusal::Conflicting,
        33 => Refusal::BadLargest,
        34 => Refusal::NoSuchForm,
        35 => Refusal::InputTooLong,
        36 => Refusal::NothingKept,
        _ => return None,
    };
    Some(refusal)
}

// The header's sentence for the number; one that has none is told by nothing.
pub fn put_sentence(to: &impl Print, number: u32) -> bool {
    match refusal_with(number) {
        Some(refusal) => to.print(sentence(refusal)).is_ok(),
        None => true,
    }
}

// The number, the byte, and the header's sentence for the number.
pub fn put_refusal(to: &impl Print, number: u32, at: usize) -> bool {
    match refusal_with(number) {
        Some(refusal) => put_fault(to, Fault(refusal, at)),
        None => print!(to; "refused {number} at byte {at}: ").is_ok(),
    }
}

// The two spaces stand about a sentence that there is not.
fn print_unknown(to: &impl Print, s: &[u8], number: u32, at: usize) -> io::Result<()> {
    print!(to; "refused {number} at byte {at}:  (")?;
    print_field_at(to, s, at)?;
    print!(to; ")")
}

// The same of a table that is there: after it, in brackets, the record and the field.
pub fn put_refused(to: &impl Print, s: &[u8], number: u32, at: usize) -> bool {
    match refusal_with(number) {
        Some(refusal) => put_fault_in(to, s, Fault(refusal, at)),
        None => print_unknown(to, s, number, at).is_ok(),
    }
}
