// What is wrong, for each refusal of a table, a merge, a conversion or a salvage: the sentences of include/mishtodran.h.
use table::Refusal;

// What is wrong with a result. Any other refusal has no sentence.
fn of_a_result(refusal: Refusal) -> &'static str {
    match refusal {
        Refusal::BufferShort => "the result, or the report's text, is longer than its buffer",
        Refusal::Conflicting => "some id is changed differently on both sides",
        Refusal::NoSuchForm => "some chain has no such form, or the table already has it",
        Refusal::InputTooLong => "the input is longer than 4,096 bytes",
        Refusal::NothingKept => "there is no chain record in the input that could be kept",
        _ => "",
    }
}

// What is wrong with a table, or with a result.
pub(crate) fn sentence(refusal: Refusal) -> &'static str {
    match refusal {
        Refusal::BadLength =>
            "the table's length is 0, above 1,284 (1,748 for CG) or above its buffer",
        Refusal::BytesMissing => "bytes run out inside a record or before the end record",
        Refusal::BadMark => "a mark is not one allowed there, or is of another form than the first",
        Refusal::BadId => "an id is 0 or used earlier",
        Refusal::BadKind => "a kind or overload byte is above 1",
        Refusal::BadDeadline => "a deadline is not 1 to 10,000,000",
        Refusal::BadGap => "a gap is above 10,000,000",
        Refusal::BadTaskCount => "a task count is not 1 to 16, or there are over 64 tasks so far",
        Refusal::BadTask => "a priority is 0, or a cost is not 1 to 1,000,000",
        Refusal::BadChainCount =>
            "a 17th chain, no chain, a wrong end count, or bytes after the end",
        Refusal::BadListLength => "a list length is not 1 to 8",
        Refusal::BadDistance => "a distance falls or exceeds 10,000,000",
        Refusal::LastIsZero => "the last distance is 0",
        Refusal::GapTooSmall => "a gap other than 0 is too small for the distances",
        Refusal::BadLargest =>
            "a flag is above 1, or a largest distance falls, is too large or too small",
        _ => of_a_result(refusal),
    }
}
