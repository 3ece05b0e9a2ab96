// The C editor's entries (document 01, 'The C editor and the report'; document 02, requests 1, 2, 4 and 6 to 8): numbers, bytes and rows only.
// Each but the version returns 0 or the refusal's number; refused, every byte lent stays.
#![tactic(auto)]

ghost use Rattle.std.specs.Prelude.{◌≡◌, ◌*◌, ◌≤◌, length};
ghost use Rattle.table.specs.Refusal.{number_of, one_value, part_values};
ghost use Rattle.merging.specs.Merge.{versions, as_refused};
ghost use Rattle.editor.specs.Entry.{figure_bytes, starting_with, Answered, LatencyEntry, MissesEntry, PlainEntry, AtMostEntry, SegmentEntry, SaveEntry, CheckEntry, MergeEntry, ConflictEntry, ReadEntry, WriteEntry, RecordEntry, ConvertEntry, SalvageEntry, ReportEntry, version};
ghost use Rattle.converting.specs.declared.To.TheVariants.{Largest, Gap};

use merging::Unmerged;
use report_text::LONGEST;
use table::{Part, Refusal, Row, put_u32};

// What an entry returns where it has answered.
const ANSWERED: u32 = 0;

// Raised by each change that a caller can see, in the header and in specs/ too.
const VERSION: u32 = 9;

// The figures, four bytes each, at the start of an answer buffer.
fn put_figures(answer: &mut [u8], figures: &[u32])
    requires { 4 * length figures.now ≤ length answer.old }
    ensures { answer.new ≡ starting_with (figure_bytes figures.now) answer.old }
{
    for (i, figure) in figures.iter().enumerate() {
        put_u32(answer, 4 * i, *figure);
    }
}

// What a call answers in one figure, put into an answer buffer; where it is refused, the number of the refusal.
fn put_figure(answered: Result<u32, Refusal>, answer: &mut [u8]) -> u32
    requires { 4 ≤ length answer.old }
    ensures { Answered 1 (number_of answered) (one_value answered) answer.old answer.new result }
{
    match answered {
        Ok(n) => {
            let figures = [n];
            put_figures(answer, &figures);
            ANSWERED
        }
        Err(refusal) => refusal.number(),
    }
}

// The same of a part of a table: offset and length.
fn put_part(answered: Result<Part, Refusal>, answer: &mut [u8]) -> u32
    requires { 8 ≤ length answer.old }
    ensures { Answered 2 (number_of answered) (part_values answered) answer.old answer.new result }
{
    match answered {
        Ok(part) => {
            let figures = [part.offset, part.length];
            put_figures(answer, &figures);
            ANSWERED
        }
        Err(refusal) => refusal.number(),
    }
}

// A chain's K, latency, late and margin.
pub fn mishtodran_latency(table: &[u8], id: u32, answer: &mut [u8]) -> u32
    ensures { LatencyEntry table.now id answer.old answer.new result }
{
    if answer.len() < 16 {
        return Refusal::AnswerShort.number();
    }
    match windows::latency(table, id) {
        Ok(f) => {
            let figures = [f.close, f.latency, f.late, f.margin.cast_unsigned()];
            put_figures(answer, &figures);
            ANSWERED
        }
        Err(refusal) => refusal.number(),
    }
}

// How many deadlines a chain misses in a run of k activations.
pub fn mishtodran_misses(table: &[u8], id: u32, k: u32, answer: &mut [u8]) -> u32
    ensures { MissesEntry table.now id k answer.old answer.new result }
{
    if answer.len() < 4 {
        return Refusal::AnswerShort.number();
    }
    put_figure(misses::misses(table, id, k), answer)
}

// The same by the plain engine, which goes through every packing and may take very long.
pub fn mishtodran_misses_plain(table: &[u8], id: u32, k: u32, answer: &mut [u8]) -> u32
    ensures { PlainEntry table.now id k answer.old answer.new result }
{
    if answer.len() < 4 {
        return Refusal::AnswerShort.number();
    }
    put_figure(misses::misses_plain(table, id, k), answer)
}

// A number that the misses do not exceed, by the sieve.
pub fn mishtodran_misses_at_most(table: &[u8], id: u32, k: u32, answer: &mut [u8]) -> u32
    ensures { AtMostEntry table.now id k answer.old answer.new result }
{
    if answer.len() < 4 {
        return Refusal::AnswerShort.number();
    }
    match misses::at_most(table, id, k) {
        Ok(at_most) => {
            let figures = [at_most.most];
            put_figures(answer, &figures);
            ANSWERED
        }
        Err(refusal) => refusal.number(),
    }
}

// Where the active segment of that number stands, of a chain against another: offset and length.
pub fn mishtodran_segment(
    table: &[u8],
    id: u32,
    against: u32,
    number: u32,
    answer: &mut [u8],
) -> u32
    ensures { SegmentEntry table.now id against number answer.old answer.new result }
{
    if answer.len() < 8 {
        return Refusal::AnswerShort.number();
    }
    put_part(segments::segment(table, id, against, number), answer)
}

// Replaces one record in the table that is the first `used` bytes of the buffer: the new used length.
pub fn mishtodran_save(
    buffer: &mut [u8],
    used: u64,
    old_record: &[u8],
    new_record: &[u8],
    answer: &mut [u8],
) -> u32
    ensures { SaveEntry buffer.old used old_record.now new_record.now answer.old buffer.new answer.new result }
{
    if answer.len() < 4 {
        return Refusal::AnswerShort.number();
    }
    put_figure(saving::save(buffer, used, old_record, new_record), answer)
}

// What the reader says of a table: the number and the place of its first fault, 0 and 0 where it is accepted. That is an answer,
// so a refused table does not refuse the call.
pub fn mishtodran_check(table: &[u8], answer: &mut [u8]) -> u32
    ensures { CheckEntry table.now answer.old answer.new result }
{
    if answer.len() < 8 {
        return Refusal::AnswerShort.number();
    }
    match table::judge(table) {
        Ok(()) => {
            let figures = [0, 0];
            put_figures(answer, &figures);
            ANSWERED
        }
        Err(fault) => {
            let figures = [fault.0.number(), fault.1 as u32];
            put_figures(answer, &figures);
            ANSWERED
        }
    }
}

// A merge's answer, its refusal as the one that it is in the documents.
fn as_refused(merged: Result<u32, Unmerged>) -> Result<u32, Refusal>
    ensures { result ≡ as_refused merged }
{
    match merged {
        Ok(used) => Ok(used),
        Err(why) => Err(Refusal::from(why)),
    }
}

// Merges two edited copies of a table, given their common ancestor, into a buffer: the length of the result.
pub fn mishtodran_merge<'a>(
    ancestor: &[u8],
    first: &'a [u8],
    second: &'a [u8],
    buffer: &mut [u8],
    answer: &mut [u8],
) -> u32
    ensures { MergeEntry (versions ancestor.entry first.entry second.entry) buffer.old answer.old buffer.new answer.new result }
{
    if answer.len() < 4 {
        return Refusal::AnswerShort.number();
    }
    let merged = merging::merge(ancestor, first, second, buffer);
    put_figure(as_refused(merged), answer)
}

// The smallest id greater than `above` that is in conflict there, 0 if there is none.
pub fn mishtodran_conflict(
    ancestor: &[u8],
    first: &[u8],
    second: &[u8],
    above: u32,
    answer: &mut [u8],
) -> u32
    ensures { ConflictEntry (versions ancestor.entry first.entry second.entry) above answer.old answer.new result }
{
    if answer.len() < 4 {
        return Refusal::AnswerShort.number();
    }
    put_figure(merging::conflict(ancestor, first, second, above), answer)
}

// Reads a table into rows: how many chains there are.
pub fn mishtodran_read(table: &[u8], rows: &mut [Row], answer: &mut [u8]) -> u32
    ensures { ReadEntry table.now rows.old answer.old rows.new answer.new result }
{
    if answer.len() < 4 {
        return Refusal::AnswerShort.number();
    }
    put_figure(writing::read(table, rows), answer)
}

// Writes the table of the rows into a buffer: its length.
pub fn mishtodran_write(rows: &[Row], buffer: &mut [u8], answer: &mut [u8]) -> u32
    ensures { WriteEntry rows.now buffer.old answer.old buffer.new answer.new result }
{
    if answer.len() < 4 {
        return Refusal::AnswerShort.number();
    }
    put_figure(writing::write(rows, buffer), answer)
}

// Where the record of a chain stands: offset and length.
pub fn mishtodran_record(table: &[u8], id: u32, answer: &mut [u8]) -> u32
    ensures { RecordEntry table.now id answer.old answer.new result }
{
    if answer.len() < 8 {
        return Refusal::AnswerShort.number();
    }
    put_part(slices::record(table, id), answer)
}

// Writes the table with largest distances in the place of gaps into a buffer: its length.
pub fn mishtodran_to_largest(table: &[u8], buffer: &mut [u8], answer: &mut [u8]) -> u32
    ensures { ConvertEntry Largest table.now buffer.old answer.old buffer.new answer.new result }
{
    if answer.len() < 4 {
        return Refusal::AnswerShort.number();
    }
    put_figure(converting::to_largest(table, buffer), answer)
}

// Writes the table with gaps in the place of largest distances into a buffer: its length.
pub fn mishtodran_to_gap(table: &[u8], buffer: &mut [u8], answer: &mut [u8]) -> u32
    ensures { ConvertEntry Gap table.now buffer.old answer.old buffer.new answer.new result }
{
    if answer.len() < 4 {
        return Refusal::AnswerShort.number();
    }
    put_figure(converting::to_gap(table, buffer), answer)
}

// Salvages what is left of a damaged table: the new table and the list of what was skipped, each into a buffer, and their lengths.
pub fn mishtodran_salvage(input: &[u8], table: &mut [u8], list: &mut [u8], answer: &mut [u8]) -> u32
    ensures { SalvageEntry input.now table.old list.old answer.old table.new list.new answer.new result }
{
    if answer.len() < 8 {
        return Refusal::AnswerShort.number();
    }
    match salvaging::salvage(input, table, list) {
        Ok(used) => {
            let figures = [used.table, used.list];
            put_figures(answer, &figures);
            ANSWERED
        }
        Err(refusal) => refusal.number(),
    }
}

// The report's text at the start of a text buffer, and its length. It is made in a place of its own first, so that a text that does
// not fit leaves the buffer as it was.
pub fn mishtodran_report(table: &[u8], text: &mut [u8], answer: &mut [u8]) -> u32
    ensures { ReportEntry table.now text.old answer.old text.new answer.new result }
{
    if answer.len() < 4 {
        return Refusal::AnswerShort.number();
    }
    let mut made = [0u8; LONGEST];
    let n = report_text::report(table, &mut made);
    if text.len() < n {
        return Refusal::BufferShort.number();
    }
    text[..n].copy_from_slice(&made[..n]);
    let figures = [n as u32];
    put_figures(answer, &figures);
    ANSWERED
}

// The version of the entries, which an editor holds against its header's.
pub fn mishtodran_version() -> u32
    ensures { result ≡ version }
{
    VERSION
}
