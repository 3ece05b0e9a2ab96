// The entries of the C library: each is the editor's, with the editor's contract, under a name that C finds. A slice comes from C as a
// pointer, and how many items stand there.
#![tactic(auto)]

ghost use Rattle.std.specs.Prelude.{◌≡◌};
ghost use Rattle.merging.specs.Merge.{versions};
ghost use Rattle.editor.specs.Entry.{LatencyEntry, MissesEntry, PlainEntry, AtMostEntry, SegmentEntry, SaveEntry, CheckEntry, MergeEntry, ConflictEntry, ReadEntry, WriteEntry, RecordEntry, ConvertEntry, SalvageEntry, ReportEntry, version};
ghost use Rattle.converting.specs.declared.To.TheVariants.{Largest, Gap};

use table::Row;

// A chain's K, latency, late and margin.
#[unsafe(no_mangle)]
pub extern "C" fn mishtodran_latency(table: &[u8], id: u32, answer: &mut [u8]) -> u32
    ensures { LatencyEntry table.now id answer.old answer.new result }
{
    editor::mishtodran_latency(table, id, answer)
}

// How many deadlines a chain misses in a run of k activations.
#[unsafe(no_mangle)]
pub extern "C" fn mishtodran_misses(table: &[u8], id: u32, k: u32, answer: &mut [u8]) -> u32
    ensures { MissesEntry table.now id k answer.old answer.new result }
{
    editor::mishtodran_misses(table, id, k, answer)
}

// The same by the plain engine, which goes through every packing and may take very long.
#[unsafe(no_mangle)]
pub extern "C" fn mishtodran_misses_plain(table: &[u8], id: u32, k: u32, answer: &mut [u8]) -> u32
    ensures { PlainEntry table.now id k answer.old answer.new result }
{
    editor::mishtodran_misses_plain(table, id, k, answer)
}

// A number that the misses do not exceed, by the sieve.
#[unsafe(no_mangle)]
pub extern "C" fn mishtodran_misses_at_most(table: &[u8], id: u32, k: u32, answer: &mut [u8]) -> u32
    ensures { AtMostEntry table.now id k answer.old answer.new result }
{
    editor::mishtodran_misses_at_most(table, id, k, answer)
}

// Where the active segment of that number stands, of a chain against another: offset and length.
#[unsafe(no_mangle)]
pub extern "C" fn mishtodran_segment(
    table: &[u8],
    id: u32,
    against: u32,
    number: u32,
    answer: &mut [u8],
) -> u32
    ensures { SegmentEntry table.now id against number answer.old answer.new result }
{
    editor::mishtodran_segment(table, id, against, number, answer)
}

// Replaces one record in the table that is the first `used` bytes of the buffer: the new used length.
#[unsafe(no_mangle)]
pub extern "C" fn mishtodran_save(
    buffer: &mut [u8],
    used: u64,
    old_record: &[u8],
    new_record: &[u8],
    answer: &mut [u8],
) -> u32
    ensures { SaveEntry buffer.old used old_record.now new_record.now answer.old buffer.new answer.new result }
{
    editor::mishtodran_save(buffer, used, old_record, new_record, answer)
}

// What the reader says of a table: the number and the place of its first fault, 0 and 0 where it is accepted. That is an answer,
// so a refused table does not refuse the call.
#[unsafe(no_mangle)]
pub extern "C" fn mishtodran_check(table: &[u8], answer: &mut [u8]) -> u32
    ensures { CheckEntry table.now answer.old answer.new result }
{
    editor::mishtodran_check(table, answer)
}

// Merges two edited copies of a table, given their common ancestor, into a buffer: the length of the result.
#[unsafe(no_mangle)]
pub extern "C" fn mishtodran_merge<'a>(
    ancestor: &[u8],
    first: &'a [u8],
    second: &'a [u8],
    buffer: &mut [u8],
    answer: &mut [u8],
) -> u32
    ensures { MergeEntry (versions ancestor.entry first.entry second.entry) buffer.old answer.old buffer.new answer.new result }
{
    editor::mishtodran_merge(ancestor, first, second, buffer, answer)
}

// The smallest id greater than `above` that is in conflict there, 0 if there is none.
#[unsafe(no_mangle)]
pub extern "C" fn mishtodran_conflict(
    ancestor: &[u8],
    first: &[u8],
    second: &[u8],
    above: u32,
    answer: &mut [u8],
) -> u32
    ensures { ConflictEntry (versions ancestor.entry first.entry second.entry) above answer.old answer.new result }
{
    editor::mishtodran_conflict(ancestor, first, second, above, answer)
}

// Reads a table into rows: how many chains there are.
#[unsafe(no_mangle)]
pub extern "C" fn mishtodran_read(table: &[u8], rows: &mut [Row], answer: &mut [u8]) -> u32
    ensures { ReadEntry table.now rows.old answer.old rows.new answer.new result }
{
    editor::mishtodran_read(table, rows, answer)
}

// Writes the table of the rows into a buffer: its length.
#[unsafe(no_mangle)]
pub extern "C" fn mishtodran_write(rows: &[Row], buffer: &mut [u8], answer: &mut [u8]) -> u32
    ensures { WriteEntry rows.now buffer.old answer.old buffer.new answer.new result }
{
    editor::mishtodran_write(rows, buffer, answer)
}

// Where the record of a chain stands: offset and length.
#[unsafe(no_mangle)]
pub extern "C" fn mishtodran_record(table: &[u8], id: u32, answer: &mut [u8]) -> u32
    ensures { RecordEntry table.now id answer.old answer.new result }
{
    editor::mishtodran_record(table, id, answer)
}

// Writes the table with largest distances in the place of gaps into a buffer: its length.
#[unsafe(no_mangle)]
pub extern "C" fn mishtodran_to_largest(table: &[u8], buffer: &mut [u8], answer: &mut [u8]) -> u32
    ensures { ConvertEntry Largest table.now buffer.old answer.old buffer.new answer.new result }
{
    editor::mishtodran_to_largest(table, buffer, answer)
}

// Writes the table with gaps in the place of largest distances into a buffer: its length.
#[unsafe(no_mangle)]
pub extern "C" fn mishtodran_to_gap(table: &[u8], buffer: &mut [u8], answer: &mut [u8]) -> u32
    ensures { ConvertEntry Gap table.now buffer.old answer.old buffer.new answer.new result }
{
    editor::mishtodran_to_gap(table, buffer, answer)
}

// Salvages what is left of a damaged table: the new table and the list of what was skipped, each into a buffer, and their lengths.
#[unsafe(no_mangle)]
pub extern "C" fn mishtodran_salvage(
    input: &[u8],
    table: &mut [u8],
    list: &mut [u8],
    answer: &mut [u8],
) -> u32
    ensures { SalvageEntry input.now table.old list.old answer.old table.new list.new answer.new result }
{
    editor::mishtodran_salvage(input, table, list, answer)
}

// The report's text at the start of a text buffer, and its length. It is made in a place of its own first, so that a text that does
// not fit leaves the buffer as it was.
#[unsafe(no_mangle)]
pub extern "C" fn mishtodran_report(table: &[u8], text: &mut [u8], answer: &mut [u8]) -> u32
    ensures { ReportEntry table.now text.old answer.old text.new answer.new result }
{
    editor::mishtodran_report(table, text, answer)
}

// The version of the entries, which an editor holds against its header's.
#[unsafe(no_mangle)]
pub extern "C" fn mishtodran_version() -> u32
    ensures { result ≡ version }
{
    editor::mishtodran_version()
}
