// Writes what is left of a damaged table as a new one. The first argument names the file. The new table alone goes to standard output;
// standard error has what was kept and what was skipped, a line for each in the order of the bytes, or why nothing is left.
#![tactic(auto)]

ghost use Rattle.std.specs.Prelude.{◌+◌, ◌<◌};
ghost use Rattle.table.specs.Code.Taken.{Taken};

use input::take_file;
use salvaging::salvage;
use table::{Table, count, id_at, place, record_length, u32_at};
use verdict_text::{put, put_counted, put_number, put_words};

// Bytes for the list of 16 stretches, which every salvage's fits into.
const LIST: usize = 128;

// ---- What was kept and skipped: each function says whether it was written ----

// Where a piece of the input stands, and how long it is.
fn put_piece(err: &impl Print, at: usize, length: usize) -> bool {
    let place = put(err, b" at byte ") && put_number(err, at);
    let size = place && put(err, b" (") && put_counted(err, length, b" byte");
    size && put(err, b")\n")
}

fn put_kept(err: &impl Print, id: u16, at: usize, length: usize) -> bool {
    let chain = put(err, b"kept chain ") && put_number(err, usize::from(id));
    chain && put_piece(err, at, length)
}

// A stretch between two places that is in no record. Of no byte nothing is said.
fn put_between(err: &impl Print, what: &[u8], at: usize, to: usize) -> bool {
    if to <= at {
        return true;
    }
    put(err, what) && put_piece(err, at, to - at)
}

// Where the stretch ends that the list has from `at` on; `at` itself where it has none.
fn skipped_to(list: &[u8], at: usize) -> usize
    ensures { result < at + 4294967296 }
{
    for n in 0..list.len() / 8 {
        let stretch = 8 * n;
        if u32_at(list, stretch) as usize == at {
            return at + u32_at(list, stretch + 4) as usize;
        }
    }
    at
}

// A record that starts at `start`, and what was skipped before it.
fn put_next(err: &impl Print, id: u16, at: usize, start: usize, length: usize) -> bool {
    put_between(err, b"skipped", at, start) && put_kept(err, id, start, length)
}

// What follows the last record up to the input's end.
fn put_last(err: &impl Print, list: &[u8], at: usize, end: usize) -> bool {
    let rest = skipped_to(list, at);
    let skipped = put_between(err, b"skipped", at, rest);
    skipped && put_between(err, b"left unread after the 16th chain", rest, end)
}

// The records of the new table and the stretches of the list, as they follow each other in the input.
fn put_pieces(err: &impl Print, table: &[u8], list: &[u8], end: usize) -> bool
    requires { Taken table.now }
{
    let chains = count(table);
    let mut at: usize = 0;
    for chain in 0..chains {
        let record = place(table, chain);
        let length = record_length(table, record);
        let start = skipped_to(list, at);
        if !put_next(err, id_at(table, record), at, start, length) {
            return false;
        }
        at = start + length;
    }
    put_last(err, list, at, end)
}

// ---- The answer ----

fn put_result(out: &impl Print, err: &impl Print, res: &[u8]) -> bool {
    let is_written = put(out, res);
    if !is_written {
        put(err, b"salvage: standard output could not be written\n");
    }
    is_written
}

// The table is written only where all that was skipped has been told.
fn put_used(out: &impl Print, err: &impl Print, table: &[u8], list: &[u8], end: usize) -> bool
    requires { Taken table.now }
{
    put_pieces(err, table, list, end) && put_result(out, err, table)
}

// Every result has room.
fn put_salvaged(out: &impl Print, err: &impl Print, s: &[u8]) -> bool {
    let mut table = [0u8; Table::BYTES];
    let mut list = [0u8; LIST];
    match salvage(s, &mut table, &mut list) {
        Ok(used) => {
            let kept = &table[..used.table as usize];
            let skipped = &list[..used.list as usize];
            put_used(out, err, kept, skipped, s.len())
        }
        Err(refusal) => put_words(err, refusal) && put(err, b"\n"),
    }
}

// One byte more than an input may have, so that a longer one is seen to be too long.
fn main(rt: HostRuntime) {
    let err = &rt.stderr();
    let mut buffer = [0u8; Table::INPUT + 1];
    if let Some(n) = take_file(&rt, err, 1, b"table", &mut buffer) {
        put_salvaged(&rt.stdout(), err, &buffer[..n]);
    }
}
