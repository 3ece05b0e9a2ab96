// Runs packed cases of a merge (tests/pack_merge.py says how they are packed) from standard input, and prints a line for each
// case that is not as expected and a last line with the counts. Every part of a case is read, whatever was found before, so that
// the next one is read from its start; where the input ends within a case, its last part is missing, and it is not as expected.
#![tactic(auto)]

ghost use Rattle.std.specs.Prelude.{◌≡◌, ◌≤◌, length, take};

use cases::{Outcome, filled, read_full, same, scribbled, went};
use merging::Unmerged;
use std::io::Read;
use table::Refusal;

// What a case expects: the refusal number, 0 for none, and its detail.
#[derive(Clone, Copy)]
struct Expected {
    number: u32,
    detail: u32,
}

// Reads a byte string, its length first, to the start of the buffer, and answers how many bytes it put there.
fn next_bytes(from: &mut impl Read, buffer: &mut [u8]) -> usize
    ensures bound { result ≤ length buffer.new }
    ensures whole { result ≡ length (take result buffer.new) }
{
    let mut length = [0u8; 2];
    read_full(from, &mut length);
    filled(from, buffer, table::u16_at(&length, 0) as usize)
}

// ---- The merge ----

// Whether the merge is refused at this place, or with this id, where the number is as expected.
fn is_detail(why: Unmerged, detail: usize) -> bool {
    match why {
        Unmerged::Ancestor(fault) => fault.1 == detail,
        Unmerged::First(fault) => fault.1 == detail,
        Unmerged::Second(fault) => fault.1 == detail,
        Unmerged::Conflict(id) => id as usize == detail,
        Unmerged::NoRoom => detail == 0,
        Unmerged::Merged(fault) => fault.1 == detail,
    }
}

// Whether the answer has the expected number, and the expected length, place or id.
fn answers(merged: Result<u32, Unmerged>, expected: Expected) -> bool {
    match merged {
        Ok(n) => expected.number == 0 && n == expected.detail,
        Err(why) => {
            Refusal::from(why).number() == expected.number
                && is_detail(why, expected.detail as usize)
        }
    }
}

// ---- The query for conflicts ----

// What the query is to answer after this merge: a table's refusal, or the smallest id in conflict, 0 where there is none.
fn in_conflict(merged: Result<u32, Unmerged>) -> Result<u32, Refusal> {
    match merged {
        Ok(_) => Ok(0),
        Err(Unmerged::Conflict(id)) => Ok(id),
        Err(Unmerged::NoRoom) => Ok(0),
        Err(Unmerged::Merged(_)) => Ok(0),
        Err(table) => Err(Refusal::from(table)),
    }
}

// ---- The records taken ----

// Whether the record is n bytes of the copy, from `at` on.
fn stands(record: &[u8], copy: &[u8], at: usize, n: usize) -> bool {
    if copy.len() < at {
        return false;
    }
    if copy.len() - at < n {
        return false;
    }
    let end = at + n;
    same(record, &copy[at..end])
}

// Reads the id of a record taken, and where it stands, and looks whether it is what the merge chooses.
fn record_as_expected<'a>(
    from: &mut impl Read,
    ancestor: &[u8],
    first: &'a [u8],
    second: &'a [u8],
) -> bool {
    let mut taken = [0u8; 7];
    if read_full(from, &mut taken) < 7 {
        return false;
    }
    let id = table::u16_at(&taken, 0) as u32;
    let at = table::u16_at(&taken, 3) as usize;
    let n = table::u16_at(&taken, 5) as usize;
    let record = merging::chosen(ancestor, first, second, id);
    match taken[2] {
        1 => stands(record, first, at, n),
        2 => stands(record, second, at, n),
        _ => false,
    }
}

// Reads how many records are taken, and looks whether each is as expected.
fn records_as_expected<'a>(
    from: &mut impl Read,
    ancestor: &[u8],
    first: &'a [u8],
    second: &'a [u8],
) -> bool {
    let mut count = [0u8; 1];
    let mut are_right = read_full(from, &mut count) == 1;
    for _ in 0..count[0] {
        are_right &= record_as_expected(from, ancestor, first, second);
    }
    are_right
}

// ---- A case ----

// Whether the merge answers as expected and leaves the expected bytes, and the query for conflicts agrees.
fn merge_as_expected<'a>(
    ancestor: &[u8],
    first: &'a [u8],
    second: &'a [u8],
    buffer: &mut [u8],
    expected: Expected,
    after: &[u8],
) -> bool {
    let merged = merging::merge(ancestor, first, second, buffer);
    let found = merging::conflict(ancestor, first, second, 0);
    answers(merged, expected) && same(buffer, after) && found == in_conflict(merged)
}

// Reads the result, which is to stand before the bytes that stay in a buffer with this much room, and merges.
fn result_as_expected<'a>(
    from: &mut impl Read,
    ancestor: &[u8],
    first: &'a [u8],
    second: &'a [u8],
    room: u16,
    expected: Expected,
) -> bool {
    let mut buffer = scribbled();
    let mut after = scribbled();
    next_bytes(from, &mut after);
    let n = room as usize;
    merge_as_expected(
        ancestor,
        first,
        second,
        &mut buffer[..n],
        expected,
        &after[..n],
    )
}

// Reads what is expected of the three tables, and looks whether it is so.
fn as_expected<'a>(
    from: &mut impl Read,
    ancestor: &[u8],
    first: &'a [u8],
    second: &'a [u8],
) -> bool {
    let mut head = [0u8; 10];
    read_full(from, &mut head);
    let room = table::u16_at(&head, 0);
    let number = table::u32_at(&head, 2);
    let detail = table::u32_at(&head, 6);
    let expected = Expected { number, detail };
    let is_merged = result_as_expected(from, ancestor, first, second, room, expected);
    records_as_expected(from, ancestor, first, second) && is_merged
}

// Reads the tables of a case, and then the rest of it. A length of two bytes has room in each buffer.
fn case(from: &mut impl Read) -> Outcome {
    let mut length = [0u8; 2];
    if read_full(from, &mut length) < 2 {
        return Outcome::End;
    }
    let mut ancestor = [0u8; 65536];
    let mut first = [0u8; 65536];
    let mut second = [0u8; 65536];
    let a = filled(from, &mut ancestor, table::u16_at(&length, 0) as usize);
    let f = next_bytes(from, &mut first);
    let s = next_bytes(from, &mut second);
    went(as_expected(from, &ancestor[..a], &first[..f], &second[..s]))
}

fn main(rt: HostRuntime) {
    cases::run(&mut rt.stdin(), &rt.stdout(), case);
}
