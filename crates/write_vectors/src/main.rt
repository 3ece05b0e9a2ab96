// Runs packed cases of a write (tests/pack_write.py says how they are packed) from standard input, and prints a line for each
// case that is not as expected and a last line with the counts. The rows of an accepted case are also read back from its table.
#![tactic(auto)]

ghost use Rattle.std.specs.Prelude.{◌≡◌, ◌≤◌, length, take, drop};
ghost use Rattle.writing.specs.Write.{Writes};
ghost use Rattle.writing.specs.Fill.{Fills};

use cases::{Outcome, filled, read_full, same, scribbled, went};
use std::io;
use table::{Refusal, Row, Table};

// Room for the rows of a case; a case with more is not as expected.
const ROWS: usize = 272;

// What a case expects: the refusal number, 0 for none, and the used length.
#[derive(Clone, Copy)]
struct Expected {
    number: u32,
    length: u32,
}

// What a read answers, and the rows after it.
#[derive(Clone, Copy)]
struct Read {
    filled: Result<u32, Refusal>,
    rows: [Row; ROWS],
}

// ---- Rows, lent ----

// Only these two lend rows. All other functions take rows by value.

// Writes the first n rows.
fn write_first(rows: [Row; ROWS], n: usize, out: &mut [u8]) -> Result<u32, Refusal>
    requires { n ≤ 272 }
    ensures { Writes (take n rows) out.old result out.new }
{
    writing::write(&rows[..n], out)
}

// Reads a table into the first n of these rows.
fn read_first(s: &[u8], rows: [Row; ROWS], n: usize) -> Read
    requires { n ≤ 272 }
    ensures { Fills s.now (take n rows) result.filled (take n result.rows) × (drop n result.rows ≡ drop n rows) }
{
    let mut read = rows;
    let filled = writing::read(s, &mut read[..n]);
    Read { filled, rows: read }
}

// ---- Rows from the input ----

// The distances that start at `from`, the priorities and the costs of the row that these 192 bytes are.
fn list_of(s: &[u8], from: usize) -> [u32; Table::DISTANCES]
    requires { (192 ≤ length s.now) × (from ≤ 64) }
{
    let mut list = [0u32; Table::DISTANCES];
    for i in 0..Table::DISTANCES {
        list[i] = table::u32_at(s, from + 4 * i);
    }
    list
}

fn priorities_of(s: &[u8]) -> [u16; Table::TASKS]
    requires { 192 ≤ length s.now }
{
    let mut priority = [0u16; Table::TASKS];
    for i in 0..Table::TASKS {
        priority[i] = table::u16_at(s, 96 + 2 * i);
    }
    priority
}

fn costs_of(s: &[u8]) -> [u32; Table::TASKS]
    requires { 192 ≤ length s.now }
{
    let mut cost = [0u32; Table::TASKS];
    for i in 0..Table::TASKS {
        cost[i] = table::u32_at(s, 128 + 4 * i);
    }
    cost
}

// The row itself.
fn row_of(s: &[u8]) -> Row
    requires { 192 ≤ length s.now }
{
    let list = list_of(s, 32);
    let largest = list_of(s, 64);
    let priority = priorities_of(s);
    let cost = costs_of(s);
    Row {
        form: table::u16_at(s, 0),
        id: table::u16_at(s, 2),
        kind: s[4],
        overload: s[5],
        flag: s[6],
        deadline: table::u32_at(s, 8),
        gap: table::u32_at(s, 12),
        listed: table::u64_at(s, 16) as usize,
        tasks: table::u64_at(s, 24) as usize,
        list,
        largest,
        priority,
        cost,
    }
}

fn next_row(from: &mut impl io::Read) -> Row {
    let mut bytes = [0u8; 192];
    read_full(from, &mut bytes);
    row_of(&bytes)
}

// A row that no table holds, with no place past its counts and a form that lacks nothing.
fn scribbled_row() -> Row {
    Row {
        form: 42_405,
        id: 41_377,
        kind: 163,
        overload: 164,
        flag: 166,
        deadline: 2_779_096_485,
        gap: 2_796_202_666,
        listed: Table::DISTANCES,
        tasks: Table::TASKS,
        list: [2_880_154_539u32; Table::DISTANCES],
        largest: [2_846_468_521u32; Table::DISTANCES],
        priority: [44_204u16; Table::TASKS],
        cost: [2_913_840_557u32; Table::TASKS],
    }
}

// Reads n rows; those past them are scribbled.
fn next_rows(from: &mut impl io::Read, n: usize) -> [Row; ROWS]
    requires { n ≤ 272 }
{
    let row = scribbled_row();
    let mut rows = [row; ROWS];
    for i in 0..n {
        rows[i] = next_row(from);
    }
    rows
}

// ---- Rows, compared ----

// Whether the first n of `a` stand in b, and 0 past them.
fn numbers_come_back<T: Copy + Default + PartialEq>(a: &[T], n: usize, b: &[T]) -> bool {
    if a.len() != b.len() {
        return false;
    }
    for (i, found) in b.iter().enumerate() {
        let expected = if i < n { a[i] } else { T::default() };
        if *found != expected {
            return false;
        }
    }
    true
}

// The gap of a row, 0 where its form has none.
fn gap_back(form: u16, gap: u32) -> u32 {
    if form == Row::LARGEST_FORM { 0 } else { gap }
}

// Its flag, likewise.
fn flag_back(form: u16, flag: u8) -> u8 {
    if form == Row::GAP_FORM { 0 } else { flag }
}

// How many largest distances it has.
fn known_back(form: u16, flag: u8, listed: usize) -> usize {
    if flag_back(form, flag) == 0 {
        0
    } else {
        listed
    }
}

// Whether each list is the row's, and 0 past its count.
fn list_comes_back(row: Row, found: Row) -> bool {
    let list = row.list;
    let found_list = found.list;
    numbers_come_back(&list, row.listed, &found_list)
}

fn largest_comes_back(row: Row, found: Row) -> bool {
    let known = known_back(row.form, row.flag, row.listed);
    let largest = row.largest;
    let found_largest = found.largest;
    numbers_come_back(&largest, known, &found_largest)
}

fn priority_comes_back(row: Row, found: Row) -> bool {
    let priority = row.priority;
    let found_priority = found.priority;
    numbers_come_back(&priority, row.tasks, &found_priority)
}

fn cost_comes_back(row: Row, found: Row) -> bool {
    let cost = row.cost;
    let found_cost = found.cost;
    numbers_come_back(&cost, row.tasks, &found_cost)
}

// Whether what was found is the row, with 0 for what its form lacks and in the places past its counts.
fn comes_back(row: Row, found: Row) -> bool {
    row.form == found.form
        && row.id == found.id
        && row.kind == found.kind
        && row.overload == found.overload
        && flag_back(row.form, row.flag) == found.flag
        && row.deadline == found.deadline
        && gap_back(row.form, row.gap) == found.gap
        && row.listed == found.listed
        && row.tasks == found.tasks
        && list_comes_back(row, found)
        && largest_comes_back(row, found)
        && priority_comes_back(row, found)
        && cost_comes_back(row, found)
}

fn come_back(rows: [Row; ROWS], found: [Row; ROWS]) -> bool {
    for i in 0..ROWS {
        if !comes_back(rows[i], found[i]) {
            return false;
        }
    }
    true
}

// ---- A case ----

// Whether the answer has the expected number, and length where it is accepted.
fn answers(written: Result<u32, Refusal>, expected: Expected) -> bool {
    match written {
        Ok(n) => expected.number == 0 && n == expected.length,
        Err(refusal) => refusal.number() == expected.number,
    }
}

// Whether the write of the first n rows answers as expected and leaves the expected bytes.
fn leaves_as_expected(
    rows: [Row; ROWS],
    n: usize,
    buffer: &mut [u8],
    expected: Expected,
    after: &[u8],
) -> bool
    requires { n ≤ 272 }
{
    let written = write_first(rows, n, buffer);
    answers(written, expected) && same(buffer, after)
}

// The same of a buffer with as many bytes as are expected after the write.
fn write_as_expected(rows: [Row; ROWS], n: usize, expected: Expected, after: &[u8]) -> bool
    requires { n ≤ 272 }
{
    let mut buffer = scribbled();
    let room = after.len();
    if buffer.len() < room {
        return false;
    }
    leaves_as_expected(rows, n, &mut buffer[..room], expected, after)
}

// Whether a read into one row less than the table has is refused and leaves every row.
fn refuses_less(s: &[u8], n: usize) -> bool
    requires { n ≤ 272 }
{
    if n == 0 {
        return false;
    }
    let row = scribbled_row();
    let rows = [row; ROWS];
    let read = read_first(s, rows, n - 1);
    let filled = read.filled;
    let left = read.rows;
    filled == Err(Refusal::BufferShort) && come_back(rows, left)
}

// Whether the table gives back the first n rows, and these give the same bytes.
fn reads_back(rows: [Row; ROWS], n: usize, expected: Expected, after: &[u8]) -> bool
    requires { n ≤ 272 }
{
    let used = expected.length as usize;
    if after.len() < used {
        return false;
    }
    let s = &after[..used];
    let row = scribbled_row();
    let read = read_first(s, [row; ROWS], n);
    let filled = read.filled;
    let found = read.rows;
    filled == Ok(n as u32)
        && come_back(rows, found)
        && refuses_less(s, n)
        && write_as_expected(found, n, expected, after)
}

// Whether the write of the first n rows is as expected, and where it is accepted, also what is read back.
fn goes_as_expected(rows: [Row; ROWS], n: usize, expected: Expected, after: &[u8]) -> bool
    requires { n ≤ 272 }
{
    if !write_as_expected(rows, n, expected, after) {
        return false;
    }
    0 < expected.number || reads_back(rows, n, expected, after)
}

// Reads what is expected of the first n rows, and looks whether it is so. The table stands before the bytes that stay.
fn as_expected(from: &mut impl io::Read, rows: [Row; ROWS], n: usize) -> bool
    requires { n ≤ 272 }
{
    let mut head = [0u8; 8];
    if read_full(from, &mut head) < 8 {
        return false;
    }
    let room = table::u16_at(&head, 0) as usize;
    let number = table::u32_at(&head, 2);
    let used = table::u16_at(&head, 6) as usize;
    let mut after = scribbled();
    if filled(from, &mut after, used) < used {
        return false;
    }
    let length = used as u32;
    goes_as_expected(rows, n, Expected { number, length }, &after[..room])
}

// Reads the rows of a case, and then the rest of it.
fn case(from: &mut impl io::Read) -> Outcome {
    let mut count = [0u8; 2];
    if read_full(from, &mut count) < 2 {
        return Outcome::End;
    }
    let n = table::u16_at(&count, 0) as usize;
    if ROWS < n {
        return Outcome::Wrong;
    }
    let rows = next_rows(from, n);
    went(as_expected(from, rows, n))
}

fn main(rt: HostRuntime) {
    cases::run(&mut rt.stdin(), &rt.stdout(), case);
}
