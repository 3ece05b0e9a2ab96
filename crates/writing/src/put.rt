// Rows put into a lent buffer, and whether they are.
ghost use Rattle.std.specs.Prelude.{◌≡◌, true, ◌++◌, ◌+◌, ◌*◌, ◌-◌, ◌≤◌, length, Ok, Err};
ghost use Rattle.search.specs.Choice.{◌when◌else◌};
ghost use Rattle.table.specs.Limits.{max_chains, max_distances, max_tasks};
ghost use Rattle.slices.specs.Slices.{splice};
ghost use Rattle.slices.specs.Code.Wrote.{Wrote};
ghost use Rattle.table.specs.Record.{gap_width, head_length, task_record, end_record, known_of};
ghost use Rattle.writing.specs.Rows.{is_form, count_byte, gap_bytes, head_bytes, list_bytes, tasks_bytes, row_bytes};
ghost use Rattle.writing.specs.Code.Put.{distance_of, fitted, RowRoom};

use crate::judged::{Tally, known_of};
use table::{Refusal, Row, Table, put_u16, put_u32};

// The gap, or the flag in its place.
pub fn put_gap(out: &mut [u8], at: usize, form: u16, flag: u8, gap: u32) -> usize
    requires { at + gap_width form ≤ length out.old }
    ensures { Wrote out.old at (gap_bytes form flag gap) out.new result }
{
    if form == Row::LARGEST_FORM {
        out[at] = flag;
        at + 1
    } else {
        put_u32(out, at, gap);
        at + 4
    }
}

// The two counts, as one number.
fn put_counts(out: &mut [u8], at: usize, listed: usize, tasks: usize) -> usize
    requires { (listed ≤ max_distances) × (tasks ≤ max_tasks) × (at + 2 ≤ length out.old) }
    ensures { Wrote out.old at (count_byte listed ++ count_byte tasks) out.new result }
{
    put_u16(out, at, listed as u16 + 256 * tasks as u16);
    at + 2
}

// The fixed part of a row's record: mark and id, kind and overload mark each as one number. The mark is the form.
fn put_head(out: &mut [u8], at: usize, row: Row) -> usize
    requires { (is_form row.form ≡ true) × (row.listed ≤ max_distances) × (row.tasks ≤ max_tasks) × (at + head_length row.form ≤ length out.old) }
    ensures { Wrote out.old at (head_bytes row) out.new result }
{
    put_u32(out, at, u32::from(row.form) + 65_536 * u32::from(row.id));
    put_u16(
        out,
        at + 4,
        u16::from(row.kind) + 256 * u16::from(row.overload),
    );
    put_u32(out, at + 6, row.deadline);
    let after_gap = put_gap(out, at + 10, row.form, row.flag, row.gap);
    put_counts(out, after_gap, row.listed, row.tasks)
}

// Distance i, where there are more than i; answers where the next one stands.
fn put_distance(
    out: &mut [u8],
    at: usize,
    list: &[u32; Table::DISTANCES],
    i: usize,
    n: usize,
) -> usize
    requires { (n ≤ max_distances) × (at + 4 * (n - i) ≤ length out.old) }
    ensures { Wrote out.old at (distance_of list.now n i) out.new result }
{
    if i < n {
        put_u32(out, at, list[i]);
        at + 4
    } else {
        at
    }
}

// The first n distances. The loop goes over all places, so that it is unrolled; it would be a copy of memory otherwise, slow for so few.
// The last is put by its number, which keeps the list in one place instead of eight registers.
pub fn put_list(out: &mut [u8], at: usize, list: &[u32; Table::DISTANCES], n: usize) -> usize
    requires { (1 ≤ n) × (n ≤ max_distances) × (at + 4 * n ≤ length out.old) }
    ensures { Wrote out.old at (list_bytes list.now n) out.new result }
{
    let last = n - 1;
    let mut next = at;
    for i in 0..Table::DISTANCES - 1 {
        next = put_distance(out, next, list, i, last);
    }
    put_u32(out, next, list[last]);
    next + 4
}

// The largest distances of a row, where they are known.
fn put_largest(out: &mut [u8], at: usize, row: Row) -> usize
    requires { (row.listed ≤ max_distances) × (at + 4 * known_of row ≤ length out.old) }
    ensures { Wrote out.old at (list_bytes row.largest (known_of row)) out.new result }
{
    let known = known_of(row.form, row.flag, row.listed);
    if known == 0 {
        return at;
    }
    let largest = row.largest;
    put_list(out, at, &largest, known)
}

// A task record.
fn put_task(out: &mut [u8], at: usize, priority: u16, cost: u32) -> usize
    requires { at + 8 ≤ length out.old }
    ensures { Wrote out.old at (task_record priority cost) out.new result }
{
    put_u32(out, at, 19_284 + 65_536 * u32::from(priority));
    put_u32(out, at + 4, cost);
    at + 8
}

// The first n tasks.
fn put_tasks(
    out: &mut [u8],
    at: usize,
    priority: &[u16; Table::TASKS],
    cost: &[u32; Table::TASKS],
    n: usize,
) -> usize
    requires { (n ≤ max_tasks) × (at + 8 * n ≤ length out.old) }
    ensures { Wrote out.old at (tasks_bytes priority.now cost.now n) out.new result }
{
    let mut next = at;
    for i in 0..n {
        next = put_task(out, next, priority[i], cost[i]);
    }
    next
}

// The record of a row, from `at` on; answers where it ends.
pub fn put_row(out: &mut [u8], at: usize, row: Row) -> usize
    requires { RowRoom row out.old at }
    ensures { Wrote out.old at (row_bytes row) out.new result }
{
    let list = row.list;
    let priority = row.priority;
    let cost = row.cost;
    let after_head = put_head(out, at, row);
    let after_list = put_list(out, after_head, &list, row.listed);
    let after_largest = put_largest(out, after_list, row);
    put_tasks(out, after_largest, &priority, &cost, row.tasks)
}

// Refused, where that is called for.
fn refused_if(called: bool, refusal: Refusal) -> Result<(), Refusal>
    ensures { result ≡ (Err refusal when called else Ok tt) }
{
    if called { Err(refusal) } else { Ok(()) }
}

// How long the table of good rows is, where there are any and it fits into so much room. Both are asked for, so that their order is said in
// one place.
pub fn fitted(judged: Tally, room: usize) -> Result<u32, Refusal>
    requires { judged.bytes ≤ 4096 }
    ensures { result ≡ fitted judged room }
{
    let n = judged.bytes + 4;
    let rules = refused_if(judged.count == 0, Refusal::BadChainCount);
    let short = refused_if(room < n, Refusal::BufferShort);
    rules.and(short)?;
    Ok(n as u32)
}

// The end record of so many chains: `EN`, and their number in the two bytes above it.
pub fn put_end(out: &mut [u8], at: usize, count: usize)
    requires { (count ≤ max_chains) × (at + 4 ≤ length out.old) }
    ensures { out.new ≡ splice out.old at 4 (end_record count) }
{
    put_u32(out, at, 20_037 + 65_536 * (count as u32));
}
