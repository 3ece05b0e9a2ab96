// The verdict on a record: its first fault, or none.
ghost use Rattle.std.specs.Prelude.{◌≡◌, ◌||◌, ℕ, max, ◌+◌, ◌*◌, ◌≤◌, ◌<◌, length, get_or, eqb, ltb};
ghost use Rattle.search.specs.Find.{first};
ghost use Rattle.table.specs.Limits.{max_chains, max_tasks, max_all_tasks, max_distances};
ghost use Rattle.table.specs.Bytes.{word};
ghost use Rattle.table.specs.Record.{form_at, head_length, gap_at, listed_at, list_place, largest_place, spaced};
ghost use Rattle.table.specs.Find.{used};
ghost use Rattle.table.specs.Fault.{outside as outsideOf, mark_of, identity_fault, times_fault, counts_fault, head_fault, fall_fault, last_fault, gap_short, gap_fault, distances_fault, list_fault, short_fault, largest_fault, task_mark_fault, values_fault, task_fault, tasks_fault, chain_fault, beside_fault, end_fault};
ghost use Rattle.table.specs.Code.Before.{Keeps};
ghost use Rattle.table.specs.declared.Table.{Table};

use crate::before::Before;
use crate::bytes::{count_at, u16_at, u32_at};
use crate::record::{
    deadline_at, first_task, flag_at, form_at, gap_at, has_flag, head_length, id_at, kind_at,
    known_at, listed_from, overload_at,
};
use crate::{Fault, Mark, Refusal, Table, Verdict};

// The mark as a number: `CH` and `CG`, `TK`, `EN`, or none of them.
pub fn mark_of(m: u16) -> Mark
    ensures { result ≡ mark_of m }
{
    match m {
        18499 => Mark::Chain,
        18243 => Mark::Chain,
        19284 => Mark::Task,
        20037 => Mark::End,
        _ => Mark::Unknown,
    }
}

// Whether x lies outside low to high.
pub fn outside(low: u32, high: u32, x: u32) -> bool
    ensures { result ≡ outsideOf low high x }
{
    x < low || high < x
}

// Whether the id is 0 or used earlier.
fn id_wrong(id: u16, before: &Before) -> bool
    requires { before.now.count ≤ max_chains }
    ensures { (t : Table) → Keeps before.now t → result ≡ (eqb id 0 || used t id) }
{
    id == 0 || before.ids[..before.count].contains(&id)
}

// 4 or 5: the id, the kind and the overload byte of the chain record at `at`.
fn identity_fault(s: &[u8], at: usize, before: &Before) -> Verdict
    requires { (at + head_length (form_at s.now at) ≤ length s.now) × (before.now.count ≤ max_chains) }
    ensures { (t : Table) → Keeps before.now t → result ≡ identity_fault s.now at t }
{
    if id_wrong(id_at(s, at), before) {
        return Err(Fault(Refusal::BadId, at + 2));
    }
    if 1 < kind_at(s, at) {
        return Err(Fault(Refusal::BadKind, at + 4));
    }
    if 1 < overload_at(s, at) {
        return Err(Fault(Refusal::BadKind, at + 5));
    }
    Ok(())
}

// 6 or 7: its deadline and its gap.
fn times_fault(s: &[u8], at: usize, gap: u32) -> Verdict
    requires { (at + head_length (form_at s.now at) ≤ length s.now) × (gap ≡ gap_at s.now at) }
    ensures { result ≡ times_fault s.now at }
{
    if outside(1, Table::DEADLINE, deadline_at(s, at)) {
        return Err(Fault(Refusal::BadDeadline, at + 6));
    }
    if Table::GAP < gap {
        return Err(Fault(Refusal::BadGap, at + 10));
    }
    Ok(())
}

// Whether the task count is out of its range, or too large after `before` tasks.
fn tasks_wrong(tasks: u8, before: usize) -> bool
    requires { before ≤ max_all_tasks }
    ensures { result ≡ (outsideOf 1 max_tasks tasks || ltb max_all_tasks (before + tasks)) }
{
    outside(1, Table::TASKS as u32, u32::from(tasks))
        || Table::ALL_TASKS < before + usize::from(tasks)
}

// 28 or 9: the list length and the task count of a record, after `before` tasks; they stand before its list.
fn counts_fault(s: &[u8], list: usize, before: usize) -> Verdict
    requires { (2 ≤ list) × (list ≤ length s.now) × (before ≤ max_all_tasks) }
    ensures { (at : ℕ) → list ≡ list_place s.now at → result ≡ counts_fault s.now at before }
{
    if outside(1, Table::DISTANCES as u32, u32::from(s[list - 2])) {
        return Err(Fault(Refusal::BadListLength, list - 2));
    }
    if tasks_wrong(s[list - 1], before) {
        return Err(Fault(Refusal::BadTaskCount, list - 1));
    }
    Ok(())
}

// 4 to 7, 28 or 9: the fixed part of the chain record at `at`, all of which is there; its list would start at `list`.
fn head_fault(s: &[u8], at: usize, list: usize, gap: u32, before: &Before) -> Verdict
    requires { (list ≤ length s.now) × (list ≡ list_place s.now at) × (gap ≡ gap_at s.now at) × (before.now.count ≤ max_chains) × (before.now.tasks ≤ max_all_tasks) }
    ensures { (t : Table) → Keeps before.now t → result ≡ head_fault s.now at t }
{
    identity_fault(s, at, before)?;
    times_fault(s, at, gap)?;
    counts_fault(s, list, before.tasks)
}

// 29: the first of the n distances from `at` on that falls, or exceeds the limit.
fn fall_fault(s: &[u8], at: usize, n: usize) -> Verdict
    requires { at + 4 * n ≤ length s.now }
    ensures { result ≡ fall_fault 0 (spaced (word 4 s.now) 4 n at) at }
{
    let mut before: u32 = 0;
    for i in 0..n {
        let d = u32_at(s, at + 4 * i);
        if outside(before, Table::DISTANCE, d) {
            return Err(Fault(Refusal::BadDistance, at + 4 * i));
        }
        before = d;
    }
    Ok(())
}

// 30: the last of the n distances from `at` on is 0.
fn last_fault(s: &[u8], at: usize, n: usize) -> Verdict
    requires { (1 ≤ n) × (at + 4 * n ≤ length s.now) }
    ensures { result ≡ last_fault (spaced (word 4 s.now) 4 n at) at }
{
    let last = at + 4 * (n - 1);
    if u32_at(s, last) == 0 {
        return Err(Fault(Refusal::LastIsZero, last));
    }
    Ok(())
}

// Whether the gap is too small for one of the n distances from `at` on.
fn gap_short(s: &[u8], at: usize, n: usize, gap: u32) -> bool
    requires { (n ≤ max_distances) × (at + 4 * n ≤ length s.now) }
    ensures { result ≡ gap_short gap 1 (spaced (word 4 s.now) 4 n at) }
{
    for i in 0..n {
        let d = u32_at(s, at + 4 * i);
        if u64::from(gap) * (i as u64 + 1) < u64::from(d) {
            return true;
        }
    }
    false
}

// 31: the gap, which stands at `place`, is known, and too small for one of the n distances from `at` on.
fn gap_fault(s: &[u8], at: usize, n: usize, gap: u32, place: usize) -> Verdict
    requires { (n ≤ max_distances) × (at + 4 * n ≤ length s.now) }
    ensures { result ≡ gap_fault gap (spaced (word 4 s.now) 4 n at) place }
{
    if gap == 0 {
        return Ok(());
    }
    if gap_short(s, at, n, gap) {
        return Err(Fault(Refusal::GapTooSmall, place));
    }
    Ok(())
}

// 29, 30 or 31: the n distances from `at` on, and the gap, which stands at `place`. The first two are both asked for, so that their
// order is said in one place.
fn distances_fault(s: &[u8], at: usize, n: usize, gap: u32, place: usize) -> Verdict
    requires { (1 ≤ n) × (n ≤ max_distances) × (at + 4 * n ≤ length s.now) }
    ensures { result ≡ distances_fault gap (spaced (word 4 s.now) 4 n at) at place }
{
    let falls = fall_fault(s, at, n);
    let last = last_fault(s, at, n);
    falls.and(last)?;
    gap_fault(s, at, n, gap, place)
}

// 2, 29, 30 or 31: the list of the chain record at `at`, its fixed part without a fault.
fn list_fault(s: &[u8], at: usize, list: usize, gap: u32) -> Verdict
    requires { (list ≤ length s.now) × (list ≡ list_place s.now at) × (gap ≡ gap_at s.now at) × (1 ≤ listed_at s.now at) × (listed_at s.now at ≤ max_distances) }
    ensures { result ≡ list_fault s.now at }
{
    let n = listed_from(s, list);
    if s.len() < list + 4 * n {
        return Err(Fault(Refusal::BytesMissing, s.len()));
    }
    distances_fault(s, list, n, gap, at + 10)
}

// 33: the first of the n largest distances from `at` on that falls, exceeds the limit or lies below the smallest for its count; those stand
// from `from` on.
fn short_fault(s: &[u8], from: usize, at: usize, n: usize) -> Verdict
    requires { (from + 4 * n ≤ length s.now) × (at + 4 * n ≤ length s.now) }
    ensures { result ≡ short_fault 0 (spaced (word 4 s.now) 4 n from) (spaced (word 4 s.now) 4 n at) at }
{
    let mut before: u32 = 0;
    for i in 0..n {
        let d = u32_at(s, at + 4 * i);
        let least = before.max(u32_at(s, from + 4 * i));
        if outside(least, Table::LARGEST, d) {
            return Err(Fault(Refusal::BadLargest, at + 4 * i));
        }
        before = d;
    }
    Ok(())
}

// 33 or 2: the flag of the chain record at `at`, then its largest distances; its smallest ones are there.
fn largest_fault(s: &[u8], at: usize, list: usize) -> Verdict
    requires { (largest_place s.now at ≤ length s.now) × (list ≡ list_place s.now at) × (listed_at s.now at ≤ max_distances) }
    ensures { result ≡ largest_fault s.now at }
{
    if !has_flag(form_at(s, at)) {
        return Ok(());
    }
    if 1 < flag_at(s, at) {
        return Err(Fault(Refusal::BadLargest, at + 10));
    }
    let n = known_at(s, at);
    let from = list + 4 * listed_from(s, list);
    if s.len() < from + 4 * n {
        return Err(Fault(Refusal::BytesMissing, s.len()));
    }
    short_fault(s, list, from, n)
}

// 2 or 3: the mark of the task record at `at`.
fn task_mark_fault(s: &[u8], at: usize) -> Verdict
    requires { at ≤ length s.now }
    ensures { result ≡ task_mark_fault s.now at }
{
    if s.len() < at + 2 {
        return Err(Fault(Refusal::BytesMissing, s.len()));
    }
    match mark_of(u16_at(s, at)) {
        Mark::Task => Ok(()),
        _ => Err(Fault(Refusal::BadMark, at)),
    }
}

// 10: its priority and its cost.
fn values_fault(s: &[u8], at: usize) -> Verdict
    requires { at + 8 ≤ length s.now }
    ensures { result ≡ values_fault s.now at }
{
    if u16_at(s, at + 2) == 0 {
        return Err(Fault(Refusal::BadTask, at + 2));
    }
    if outside(1, Table::COST, u32_at(s, at + 4)) {
        return Err(Fault(Refusal::BadTask, at + 4));
    }
    Ok(())
}

// 3 or 10: the task record at `at`, all of which is there.
fn whole_task_fault(s: &[u8], at: usize) -> Verdict
    requires { at + 8 ≤ length s.now }
    ensures { result ≡ task_fault s.now at }
{
    match mark_of(u16_at(s, at)) {
        Mark::Task => values_fault(s, at),
        _ => Err(Fault(Refusal::BadMark, at)),
    }
}

// 2 or 3: the same where its bytes run out.
fn cut_task_fault(s: &[u8], at: usize) -> Verdict
    requires { (at ≤ length s.now) × (length s.now < at + 8) }
    ensures { result ≡ task_fault s.now at }
{
    task_mark_fault(s, at)?;
    Err(Fault(Refusal::BytesMissing, s.len()))
}

// 2, 3 or 10: the task record at `at`. That all of it is there is asked once, since it mostly is.
fn task_fault(s: &[u8], at: usize) -> Verdict
    requires { at ≤ length s.now }
    ensures { result ≡ task_fault s.now at }
{
    if at + 8 <= s.len() {
        whole_task_fault(s, at)
    } else {
        cut_task_fault(s, at)
    }
}

// The first fault of the n task records from `at` on.
fn tasks_fault(s: &[u8], at: usize, n: usize) -> Verdict
    requires { at ≤ length s.now }
    ensures { result ≡ tasks_fault s.now n at }
{
    for i in 0..n {
        task_fault(s, at + 8 * i)?;
    }
    Ok(())
}

// The first fault of the chain record at `at`, its mark known, after the chains before it.
fn chain_fault(s: &[u8], at: usize, before: &Before) -> Verdict
    requires { (at + 2 ≤ length s.now) × (before.now.count ≤ max_chains) × (before.now.tasks ≤ max_all_tasks) }
    ensures { (t : Table) → Keeps before.now t → result ≡ chain_fault s.now at t }
{
    let list = at + head_length(form_at(s, at));
    if s.len() < list {
        return Err(Fault(Refusal::BytesMissing, s.len()));
    }
    let gap = gap_at(s, at);
    head_fault(s, at, list, gap, before)?;
    list_fault(s, at, list, gap)?;
    largest_fault(s, at, list)?;
    tasks_fault(s, first_task(s, at), count_at(s, list - 1))
}

// The first fault of the chain record at `at`, its mark known, beside the chains before it, which have this form. Whatever takes a chain
// from bytes asks this.
pub fn beside_fault(s: &[u8], at: usize, form: u16, before: &Before) -> Verdict
    requires { (at + 2 ≤ length s.now) × (before.now.count ≤ max_chains) × (before.now.tasks ≤ max_all_tasks) }
    ensures { (t : Table) → Keeps before.now t → result ≡ beside_fault s.now at form t }
{
    if form_at(s, at) != form {
        return Err(Fault(Refusal::BadMark, at));
    }
    if before.count == Table::CHAINS {
        return Err(Fault(Refusal::BadChainCount, at));
    }
    chain_fault(s, at, before)
}

// The fault of the end record at `at`, its mark known, after so many chains.
pub fn end_fault(s: &[u8], at: usize, count: usize) -> Verdict
    requires { at + 2 ≤ length s.now }
    ensures { (t : Table) → t.count ≡ count → result ≡ end_fault s.now at t }
{
    if s.len() < at + 4 {
        return Err(Fault(Refusal::BytesMissing, s.len()));
    }
    if count == 0 {
        return Err(Fault(Refusal::BadChainCount, at + 2));
    }
    if usize::from(u16_at(s, at + 2)) != count {
        return Err(Fault(Refusal::BadChainCount, at + 2));
    }
    if s.len() != at + 4 {
        return Err(Fault(Refusal::BadChainCount, at + 4));
    }
    Ok(())
}
