// A table decoded: all its chains as rows.
ghost use Rattle.std.specs.Prelude.{◌≡◌, ◌+◌, ◌*◌, ◌≤◌, length};
ghost use Rattle.table.specs.Limits.{max_distances, max_tasks};
ghost use Rattle.table.specs.Bytes.{word};
ghost use Rattle.table.specs.Record.{spaced, pad, priority_at, cost_at, row_at};
ghost use Rattle.table.specs.Read.{read_table, table_of, outcome_of};
ghost use Rattle.table.specs.Code.Taken.{Taken, Stands};

use crate::bytes::{u16_at, u32_at};
use crate::places::count;
use crate::reader::judge;
use crate::record::{
    deadline_at, first_task, flag_at, form_at, gap_at, id_at, kind_at, known_at, largest_place,
    list_place, listed_at, overload_at, record_length, tasks_at,
};
use crate::{Fault, Row, Table};

// The n distances from `from` on, and 0 past them.
fn list_of(s: &[u8], from: usize, n: usize) -> [u32; Table::DISTANCES]
    requires { (n ≤ max_distances) × (from + 4 * n ≤ length s.now) }
    ensures { result ≡ pad max_distances (spaced (word 4 s.now) 4 n from) }
{
    let mut list = [0u32; Table::DISTANCES];
    for i in 0..n {
        list[i] = u32_at(s, from + 4 * i);
    }
    list
}

// What n task records hold, and 0 past them.
#[derive(Clone, Copy)]
struct Tasks {
    priority: [u16; Table::TASKS],
    cost: [u32; Table::TASKS],
}

// The n tasks from `from` on.
fn tasks_of(s: &[u8], from: usize, n: usize) -> Tasks
    requires { (n ≤ max_tasks) × (from + 8 * n ≤ length s.now) }
    ensures { (result.priority ≡ pad max_tasks (spaced (priority_at s.now) 8 n from)) × (result.cost ≡ pad max_tasks (spaced (cost_at s.now) 8 n from)) }
{
    let mut priority = [0u16; Table::TASKS];
    let mut cost = [0u32; Table::TASKS];
    for i in 0..n {
        priority[i] = u16_at(s, from + 8 * i + 2);
        cost[i] = u32_at(s, from + 8 * i + 4);
    }
    Tasks { priority, cost }
}

// The row of the chain record that stands at `at`.
pub fn row_at(s: &[u8], at: usize) -> Row
    requires { Stands s.now at }
    ensures { result ≡ row_at s.now at }
{
    let listed = listed_at(s, at);
    let tasks = tasks_at(s, at);
    let list = list_of(s, list_place(s, at), listed);
    let largest = list_of(s, largest_place(s, at), known_at(s, at));
    let held = tasks_of(s, first_task(s, at), tasks);
    let priority = held.priority;
    let cost = held.cost;
    Row {
        form: form_at(s, at),
        id: id_at(s, at),
        kind: kind_at(s, at),
        overload: overload_at(s, at),
        flag: flag_at(s, at),
        deadline: deadline_at(s, at),
        gap: gap_at(s, at),
        listed,
        tasks,
        list,
        largest,
        priority,
        cost,
    }
}

// All rows of an accepted table.
fn rows(s: &[u8]) -> Table
    requires { Taken s.now }
    ensures { result ≡ table_of s.now }
{
    let mut t = Table::empty();
    let mut at: usize = 0;
    for chain in 0..count(s) {
        let row = row_at(s, at);
        at += record_length(s, at);
        t.tasks += row.tasks;
        t.row[chain] = row;
        t.count += 1;
    }
    t
}

// Reads a stored table. No byte past the slice is looked at.
pub fn read(s: &[u8]) -> Result<Table, Fault>
    ensures { result ≡ outcome_of (read_table s.now) }
{
    judge(s)?;
    Ok(rows(s))
}
