// Tasks against a level of priority.
ghost use Rattle.std.specs.Prelude.{◌≡◌, ◌≤◌, min};
ghost use Rattle.table.specs.Record.{tasks_at, row_at};
ghost use Rattle.table.specs.Code.Taken.{Stands};
ghost use Rattle.segments.specs.Tasks.{tasks_of, floor_of, tail_of, below, before};
ghost use Rattle.segments.specs.Code.Held.{tasks_after, stretch_of, sides_of};

use table::{cost_at, priority_at, tasks_at};

// Some tasks in a row: how many there are, and what they cost.
#[derive(Clone, Copy)]
pub struct Stretch {
    pub len: usize,
    pub cost: u32,
}

// Tasks on both sides of a level: how many lie below it, and what the others cost.
#[derive(Clone, Copy)]
pub struct Sides {
    pub low: usize,
    pub cost: u32,
}

// The lowest priority.
pub fn floor_of(s: &[u8], at: usize) -> u32
    requires { Stands s.now at }
    ensures { result ≡ floor_of (row_at s.now at) }
{
    let mut low = priority_at(s, at, 0);
    for i in 1..tasks_at(s, at) {
        low = low.min(priority_at(s, at, i));
    }
    low
}

// The last task's priority.
pub fn tail_of(s: &[u8], at: usize) -> u32
    requires { Stands s.now at }
    ensures { result ≡ tail_of (row_at s.now at) }
{
    priority_at(s, at, tasks_at(s, at) - 1)
}

// The tasks after `from` others, up to the first below the level.
pub fn ahead(s: &[u8], at: usize, from: usize, level: u32) -> Stretch
    requires { Stands s.now at × (from ≤ tasks_at s.now at) }
    ensures { result ≡ stretch_of (before (below level) (tasks_after (row_at s.now at) from)) }
{
    let n = tasks_at(s, at);
    let mut cost: u32 = 0;
    for i in from..n {
        if priority_at(s, at, i) < level {
            return Stretch {
                len: i - from,
                cost,
            };
        }
        cost += cost_at(s, at, i);
    }
    Stretch {
        len: n - from,
        cost,
    }
}

// The tasks on both sides of the level.
pub fn both_sides(s: &[u8], at: usize, level: u32) -> Sides
    requires { Stands s.now at }
    ensures { result ≡ sides_of level (tasks_of (row_at s.now at)) }
{
    let mut low: usize = 0;
    let mut cost: u32 = 0;
    for i in 0..tasks_at(s, at) {
        if priority_at(s, at, i) < level {
            low += 1;
        } else {
            cost += cost_at(s, at, i);
        }
    }
    Sides { low, cost }
}
