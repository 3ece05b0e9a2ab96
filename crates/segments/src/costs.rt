// What tasks and segments cost.
ghost use Rattle.std.specs.Prelude.{◌≡◌, max};
ghost use Rattle.search.specs.Lists.{sum_of, most_of};
ghost use Rattle.table.specs.Record.{row_at};
ghost use Rattle.table.specs.Code.Taken.{Stands};
ghost use Rattle.segments.specs.Tasks.{tasks_of, cost_of, chain_cost, floor_of, own_part};
ghost use Rattle.segments.specs.Segments.{segments};
ghost use Rattle.segments.specs.Code.Held.{FirstOf};

use crate::tasks::{Stretch, ahead, both_sides};
use table::{cost_at, priority_at, tasks_at};

// What all tasks of a chain cost: none is below the level 0.
pub fn chain_cost(s: &[u8], at: usize) -> u32
    requires { Stands s.now at }
    ensures { result ≡ chain_cost (row_at s.now at) }
{
    ahead(s, at, 0, 0).cost
}

// A chain's own first part: no task is below its floor, so the first at the floor is the first below the next level.
pub fn own_part(s: &[u8], at: usize, floor: u32) -> u32
    requires { Stands s.now at × (floor ≡ floor_of (row_at s.now at)) }
    ensures { result ≡ own_part (row_at s.now at) }
{
    ahead(s, at, 0, floor + 1).cost
}

// What all segments cost together: the tasks at or above the floor.
pub fn all_cost(s: &[u8], at: usize, floor: u32) -> u32
    requires { Stands s.now at }
    ensures { result ≡ sum_of cost_of (segments floor (tasks_of (row_at s.now at))) }
{
    both_sides(s, at, floor).cost
}

// What the dearest segment of a deferred chain costs, given its first stretch, which counts with the last.
pub fn dearest_cost(s: &[u8], at: usize, floor: u32, first: Stretch) -> u32
    requires { Stands s.now at × FirstOf (row_at s.now at) floor first }
    ensures { result ≡ most_of cost_of (segments floor (tasks_of (row_at s.now at))) }
{
    let mut best: u32 = 0;
    let mut sum: u32 = 0;
    for i in first.len + 1..tasks_at(s, at) {
        if priority_at(s, at, i) < floor {
            best = best.max(sum);
            sum = 0;
        } else {
            sum += cost_at(s, at, i);
        }
    }
    best.max(sum + first.cost)
}
