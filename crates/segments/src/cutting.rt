// Active segments.
ghost use Rattle.std.specs.Prelude.{◌≡◌, [], ◌≤◌, eqb};
ghost use Rattle.search.specs.Choice.{◌when◌else◌};
ghost use Rattle.table.specs.Record.{row_at};
ghost use Rattle.table.specs.Code.Taken.{Stands};
ghost use Rattle.segments.specs.Tasks.{tasks_of};
ghost use Rattle.segments.specs.Actives.{actives as inNumber};
ghost use Rattle.segments.specs.Code.Held.{arrays_of};

use crate::Actives;
use crate::tasks::{ahead, both_sides};
use table::{Table, cost_at, priority_at, tasks_at};

impl Actives {
    // No active segment.
    fn empty() -> Self
        ensures { result ≡ arrays_of [] }
    {
        Actives {
            count: 0,
            start: [0usize; Table::TASKS],
            len: [0usize; Table::TASKS],
            cost: [0u32; Table::TASKS],
            segment: [0usize; Table::TASKS],
        }
    }
}

// The number of a stretch's segment: the first stretch is of the last one's.
fn segment_of(stretch: usize, last: usize) -> usize
    ensures { result ≡ (last when eqb stretch 0 else stretch) }
{
    if stretch == 0 { last } else { stretch }
}

// The active segments by number. At the loop's head the task i is below the floor, or an active segment starts there. A task
// below the floor ends a stretch, so the last stretch has as many before it as there are such tasks.
pub fn active_segments(s: &[u8], at: usize, floor: u32, tail: u32) -> Actives
    requires { Stands s.now at × (floor ≤ tail) }
    ensures { result ≡ arrays_of (inNumber floor tail (tasks_of (row_at s.now at))) }
{
    let n = tasks_at(s, at);
    let both = both_sides(s, at, floor);
    let mut out = Actives::empty();
    let mut stretch: usize = 0;
    let mut i: usize = 0;
    while i < n {
        if priority_at(s, at, i) < floor {
            stretch += 1;
            i += 1;
        } else {
            let more = ahead(s, at, i + 1, tail);
            let j = out.count;
            out.start[j] = i;
            out.len[j] = more.len + 1;
            out.cost[j] = cost_at(s, at, i) + more.cost;
            out.segment[j] = segment_of(stretch, both.low);
            out.count = j + 1;
            i += 1 + more.len;
        }
    }
    out
}
