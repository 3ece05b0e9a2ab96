// The active segments of the overload chains beside a chain b.
ghost use Rattle.std.specs.Prelude.{◌≡◌, List, [], ◌∷◌, ◌++◌, ◌+◌, ◌*◌, ◌≤◌, ◌<◌, min};
ghost use Rattle.table.specs.Limits.{max_chains, max_tasks, max_capacity};
ghost use Rattle.table.specs.declared.Row.{Row};
ghost use Rattle.table.specs.Record.{row_at, distances};
ghost use Rattle.table.specs.Find.{rows};
ghost use Rattle.table.specs.Code.Taken.{Taken, Stands};
ghost use Rattle.table.specs.Read.{table_of};
ghost use Rattle.arrivals.specs.Arrivals.{η};
ghost use Rattle.arrivals.specs.Code.Bounds.{longest_span};
ghost use Rattle.segments.specs.Tasks.{floor_of, tail_of};
ghost use Rattle.misses.specs.Overloads.{Overload, overload, overloads};
ghost use Rattle.misses.specs.Code.Held.{held_as, gathered};

use crate::Pieces;
use arrivals::eta_up_to;
use segments::{active_segments, floor_of, tail_of};
use table::{Table, count, list_place, overload_at, record_length};

// The capacity in t of the active segments of the chain at `a`, or one past the limit where it is larger.
fn capacity(s: &[u8], a: usize, t: u64) -> u8
    requires { Stands s.now a × (t ≤ longest_span) }
    ensures { result ≡ min (max_capacity + 1) (η (distances (row_at s.now a)) t + 1) }
{
    (eta_up_to(s, list_place(s, a), t, Table::CAPACITY) + 1) as u8
}

impl Pieces {
    // No overload chain.
    fn none() -> Self
        ensures { result ≡ held_as 0 [] [] }
    {
        Pieces {
            chains: 0,
            count: 0,
            chain: [0usize; Table::OVERLOADS],
            segment: [0usize; Table::OVERLOADS],
            cost: [0u64; Table::OVERLOADS],
            capacity: [0u8; Table::OVERLOADS],
        }
    }

    // The active segments of one overload chain more, that at `a`, against a chain with this floor and tail, and with their capacity
    // in t; past six only the count grows.
    fn beside(self, s: &[u8], a: usize, floor: u32, tail: u32, t: u64) -> Self
        requires { Stands s.now a × (floor ≤ tail) × (t ≤ longest_span) × (self.chains < max_chains) × (self.count + max_tasks ≤ max_chains * max_tasks) }
        ensures { (b : Row) (os : List Overload) → floor_of b ≡ floor → tail_of b ≡ tail → self ≡ gathered t os → result ≡ gathered t (os ++ (overload (row_at s.now a) b ∷ [])) }
    {
        let found = active_segments(s, a, floor, tail);
        let most = capacity(s, a, t);
        let mut p = self;
        for i in 0..found.count {
            let to = p.count;
            p.count = to + 1;
            if to < Table::OVERLOADS {
                p.chain[to] = p.chains;
                p.segment[to] = found.segment[i];
                p.cost[to] = u64::from(found.cost[i]);
                p.capacity[to] = most;
            }
        }
        p.chains += 1;
        p
    }

    // The active segments of all overload chains of a table against the chain at `b`, with their capacities in t.
    pub fn of(s: &[u8], b: usize, t: u64) -> Self
        requires { Taken s.now × Stands s.now b × (t ≤ longest_span) }
        ensures { result ≡ gathered t (overloads (row_at s.now b) (rows (table_of s.now))) }
    {
        let floor = floor_of(s, b);
        let tail = tail_of(s, b);
        let chains = count(s);
        let mut p = Pieces::none();
        let mut at: usize = 0;
        for _ in 0..chains {
            let a = at;
            at += record_length(s, at);
            if overload_at(s, a) != 0 {
                p = p.beside(s, a, floor, tail, t);
            }
        }
        p
    }
}
