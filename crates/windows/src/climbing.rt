// The window of a demand, found from below.
ghost use Rattle.std.specs.Prelude.{◌≡◌, ◌≤◌, eqb};
ghost use Rattle.search.specs.Choice.{◌when◌else◌};
ghost use Rattle.table.specs.Limits.{horizon};
ghost use Rattle.table.specs.Code.Listed.{distances_from, Lists};
ghost use Rattle.arrivals.specs.Arrivals.{η};
ghost use Rattle.windows.specs.Code.Load.{load_of, held_of, Held};
ghost use Rattle.windows.specs.Code.Climb.{Behind, CountsHeld, Climbs, Climbed};

use crate::Own;
use arrivals::eta_from;
use table::Table;

// η(t) by the chain's list, which is no less than `before`; not counted where its first part counts nothing.
fn own_count(s: &[u8], list: usize, part: u64, t: u64, before: u64) -> u64
    requires { Lists s.now list × (t ≤ horizon) × (before ≤ η (distances_from s.now list) t) }
    ensures { result ≡ (before when eqb part 0 else η (distances_from s.now list) t) }
{
    if part == 0 {
        return before;
    }
    eta_from(s, list, t, before)
}

// What the n chains held add in t. Each one's arrivals are no fewer than those counted before.
fn held_sum(
    s: &[u8],
    held: &[u64; Own::HELD],
    n: usize,
    t: u64,
    counts: &mut [u64; Own::COUNTS],
) -> u64
    requires { Held s.now held.now n × (t ≤ horizon) × Behind s.now held.now 0 n t counts.old }
    ensures { (result ≡ held_of s.now held.now n t) × CountsHeld s.now held.now n t counts.old counts.new }
{
    let mut sum: u64 = 0;
    for i in 0..n {
        let count = eta_from(s, held[Table::CHAINS + i] as usize, t, counts[i]);
        counts[i] = count;
        sum += count * held[i];
    }
    sum
}

// B(q), from any start below which it cannot lie. The climb ends because t grows with every turn, to at most the horizon; since t
// grows, no count falls, and each is what is known of the next.
pub fn climb(
    s: &[u8],
    own: Own,
    held: &[u64; Own::HELD],
    q: u64,
    start: u64,
    counts: &mut [u64; Own::COUNTS],
) -> Option<u64>
    requires { Climbs (load_of s.now own held.now) q start counts.old }
    ensures { Climbed (load_of s.now own held.now) q result counts.new }
{
    let fixed = q * own.cost + own.once;
    let mut t = start;
    while t <= Table::HORIZON {
        let mine = own_count(s, own.list, own.part, t, counts[Table::CHAINS]);
        counts[Table::CHAINS] = mine;
        let more = mine.saturating_sub(q) * own.part;
        let d = fixed + more + held_sum(s, held, own.count, t, counts);
        if d == t {
            return Some(t);
        }
        t = d;
    }
    None
}
