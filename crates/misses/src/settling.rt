// The lowest bad cost. A combination is bad by its cost alone, and costs only get worse, so each sum that is tried settles all
// those below it or all those above it.
ghost use Rattle.std.specs.Prelude.{◌≡◌, false, ◌-◌, ◌<◌};
ghost use Rattle.windows.specs.Code.Load.{load_of};
ghost use Rattle.misses.specs.Code.Settling.{over_with, beyond, Costs, Tries, Settles, Open, Inside, Picks, BadFrom};

use crate::Settled;
use packing::COMBINATIONS;
use windows::{Own, any_over};

// Whether a set that costs so much is bad.
pub fn over(s: &[u8], own: Own, held: &[u64; Own::HELD], close: u32, cost: u64) -> bool
    requires { Tries (load_of s.now own held.now) close × (cost < beyond) }
    ensures { result ≡ over_with (load_of s.now own held.now) close cost }
{
    let mut dearer = own;
    dearer.once += cost;
    any_over(s, dearer, held, close)
}

// One round: the open cost c is tried.
fn round(s: &[u8], own: Own, held: &[u64; Own::HELD], close: u32, ends: Settled, c: u64) -> Settled
    requires { Tries (load_of s.now own held.now) close × Settles (over_with (load_of s.now own held.now) close) ends × Open ends c }
    ensures { Settles (over_with (load_of s.now own held.now) close) result × (result.bad - result.good < ends.bad - ends.good) }
{
    if over(s, own, held, close, c) {
        Settled {
            good: ends.good,
            bad: c,
        }
    } else {
        Settled {
            good: c,
            bad: ends.bad,
        }
    }
}

// How far c is from the nearer of the two ends that are settled, 0 where c is not open.
fn inside(ends: Settled, c: u64) -> u64
    ensures { Inside ends c result }
{
    c.saturating_sub(ends.good).min(ends.bad.saturating_sub(c))
}

// The open cost that is farthest inside, 0 if none is open. Past the sets that there are costs are 0, which is never open.
fn pick(costs: &[u64; COMBINATIONS], sets: usize, ends: Settled) -> u64
    requires { Costs costs.now sets }
    ensures { Picks ends costs.now result }
{
    let mut best: u64 = 0;
    let mut most: u64 = 0;
    for m in 0..sets {
        let c = costs[m];
        let n = inside(ends, c);
        if most < n {
            best = c;
            most = n;
        }
    }
    best
}

// The cost from which on sets are bad, where the empty set is not: it is above 0.
pub fn lowest_bad(
    s: &[u8],
    own: Own,
    held: &[u64; Own::HELD],
    close: u32,
    costs: &[u64; COMBINATIONS],
    sets: usize,
) -> u64
    requires { Tries (load_of s.now own held.now) close × (over_with (load_of s.now own held.now) close 0 ≡ false) × Costs costs.now sets }
    ensures { BadFrom (over_with (load_of s.now own held.now) close) costs.now result }
{
    let mut ends = Settled {
        good: 0,
        bad: Settled::BEYOND,
    };
    let mut c = pick(costs, sets, ends);
    while c != 0 {
        ends = round(s, own, held, close, ends, c);
        c = pick(costs, sets, ends);
    }
    ends.bad
}
