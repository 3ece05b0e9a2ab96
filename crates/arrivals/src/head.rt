// Distances that add up (document 02, request 9): the greatest sums, place by place, and after a head by the best step.
// A loop up to n goes over `1..n + 1`: `1..=n` has a second way out, at its last turn, which would be proved once more.
ghost use Rattle.std.specs.Prelude.{◌≡◌, max, min, ◌+◌, ◌*◌, ◌-◌, ◌≤◌, ◌<◌, length};
ghost use Rattle.search.specs.Choice.{Tells};
ghost use Rattle.table.specs.Limits.{max_distances};
ghost use Rattle.table.specs.Code.Listed.{listed_from, distances_from, Lists};
ghost use Rattle.arrivals.specs.Arrivals.{repeated, δ, Best, η};
ghost use Rattle.arrivals.specs.Code.Bounds.{longest_span, farthest};
ghost use Rattle.arrivals.specs.Code.Sums.{AddsUp, AddsWith, Better, head_of, places, SumsAt, FirstSum, GreatestTo, UsefulIn, FirstFrom};

use crate::repetition::{as_listed, below};
use table::{Table, listed_from};

// No sum of the head is as large.
const NEVER: u64 = 1_000_000_000;

// What the repeated list has for m steps, m up to two lists.
fn repeated_to(s: &[u8], list: usize, m: usize) -> u64
    requires { Lists s.now list × (m ≤ 2 * listed_from s.now list) }
    ensures { result ≡ repeated (distances_from s.now list) (m + 1) }
{
    let listed = listed_from(s, list);
    if m <= listed {
        return as_listed(s, list, m);
    }
    as_listed(s, list, listed) + as_listed(s, list, m - listed)
}

// Whether a step of i and one of any length up to i come to no more than the repeated list has.
fn adds_with(s: &[u8], list: usize, i: usize) -> bool
    requires { Lists s.now list × (i ≤ listed_from s.now list) }
    ensures { Tells result (AddsWith (distances_from s.now list) i) }
{
    let own = as_listed(s, list, i);
    for j in 1..i + 1 {
        if repeated_to(s, list, i + j) < own + as_listed(s, list, j) {
            return false;
        }
    }
    true
}

// Whether the repeated list adds up.
pub fn adds_up(s: &[u8], list: usize) -> bool
    requires { Lists s.now list }
    ensures { Tells result (AddsUp (distances_from s.now list)) }
{
    let listed = listed_from(s, list);
    for i in 1..listed + 1 {
        if !adds_with(s, list, i) {
            return false;
        }
    }
    true
}

// Of two steps the one with the greater distance for its length, a where they are alike.
fn better(s: &[u8], list: usize, a: usize, b: usize) -> usize
    requires { Lists s.now list × (1 ≤ a) × (a ≤ listed_from s.now list) × (1 ≤ b) × (b ≤ listed_from s.now list) }
    ensures { Better (distances_from s.now list) a b result }
{
    if as_listed(s, list, a) * (b as u64) < as_listed(s, list, b) * (a as u64) {
        b
    } else {
        a
    }
}

// A best step.
fn best_step(s: &[u8], list: usize) -> usize
    requires { Lists s.now list }
    ensures { Best (distances_from s.now list) result }
{
    let listed = listed_from(s, list);
    let mut best: usize = 1;
    for j in 2..listed + 1 {
        best = better(s, list, best, j);
    }
    best
}

// The greatest sum for m steps whose last is no longer than `most`, by those of the eight numbers before: that of i steps stands at i % 8.
fn greatest_to(s: &[u8], list: usize, sums: &[u64; Table::DISTANCES], m: usize, most: usize) -> u64
    requires { Lists s.now list × (most ≤ m) × (most ≤ listed_from s.now list) × (m ≤ places) × SumsAt (distances_from s.now list) (m - 1) sums.now }
    ensures { GreatestTo (distances_from s.now list) m (most + 1) result }
{
    let mut best: u64 = 0;
    for j in 1..most + 1 {
        best = best.max(as_listed(s, list, j) + sums[(m - j) % Table::DISTANCES]);
    }
    best
}

// Puts the greatest sum for m steps in its place.
fn put_sum(s: &[u8], list: usize, sums: &mut [u64; Table::DISTANCES], m: usize)
    requires { Lists s.now list × (1 ≤ m) × (m ≤ places) × SumsAt (distances_from s.now list) (m - 1) sums.old }
    ensures { SumsAt (distances_from s.now list) m sums.new }
{
    let most = listed_from(s, list).min(m);
    sums[m % Table::DISTANCES] = greatest_to(s, list, sums, m, most);
}

// The first number of steps whose greatest sum is t or more, or `most`. Its sum is the last that was put.
fn first_sum(
    s: &[u8],
    list: usize,
    sums: &mut [u64; Table::DISTANCES],
    t: u64,
    most: usize,
) -> usize
    requires { Lists s.now list × (most ≤ places) × SumsAt (distances_from s.now list) 0 sums.old }
    ensures { FirstSum (distances_from s.now list) t most result × SumsAt (distances_from s.now list) result sums.new }
{
    for m in 0..most {
        if t <= sums[m % Table::DISTANCES] {
            return m;
        }
        put_sum(s, list, sums, m + 1);
    }
    most
}

// δ(m + 1), place by place.
pub fn sum_at(s: &[u8], list: usize, m: usize) -> u64
    requires { Lists s.now list × (m ≤ places) }
    ensures { result ≡ δ (distances_from s.now list) (m + 1) }
{
    let mut sums = [0u64; Table::DISTANCES];
    let at = first_sum(s, list, &mut sums, NEVER, m);
    sums[at % Table::DISTANCES]
}

// The smaller of η(t) and `most`, place by place.
pub fn count_to(s: &[u8], list: usize, t: u64, most: usize) -> usize
    requires { Lists s.now list × (most ≤ places) }
    ensures { result ≡ min (η (distances_from s.now list) t) most }
{
    let mut sums = [0u64; Table::DISTANCES];
    first_sum(s, list, &mut sums, t, most)
}

// Puts the sums of the first list in their places, and which steps are useful: those that come to more than shorter ones together. The
// first always is one. How many there are is returned; no other step is needed for a greatest sum.
fn find_useful(
    s: &[u8],
    list: usize,
    sums: &mut [u64; Table::DISTANCES],
    steps: &mut [usize; Table::DISTANCES],
) -> usize
    requires { Lists s.now list × SumsAt (distances_from s.now list) 0 sums.old × (length steps.old ≡ max_distances) }
    ensures { SumsAt (distances_from s.now list) (listed_from s.now list) sums.new × UsefulIn (distances_from s.now list) (listed_from s.now list) steps.new result }
{
    let listed = listed_from(s, list);
    sums[1] = as_listed(s, list, 1);
    steps[0] = 1;
    let mut n: usize = 1;
    for m in 2..listed + 1 {
        let shorter = greatest_to(s, list, sums, m, m - 1);
        let own = as_listed(s, list, m);
        steps[n] = m;
        n += below(shorter, own) as usize;
        sums[m % Table::DISTANCES] = shorter.max(own);
    }
    n
}

// Puts the greatest sum for m steps in its place, past the first list, by the n useful steps.
fn put_by_useful(
    s: &[u8],
    list: usize,
    sums: &mut [u64; Table::DISTANCES],
    steps: &[usize; Table::DISTANCES],
    n: usize,
    m: usize,
)
    requires { Lists s.now list × (listed_from s.now list < m) × (m ≤ places) × SumsAt (distances_from s.now list) (m - 1) sums.old × UsefulIn (distances_from s.now list) (listed_from s.now list) steps.now n }
    ensures { SumsAt (distances_from s.now list) m sums.new }
{
    let mut best: u64 = 0;
    let useful = &steps[..n];
    for step in useful {
        best = best.max(as_listed(s, list, *step) + sums[(m - *step) % Table::DISTANCES]);
    }
    sums[m % Table::DISTANCES] = best;
}

// δ(m + 1), place by place past the first list.
fn sum_past(s: &[u8], list: usize, m: usize) -> u64
    requires { Lists s.now list × (listed_from s.now list < m + max_distances) × (m ≤ places) }
    ensures { result ≡ δ (distances_from s.now list) (m + 1) }
{
    let mut sums = [0u64; Table::DISTANCES];
    let mut steps = [0usize; Table::DISTANCES];
    let n = find_useful(s, list, &mut sums, &mut steps);
    for at in listed_from(s, list)..m {
        put_by_useful(s, list, &mut sums, &steps, n, at + 1);
    }
    sums[m % Table::DISTANCES]
}

// How many steps the head has, or the list where that is longer.
fn head_of(s: &[u8], list: usize, step: usize) -> usize
    requires { Lists s.now list × (step ≤ listed_from s.now list) }
    ensures { result ≡ max (head_of (distances_from s.now list) step) (listed_from s.now list) }
{
    let listed = listed_from(s, list);
    if step <= 2 {
        return listed;
    }
    (step - 1) * listed
}

// δ(m + 1): past the head each best step adds its distance.
pub fn distance_past(s: &[u8], list: usize, m: u64) -> u64
    requires { Lists s.now list × (listed_from s.now list ≤ m) × (m < farthest) }
    ensures { result ≡ δ (distances_from s.now list) (m + 1) }
{
    let step = best_step(s, list);
    let head = head_of(s, list, step);
    let whole = (m + step as u64).saturating_sub(head as u64 + 1) / step as u64;
    let rest = (m - whole * step as u64) as usize;
    whole * as_listed(s, list, step) + sum_past(s, list, rest)
}

// The first number of steps from `from` on, up to `end`, whose sum is t or more.
fn first_from(sums: &[u64; Table::DISTANCES], from: usize, end: usize, t: u64) -> usize
    requires { (from ≤ end) × (end ≤ places) × (length sums.now ≡ max_distances) }
    ensures { FirstFrom sums.now from end t result }
{
    for r in from..end {
        if t <= sums[r % Table::DISTANCES] {
            return r;
        }
    }
    end
}

// η(t), which lies past the first list: in the head place by place; past it by best steps, and what lies inside the remainder.
pub fn count_past(s: &[u8], list: usize, t: u64) -> u64
    requires { Lists s.now list × (listed_from s.now list ≤ η (distances_from s.now list) t) × (t ≤ longest_span) }
    ensures { result ≡ η (distances_from s.now list) t }
{
    let step = best_step(s, list);
    let head = head_of(s, list, step);
    let mut sums = [0u64; Table::DISTANCES];
    let mut steps = [0usize; Table::DISTANCES];
    let n = find_useful(s, list, &mut sums, &mut steps);
    let end = head + 1;
    for m in listed_from(s, list)..end {
        if t <= sums[m % Table::DISTANCES] {
            return m as u64;
        }
        put_by_useful(s, list, &mut sums, &steps, n, m + 1);
    }
    let distance = as_listed(s, list, step);
    let whole = (t + distance - 1).saturating_sub(sums[end % Table::DISTANCES]) / distance;
    let last = first_from(&sums, end + 1 - step, end, t - whole * distance);
    whole * step as u64 + last as u64
}
