// Arrivals (documents 01 and 02): δ and η by the list of distances that starts at `list` in the stored bytes, and the largest distances of
// the chain whose record stands at `at`.
#![tactic(auto)]

mod head;
mod repetition;

ghost use Rattle.std.specs.Prelude.{◌≡◌, ◌+◌, ◌≤◌, ◌<◌, min, length};
ghost use Rattle.table.specs.Limits.{max_run};
ghost use Rattle.table.specs.Record.{form_at, head_length, known_at, row_at, largests};
ghost use Rattle.table.specs.Code.Listed.{listed_from, distances_from, Lists};
ghost use Rattle.table.specs.Code.Taken.{Stands};
ghost use Rattle.arrivals.specs.Arrivals.{as_listed, δ, η, largest as largestOf, unknown as unknownOf};
ghost use Rattle.arrivals.specs.Code.Bounds.{longest_span, farthest};

use crate::head::{adds_up, count_past, count_to, distance_past, sum_at};
use crate::repetition::{as_listed, below, repeated_at, repeated_count, split};
use table::{flag_at, gap_at, largest_at, listed_at, listed_from};

// δ(m + 1) by a list of more than one distance. In the first list it is worked out place by place; a list that already adds up repeats.
fn delta_by_list(s: &[u8], list: usize, m: u64) -> u64
    requires { Lists s.now list × (m < farthest) }
    ensures { result ≡ δ (distances_from s.now list) (m + 1) }
{
    if m <= 1 {
        return m * as_listed(s, list, 1);
    }
    let listed = listed_from(s, list) as u64;
    if m <= listed {
        return sum_at(s, list, m as usize);
    }
    if adds_up(s, list) {
        let before = split(m, listed);
        return repeated_at(s, list, before.lists, before.rest);
    }
    distance_past(s, list, m)
}

// δ(n).
pub fn delta(s: &[u8], list: usize, n: u64) -> u64
    requires { Lists s.now list × (1 ≤ n) × (n ≤ farthest) }
    ensures { result ≡ δ (distances_from s.now list) n }
{
    if listed_from(s, list) == 1 {
        return (n - 1) * as_listed(s, list, 1);
    }
    delta_by_list(s, list, n - 1)
}

// η(t) by a list of one distance, where it is known to be no less than `from`. Mostly it is that or one more, which is told without a
// division.
fn eta_by_one(s: &[u8], list: usize, t: u64, from: u64) -> u64
    requires { Lists s.now list × (listed_from s.now list ≡ 1) × (t ≤ longest_span) × (from ≤ η (distances_from s.now list) t) }
    ensures { result ≡ η (distances_from s.now list) t }
{
    let distance = as_listed(s, list, 1);
    let next = from * distance;
    if t <= next {
        return from;
    }
    if t <= next + distance {
        return from + 1;
    }
    (t - 1) / distance + 1
}

// η(t) that reaches to the end of the first list: by whole lists where these add up, else by best steps.
fn eta_past(s: &[u8], list: usize, t: u64) -> u64
    requires { Lists s.now list × (listed_from s.now list ≤ η (distances_from s.now list) t) × (t ≤ longest_span) }
    ensures { result ≡ η (distances_from s.now list) t }
{
    if adds_up(s, list) {
        return repeated_count(s, list, t);
    }
    count_past(s, list, t)
}

// η(t) where a count past the first list is known. Often it is that, which 01's distance tells, since δ is never below it.
fn eta_known(s: &[u8], list: usize, t: u64, from: u64) -> u64
    requires { Lists s.now list × (listed_from s.now list ≤ from) × (t ≤ longest_span) × (from ≤ η (distances_from s.now list) t) }
    ensures { result ≡ η (distances_from s.now list) t }
{
    let known = split(from, listed_from(s, list) as u64);
    if t <= repeated_at(s, list, known.lists, known.rest) {
        return from;
    }
    eta_past(s, list, t)
}

// η(t) by a list of more. Where it may lie in the first list, it is counted there place by place.
fn eta_by_list(s: &[u8], list: usize, t: u64, from: u64) -> u64
    requires { Lists s.now list × (t ≤ longest_span) × (from ≤ η (distances_from s.now list) t) }
    ensures { result ≡ η (distances_from s.now list) t }
{
    if t <= as_listed(s, list, 1) {
        return below(0, t);
    }
    let listed = listed_from(s, list);
    if listed as u64 <= from {
        return eta_known(s, list, t, from);
    }
    let n = count_to(s, list, t, listed);
    if n < listed {
        return n as u64;
    }
    eta_past(s, list, t)
}

// η(t) where it is known to be no less than `from`.
pub fn eta_from(s: &[u8], list: usize, t: u64, from: u64) -> u64
    requires { Lists s.now list × (t ≤ longest_span) × (from ≤ η (distances_from s.now list) t) }
    ensures { result ≡ η (distances_from s.now list) t }
{
    if listed_from(s, list) == 1 {
        return eta_by_one(s, list, t, from);
    }
    eta_by_list(s, list, t, from)
}

// The smaller of η(t) and `most`. It asks the two by itself: a second call keeps `eta_by_list` out of `eta_from`, which so stays small enough
// for a climb's loop.
pub fn eta_up_to(s: &[u8], list: usize, t: u64, most: u64) -> u64
    requires { Lists s.now list × (t ≤ longest_span) }
    ensures { result ≡ min (η (distances_from s.now list) t) most }
{
    if listed_from(s, list) == 1 {
        return eta_by_one(s, list, t, 0).min(most);
    }
    eta_by_list(s, list, t, 0).min(most)
}

// The largest distance of 1 + j activations as listed.
fn largest_listed(s: &[u8], at: usize, j: usize) -> u64
    requires { Stands s.now at × (j ≤ known_at s.now at) }
    ensures { result ≡ as_listed (largests (row_at s.now at)) j }
{
    if j == 0 {
        return 0;
    }
    largest_at(s, at, j - 1) as u64
}

// The largest distance of k activations.
pub fn largest(s: &[u8], at: usize, k: u32) -> u64
    requires { Stands s.now at × (1 ≤ k) × (k ≤ max_run) }
    ensures { result ≡ largestOf (row_at s.now at) k }
{
    let steps = (k - 1) as u64;
    if flag_at(s, at) != 1 {
        return steps * gap_at(s, at) as u64;
    }
    let listed = listed_at(s, at);
    let before = split(steps, listed as u64);
    before.lists * largest_listed(s, at, listed) + largest_listed(s, at, before.rest)
}

// Whether it is unknown.
pub fn unknown(s: &[u8], at: usize) -> bool
    requires { at + head_length (form_at s.now at) ≤ length s.now }
    ensures { result ≡ unknownOf (row_at s.now at) }
{
    gap_at(s, at) == 0 && flag_at(s, at) == 0
}
