// Distances by document 01's rule, by which a list repeats: smallest ones where that adds up, and largest ones.
ghost use Rattle.std.specs.Prelude.{◌≡◌, ◌+◌, ◌*◌, ◌/◌, ◌%◌, ◌≤◌, ◌<◌, ltb};
ghost use Rattle.search.specs.Choice.{◌when◌else◌};
ghost use Rattle.table.specs.Code.Listed.{listed_from, distances_from, Lists};
ghost use Rattle.arrivals.specs.Arrivals.{as_listed, repeated, count_by};
ghost use Rattle.arrivals.specs.Code.Bounds.{longest_span, farthest};
ghost use Rattle.arrivals.specs.Code.WithinList.{within_list};

use table::{distance_from, listed_from};

// Steps along a list that goes on: so many whole lists, and the rest in the next.
#[derive(Clone, Copy)]
pub struct Steps {
    pub lists: u64,
    pub rest: usize,
}

// The distance of 1 + j activations as listed.
pub fn as_listed(s: &[u8], list: usize, j: usize) -> u64
    requires { Lists s.now list × (j ≤ listed_from s.now list) }
    ensures { result ≡ as_listed (distances_from s.now list) j }
{
    if j == 0 {
        return 0;
    }
    distance_from(s, list, j - 1) as u64
}

// The distance after i whole lists and j steps into the next, at most to its end.
pub fn repeated_at(s: &[u8], list: usize, i: u64, j: usize) -> u64
    requires { Lists s.now list × (j ≤ listed_from s.now list) × (i * listed_from s.now list + j < farthest) }
    ensures { result ≡ repeated (distances_from s.now list) (i * listed_from s.now list + j + 1) }
{
    i * as_listed(s, list, listed_from(s, list)) + as_listed(s, list, j)
}

// n steps, split. A list of one distance needs no division.
pub fn split(n: u64, listed: u64) -> Steps
    requires { 0 < listed }
    ensures { (result.lists ≡ n / listed) × (result.rest ≡ n % listed) }
{
    if listed == 1 {
        return Steps { lists: n, rest: 0 };
    }
    Steps {
        lists: n / listed,
        rest: (n % listed) as usize,
    }
}

// 1 where a distance lies below x.
pub fn below(distance: u64, x: u64) -> u64
    ensures { result ≡ (1 when ltb distance x else 0) }
{
    u64::from(distance < x)
}

// How many of a list's own activations lie within x; its last distance is that of the next one's first. The loop does not stop at
// the first that lies beyond: a processor cannot foresee where that is, and a wrong guess takes longer than the rest of the list.
fn within_list(s: &[u8], list: usize, x: u64) -> u64
    requires { Lists s.now list × (0 < x) }
    ensures { result ≡ within_list (distances_from s.now list) x (listed_from s.now list) }
{
    let listed = listed_from(s, list);
    let mut n: u64 = 1;
    for j in 1..listed {
        n += below(as_listed(s, list, j), x);
    }
    n
}

// Counted by whole lists, and what lies inside the remainder, which is at least 1 and at most the last distance.
pub fn repeated_count(s: &[u8], list: usize, t: u64) -> u64
    requires { Lists s.now list × (0 < t) × (t ≤ longest_span) }
    ensures { result ≡ count_by repeated (distances_from s.now list) t }
{
    let listed = listed_from(s, list);
    let last = as_listed(s, list, listed);
    let lists = (t - 1) / last;
    lists * (listed as u64) + within_list(s, list, t - lists * last)
}
