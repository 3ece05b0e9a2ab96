// What the combinations cost. A price of 0 stands for 'no combination': the one combination that costs 0 is the empty set, and
// that is not bad where prices are made: where it is, all k are missed, and nothing is packed.
ghost use Rattle.std.specs.Prelude.{◌≡◌, List, ℕ, ◌^◌, ◌≤◌, ◌<◌, get_or};
ghost use Rattle.table.specs.Limits.{max_overloads};
ghost use Rattle.packing.specs.Packing.{combinations};
ghost use Rattle.misses.specs.Code.Held.{pieces_at, agrees_at, agrees_after, price_of, Few, pieces_in};
ghost use Rattle.segments.specs.Code.Held.{dearest};

use crate::Pieces;
use packing::{COMBINATIONS, has};
use table::Table;

// Whether the active segment i may stand with the active segment j, if that is in the set m.
fn agrees(
    chain: &[usize; Table::OVERLOADS],
    segment: &[usize; Table::OVERLOADS],
    m: usize,
    i: usize,
    j: usize,
) -> bool
    requires { (i < max_overloads) × (j < max_overloads) }
    ensures { result ≡ agrees_at chain.now segment.now m i j }
{
    has(m, j) == 0 || chain[i] != chain[j] || segment[i] == segment[j]
}

// Whether the active segment i may stand with those of the set m that come after it.
fn agrees_with_all(
    chain: &[usize; Table::OVERLOADS],
    segment: &[usize; Table::OVERLOADS],
    n: usize,
    m: usize,
    i: usize,
) -> bool
    requires { (i < n) × (n ≤ max_overloads) }
    ensures { (costs : List ℕ) → result ≡ agrees_after chain.now segment.now costs n m i }
{
    (i + 1..n).all(|j| agrees(chain, segment, m, i, j))
}

// What the set m costs, 0 where it is no combination.
fn price(
    chain: &[usize; Table::OVERLOADS],
    segment: &[usize; Table::OVERLOADS],
    cost: &[u64; Table::OVERLOADS],
    n: usize,
    m: usize,
) -> u64
    requires { (n ≤ max_overloads) × (m < 2 ^ n) × ((i : ℕ) → get_or cost.now i 0 ≤ dearest) }
    ensures { result ≡ price_of (pieces_at chain.now segment.now cost.now n 0) m }
{
    let mut sum: u64 = 0;
    for i in 0..n {
        if has(m, i) == 1 {
            if !agrees_with_all(chain, segment, n, m, i) {
                return 0;
            }
            sum += cost[i];
        }
    }
    sum
}

// How many sets there are of n active segments.
pub fn sets_of(n: usize) -> usize
    requires { n ≤ max_overloads }
    ensures { (result ≡ 2 ^ n) × (result ≤ combinations) }
{
    1 << n
}

// What each set costs, 0 where it is no combination: so it is past the sets of the active segments that there are.
pub fn prices(p: Pieces) -> [u64; COMBINATIONS]
    requires { Few p }
    ensures { (m : ℕ) → m < combinations → get_or result m 0 ≡ price_of (pieces_in p) m }
{
    let chain = p.chain;
    let segment = p.segment;
    let cost = p.cost;
    let n = p.count;
    let sets = sets_of(n);
    let mut out = [0u64; COMBINATIONS];
    for m in 0..sets {
        out[m] = price(&chain, &segment, &cost, n, m);
    }
    out
}
