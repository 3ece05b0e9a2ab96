// The bad combinations by flags, where nothing is refused: by the lowest bad cost, each by its own windows, or by the sieve (document 02,
// request 6).
ghost use Rattle.std.specs.Prelude.{◌≡◌, false, ℕ, ◌<◌, leb, get_or};
ghost use Rattle.search.specs.Choice.{◌when◌else◌};
ghost use Rattle.table.specs.Read.{table_of};
ghost use Rattle.windows.specs.Code.Load.{load_of};
ghost use Rattle.packing.specs.Packing.{combinations};
ghost use Rattle.misses.specs.Bad.{by_windows};
ghost use Rattle.misses.specs.Sieve.{by_sieve};
ghost use Rattle.misses.specs.Code.Held.{missed_at};
ghost use Rattle.misses.specs.Code.Settling.{over_with, Costs, Tries};
ghost use Rattle.misses.specs.Code.Packings.{Ready, Leaves};

use crate::pricing::{prices, sets_of};
use crate::settling::{lowest_bad, over};
use crate::{How, Left, Packings, Pieces, Settled};
use packing::COMBINATIONS;
use table::Table;
use windows::{Others, Own, Windows, least_called, load};

// The flags of all sets, by what they cost. The lowest bad cost is above 0, so a set that is no combination, whose price is 0, has
// no flag; nor has the empty set, which the packing never looks at.
fn flags(costs: &[u64; COMBINATIONS], lowest: u64) -> [u8; COMBINATIONS]
    ensures { (m : ℕ) → m < combinations → get_or result m 0 ≡ (1 when leb lowest (get_or costs.now m 0) else 0) }
{
    let mut out = [0u8; COMBINATIONS];
    for m in 0..COMBINATIONS {
        out[m] = u8::from(lowest <= costs[m]);
    }
    out
}

// The flags of the sets that there are, each by its own windows. A set that is no combination has the price 0, as the empty set has,
// which is not bad where anything is packed.
fn flags_by_windows(
    s: &[u8],
    own: Own,
    held: &[u64; Own::HELD],
    close: u32,
    costs: &[u64; COMBINATIONS],
    sets: usize,
) -> [u8; COMBINATIONS]
    requires { Tries (load_of s.now own held.now) close × (over_with (load_of s.now own held.now) close 0 ≡ false) × Costs costs.now sets }
    ensures { (m : ℕ) → m < combinations → get_or result m 0 ≡ (1 when over_with (load_of s.now own held.now) close (get_or costs.now m 0) else 0) }
{
    let mut out = [0u8; COMBINATIONS];
    for m in 0..sets {
        out[m] = u8::from(over(s, own, held, close, costs[m]));
    }
    out
}

// What is left, where each set is tested by its own windows, or sets are bad from the lowest bad cost on: all k are missed, and
// nothing is to be packed, where the empty set is bad.
pub fn by_windows(s: &[u8], chain: usize, k: u32, w: Windows, p: Pieces, how: How) -> Left
    requires { Ready s.now chain k w p }
    ensures { Leaves k (missed_at by_windows (table_of s.now) chain k w) result }
{
    let close = w.figures.close;
    let mut held = [0u64; Own::HELD];
    let own = load(s, chain, Others::Typical, &mut held);
    if over(s, own, &held, close, 0) {
        return Left::Known(k);
    }
    let costs = prices(p);
    let sets = sets_of(p.count);
    let bad = match how {
        How::Each => flags_by_windows(s, own, &held, close, &costs, sets),
        _ => flags(&costs, lowest_bad(s, own, &held, close, &costs, sets)),
    };
    let capacity = p.capacity;
    Left::Packed(Packings {
        late: w.figures.late,
        bad,
        capacity,
    })
}

// What the empty set costs.
const NO_COST: u64 = 0;

// What is left, where sets are called bad from the least cost called bad on: all k are missed at most, and nothing is to be packed,
// where the empty set is called bad.
pub fn by_sieve(s: &[u8], chain: usize, k: u32, w: Windows, p: Pieces) -> Left
    requires { Ready s.now chain k w p }
    ensures { Leaves k (missed_at by_sieve (table_of s.now) chain k w) result }
{
    let mut held = [0u64; Own::HELD];
    let own = load(s, chain, Others::Typical, &mut held);
    let lowest = least_called(s, own, &held, w.figures.close, Settled::BEYOND);
    if lowest == NO_COST {
        return Left::Known(k);
    }
    let bad = flags(&prices(p), lowest);
    let capacity = p.capacity;
    Left::Packed(Packings {
        late: w.figures.late,
        bad,
        capacity,
    })
}
