// Packings (document 01, 'Misses'): how often bad combinations can be used at most, no active segment beyond its capacity.
//
// How it is found:
// 1. Only the smallest bad combinations are kept, those with no other bad one in them: wherever a larger one is used, the smaller one
//    can be used in its place, and takes less room.
// 2. Weights give a bound. Let each active segment weigh something. What is used weighs no more than all the room there is; so where
//    each kept combination weighs d at least, there are no more uses than the room's weight divided by d. Some weights bound well for
//    some combinations: a table has them, and those that may be the best ones here are chosen from it once (`weights`).
// 3. The least of these bounds is tried first, then one use less, and so on: the first number of uses that have room is the answer.
// 4. Whether so many uses have room: the last kept combination is used as often as nothing rules out, then once less, and so on, and
//    the rest of the uses is left to the combinations before it. Its own room and the weights rule uses out.
// 5. Where no more than some number of uses is asked for, no more are looked for. A first try goes without weights then: where each
//    combination in turn, used as often as it fits, has so many uses, none are needed.
// Weights are sound whatever they are: a wrong digit in the table, or a bad choice, costs time and never changes the answer.
#![tactic(auto)]

mod masks;
mod weights;

ghost use Rattle.std.specs.Prelude.{◌≡◌, ◌≤◌, ◌<◌, min};
ghost use Rattle.packing.specs.Packing.{sum_to, combinations};
ghost use Rattle.packing.specs.Most.{most_uses, flagged, capacity};
ghost use Rattle.packing.specs.Code.Engine.{HasRoom, Ceiling, Lowers, MostUpTo, Choices, max_room, max_chosen, max_weight};
ghost use Rattle.search.specs.Choice.{Tells};
ghost use Rattle.table.specs.Limits.{max_overloads};

pub use masks::has;
use table::Table;

// The masks of as many bits as there may be active segments.
pub const COMBINATIONS: usize = 1 << Table::OVERLOADS;

// `need` uses of the kept combinations up to the one at `last`.
#[derive(Clone, Copy)]
struct Wanted {
    last: usize,
    need: u32,
}

// All the room there is.
fn total(room: &[u8; Table::OVERLOADS]) -> u32
    ensures { (result ≡ sum_to max_overloads (capacity room.now)) × (result ≤ max_room) }
{
    let mut all: u32 = 0;
    for r in room {
        all += u32::from(*r);
    }
    all
}

// What the weighting v leaves of the bound r: still a bound.
fn lower_ceiling(
    kept: &[usize; COMBINATIONS],
    count: usize,
    shares: &[u8; weights::SHARES],
    v: usize,
    room: &[u8; Table::OVERLOADS],
    r: u32,
) -> u32
    requires { (count ≤ combinations) × (v < max_chosen) }
    ensures { Lowers kept.now count (capacity room.now) r result }
{
    if r == 0 {
        return r;
    }
    let all = weights::weigh(shares, v, room);
    let d = weights::floor(kept, count, shares, v, weights::HEAVIEST, all / r);
    if d == 0 {
        return r;
    }
    r.min(all / d)
}

// The linear bound: no packing of the kept combinations that has up to `limit` uses has more.
fn ceiling(
    kept: &[usize; COMBINATIONS],
    count: usize,
    shares: &[u8; weights::SHARES],
    used: usize,
    room: &[u8; Table::OVERLOADS],
    limit: u32,
) -> u32
    requires { (count ≤ combinations) × (used ≤ max_chosen) }
    ensures { Ceiling kept.now count (capacity room.now) limit result }
{
    let mut r = limit;
    for v in 0..used {
        r = lower_ceiling(kept, count, shares, v, room, r);
    }
    r
}

// Up to which floor d a weighting rules none of 0, 1, .., x uses of a combination of weight w out, where the room weighs `all`:
// x uses of weight w and need - x uses of weight d still have room. A wrong number would cost time, and nothing else.
fn idle(all: u32, w: u32, need: u32, x: u32) -> u32
    requires { (w ≤ max_weight) × (x ≤ max_room) }
{
    if need <= x {
        return w;
    }
    let spent = w * x;
    if all < spent {
        return w;
    }
    (all - spent) / (need - x)
}

// What the weighting v leaves of the choices x for what is wanted: with y uses of the kept combination `last`, what the room weighs must be enough for
// these, and for d times the uses of those before it.
fn lower_choices(
    kept: &[usize; COMBINATIONS],
    shares: &[u8; weights::SHARES],
    v: usize,
    wanted: Wanted,
    room: &[u8; Table::OVERLOADS],
    x: u32,
) -> u32
    requires { (v < max_chosen) × (wanted.last < combinations) × (wanted.need ≤ max_room) × Choices kept.now wanted.last (capacity room.now) wanted.need x }
    ensures { Choices kept.now wanted.last (capacity room.now) wanted.need result }
{
    if x == 0 {
        return x;
    }
    let last = wanted.last;
    let need = wanted.need;
    let w = weights::weigh(shares, v, &masks::bits(kept[last]));
    let all = weights::weigh(shares, v, room);
    let d = weights::floor(kept, last, shares, v, w, idle(all, w, need, x - 1));
    if d == 0 {
        return x;
    }
    if all < need * d {
        return 0;
    }
    if d == w {
        return x;
    }
    x.min((all - need * d) / (w - d) + 1)
}

// For what is wanted: one more than the most uses of the kept combination `last` that nothing rules out, 0 if there is no room for
// `need` uses.
fn choices(
    kept: &[usize; COMBINATIONS],
    shares: &[u8; weights::SHARES],
    used: usize,
    wanted: Wanted,
    room: &[u8; Table::OVERLOADS],
) -> u32
    requires { (used ≤ max_chosen) × (wanted.last < combinations) × (wanted.need ≤ max_room) }
    ensures { Choices kept.now wanted.last (capacity room.now) wanted.need result }
{
    let last = wanted.last;
    let mut x = masks::fitting(room, kept[last], wanted.need) + 1;
    for v in 0..used {
        x = lower_choices(kept, shares, v, wanted, room, x);
    }
    x
}

// Whether `need` uses of the first n kept combinations have room. The last of these is used as often as nothing rules out, then
// once less, and so on, and the rest is left to those before it.
fn has_room(
    kept: &[usize; COMBINATIONS],
    shares: &[u8; weights::SHARES],
    used: usize,
    n: usize,
    room: [u8; Table::OVERLOADS],
    need: u32,
) -> bool
    requires { (used ≤ max_chosen) × (n ≤ combinations) × (need ≤ max_room) }
    ensures { Tells result (HasRoom kept.now n (capacity room) need) }
{
    if need == 0 {
        return true;
    }
    if n == 0 {
        return false;
    }
    let last = n - 1;
    let x = choices(kept, shares, used, Wanted { last, need }, &room);
    for uses in (0..x).rev() {
        if has_room(
            kept,
            shares,
            used,
            last,
            masks::spend(&room, kept[last], uses),
            need - uses,
        ) {
            return true;
        }
    }
    false
}

// The most uses of the kept combinations, up to `limit`. From the linear bound downwards, the first number of uses that have room.
fn fullest(
    kept: &[usize; COMBINATIONS],
    count: usize,
    room: &[u8; Table::OVERLOADS],
    limit: u32,
) -> u32
    requires { (count ≤ combinations) × (limit ≤ max_room) }
    ensures { MostUpTo kept.now count (capacity room.now) limit result }
{
    let mut shares = [0u8; weights::SHARES];
    let used = weights::choose(kept, count, &mut shares);
    let mut need = ceiling(kept, count, &shares, used, room, limit);
    while !has_room(kept, &shares, used, count, *room, need) {
        need -= 1;
    }
    need
}

// How many uses a first try packs, up to `limit`: from the last kept combination on, each as often as it fits in the room that is
// left. There may be room for more.
fn first_try(
    kept: &[usize; COMBINATIONS],
    count: usize,
    room: &[u8; Table::OVERLOADS],
    limit: u32,
) -> u32
    requires { (count ≤ combinations) × (limit ≤ max_room) }
    ensures { HasRoom kept.now count (capacity room.now) result }
{
    let mut left = *room;
    let mut found: u32 = 0;
    for n in (0..count).rev() {
        let m = kept[n];
        let uses = masks::fitting(&left, m, limit - found);
        left = masks::spend(&left, m, uses);
        found += uses;
    }
    found
}

// The most uses any packing has of the combinations that `bad` flags with 1, with the capacities `room`, but no more than `enough`. The
// flag of the empty combination, `bad[0]`, is not looked at.
pub fn uses_up_to(bad: &[u8; COMBINATIONS], room: &[u8; Table::OVERLOADS], enough: u32) -> u32
    ensures { result ≡ min enough (most_uses (flagged bad.now) (capacity room.now)) }
{
    let mut kept = [0usize; COMBINATIONS];
    let count = masks::minimal(bad, &mut kept);
    let limit = enough.min(total(room));
    if first_try(&kept, count, room, limit) == limit {
        return limit;
    }
    fullest(&kept, count, room, limit)
}

// The most uses any packing has: the same without such a number, since there are never more than all the room there is.
pub fn most_uses(bad: &[u8; COMBINATIONS], room: &[u8; Table::OVERLOADS]) -> u32
    ensures { result ≡ most_uses (flagged bad.now) (capacity room.now) }
{
    let mut kept = [0usize; COMBINATIONS];
    let count = masks::minimal(bad, &mut kept);
    fullest(&kept, count, room, total(room))
}
