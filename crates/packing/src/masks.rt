// A combination is a mask, one bit for each active segment; the kept combinations are a list of masks.
ghost use Rattle.std.specs.Prelude.{◌≡◌, ℕ, ◌+◌, ◌*◌, ◌<◌, ◌≤◌, ◌-◌, length, get_or};
ghost use Rattle.packing.specs.Packing.{bit, combinations};
ghost use Rattle.packing.specs.Most.{capacity};
ghost use Rattle.packing.specs.Code.Engine.{kept_part, Kept, Fitting, max_room};
ghost use Rattle.table.specs.Limits.{max_overloads};

use crate::COMBINATIONS;
use table::Table;

// 1 if the active segment i is in the combination m, else 0.
pub fn has(m: usize, i: usize) -> u8
    requires { i < max_overloads }
    ensures { result ≡ bit i m }
{
    ((m >> i) & 1) as u8
}

// The bits of m, one for each active segment.
pub(crate) fn bits(m: usize) -> [u8; Table::OVERLOADS]
    ensures { (i : ℕ) → i < max_overloads → get_or result i 0 ≡ bit i m }
{
    let mut out = [0u8; Table::OVERLOADS];
    for i in 0..Table::OVERLOADS {
        out[i] = has(m, i);
    }
    out
}

// One active segment more, i: the lesser of x and the room of i, if it is in m.
fn lesser(room: &[u8; Table::OVERLOADS], m: usize, i: usize, x: u32) -> u32
    requires { i < max_overloads }
    ensures { (need : ℕ) → Fitting m (capacity room.now) need i x → Fitting m (capacity room.now) need (i + 1) result }
{
    if has(m, i) == 0 {
        return x;
    }
    x.min(u32::from(room[i]))
}

// How often m can be used at most, up to `need` times.
pub(crate) fn fitting(room: &[u8; Table::OVERLOADS], m: usize, need: u32) -> u32
    ensures { Fitting m (capacity room.now) need max_overloads result }
{
    let mut x = need;
    for i in 0..Table::OVERLOADS {
        x = lesser(room, m, i, x);
    }
    x
}

// The room that x uses of m leave.
pub(crate) fn spend(room: &[u8; Table::OVERLOADS], m: usize, x: u32) -> [u8; Table::OVERLOADS]
    requires { (x ≤ max_room) × ((i : ℕ) → i < max_overloads → x * bit i m ≤ capacity room.now i) }
    ensures { (i : ℕ) → i < max_overloads → capacity result i ≡ capacity room.now i - x * bit i m }
{
    let mut out = [0u8; Table::OVERLOADS];
    for i in 0..Table::OVERLOADS {
        out[i] = (u32::from(room[i]) - x * u32::from(has(m, i))) as u8;
    }
    out
}

// The first of the kept combinations that is a part of m, `count` if there is none.
pub(crate) fn kept_part(kept: &[usize; COMBINATIONS], count: usize, m: usize) -> usize
    requires { count ≤ combinations }
    ensures { result ≡ kept_part kept.now count m }
{
    for j in 0..count {
        let s = kept[j];
        if s & m == s {
            return j;
        }
    }
    count
}

// Keeps m too, if it is bad and no kept combination is a part of it, and says how many are kept.
fn keep(bad: &[u8; COMBINATIONS], kept: &mut [usize; COMBINATIONS], count: usize, m: usize) -> usize
    requires { (0 < m) × (m < combinations) × Kept bad.now kept.old count m }
    ensures { Kept bad.now kept.new result (m + 1) }
{
    if bad[m] != 1 {
        return count;
    }
    if kept_part(kept, count, m) < count {
        return count;
    }
    kept[count] = m;
    count + 1
}

// Keeps the bad combinations that have no smaller bad one in them, and says how many. Nothing is lost by using these alone.
pub(crate) fn minimal(bad: &[u8; COMBINATIONS], kept: &mut [usize; COMBINATIONS]) -> usize
    requires { length kept.old ≡ combinations }
    ensures { Kept bad.now kept.new result combinations }
{
    let mut count: usize = 0;
    for m in 1..COMBINATIONS {
        count = keep(bad, kept, count, m);
    }
    count
}
