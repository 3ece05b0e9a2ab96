// The plain engine: every packing, one after the other, as an odometer counts. A digit for each combination says how often it is
// used; that of combination 1 turns fastest. Nothing is left out, and the most uses are kept. It shares no code with the engine of
// `packing`, and comes to the same number by another way.
#![tactic(auto)]

ghost use Rattle.std.specs.Prelude.{◌≡◌, Bool, false, ℕ, ◌+◌, ◌*◌, ◌≤◌, ◌<◌, max};
ghost use Rattle.search.specs.Choice.{Tells};
ghost use Rattle.table.specs.Limits.{max_overloads};
ghost use Rattle.packing.specs.Packing.{bit, combinations};
ghost use Rattle.packing.specs.Most.{most_uses, flagged, capacity};
ghost use Rattle.packing.specs.Code.Engine.{max_byte};
ghost use Rattle.odometer.specs.Code.Gone.{Gone, Going, GoesOn, uses_of};
ghost use Rattle.odometer.specs.Code.Steps.{Fits, Raisable, Resettable, Changed};

use packing::COMBINATIONS;
use table::Table;

// The packing it stands at, and what it found on the way there.
#[derive(Clone, Copy)]
pub struct Odometer {
    pub uses: [u8; COMBINATIONS], // how often each combination is used: the digits
    pub left: [u8; Table::OVERLOADS], // the room that these uses leave
    pub total: u32, // how many uses that is
    pub most: u32, // the most uses of a packing so far
    pub over: bool, // whether every packing has been gone through
}

// 1 if the active segment i is in the combination m, else 0. This and `spend` are not those of `packing`, since no code is shared with it.
fn has(m: usize, i: usize) -> u8
    requires { i < max_overloads }
    ensures { result ≡ bit i m }
{
    ((m >> i) & 1) as u8
}

// Whether m is bad and each of its active segments has room.
fn fits(bad: &[u8; COMBINATIONS], left: &[u8; Table::OVERLOADS], m: usize) -> bool
    requires { m < combinations }
    ensures { Tells result (Fits (flagged bad.now) (capacity left.now) m) }
{
    bad[m] == 1 && (0..Table::OVERLOADS).all(|i| has(m, i) <= left[i])
}

// The room that one use of m leaves.
fn spend(left: [u8; Table::OVERLOADS], m: usize) -> [u8; Table::OVERLOADS]
    requires { (i : ℕ) → i < max_overloads → bit i m ≤ capacity left i }
    ensures { (i : ℕ) → i < max_overloads → capacity result i + bit i m ≡ capacity left i }
{
    let mut out = [0u8; Table::OVERLOADS];
    for i in 0..Table::OVERLOADS {
        out[i] = left[i] - has(m, i);
    }
    out
}

// The room with that of n uses of m had back.
fn give_back(left: [u8; Table::OVERLOADS], m: usize, n: u8) -> [u8; Table::OVERLOADS]
    requires { (i : ℕ) → i < max_overloads → capacity left i + n * bit i m ≤ max_byte }
    ensures { (i : ℕ) → i < max_overloads → capacity result i ≡ capacity left i + n * bit i m }
{
    let mut out = [0u8; Table::OVERLOADS];
    for i in 0..Table::OVERLOADS {
        out[i] = left[i] + n * has(m, i);
    }
    out
}

impl Odometer {
    // Nothing is used: the first packing.
    pub fn start(room: [u8; Table::OVERLOADS]) -> Self
        ensures { (bad : ℕ → Bool) → Gone bad (capacity room) result }
    {
        Odometer {
            uses: [0u8; COMBINATIONS],
            left: room,
            total: 0,
            most: 0,
            over: false,
        }
    }

    // One use of m more: a packing, whose uses are counted.
    fn raise(self, m: usize) -> Self
        requires { Raisable m self }
        ensures { Changed m (uses_of self m + 1) self result × (result.most ≡ max self.most result.total) }
    {
        let mut o = self;
        let left = o.left;
        o.left = spend(left, m);
        o.uses[m] += 1;
        o.total += 1;
        o.most = o.most.max(o.total);
        o
    }

    // No use of m: its room is had back.
    fn reset(self, m: usize) -> Self
        requires { Resettable m self }
        ensures { Changed m 0 self result × (result.most ≡ self.most) }
    {
        let n = self.uses[m];
        let mut o = self;
        let left = o.left;
        o.left = give_back(left, m, n);
        o.uses[m] = 0;
        o.total -= u32::from(n);
        o
    }

    // The next packing: the first digit that can be raised is, and those before it go back to 0. Where none can, it is over.
    fn next(self, bad: &[u8; COMBINATIONS]) -> Self
        requires { (self.over ≡ false) × Going (flagged bad.now) self }
        ensures { GoesOn (flagged bad.now) 1 self result }
    {
        let mut o = self;
        for m in 1..COMBINATIONS {
            if fits(bad, &o.left, m) {
                return o.raise(m);
            }
            if o.uses[m] != 0 {
                o = o.reset(m);
            }
        }
        o.over = true;
        o
    }

    // So many packings further, or to the end: for a program that says how far it is.
    pub fn turn(self, bad: &[u8; COMBINATIONS], packings: u32) -> Self
        requires { Going (flagged bad.now) self }
        ensures { GoesOn (flagged bad.now) packings self result }
    {
        let mut o = self;
        for _ in 0..packings {
            if o.over {
                break;
            }
            o = o.next(bad);
        }
        o
    }
}

// The most uses any packing has of the combinations that `bad` flags with 1, with the capacities `room`. The flag of the empty
// combination, `bad[0]`, is not looked at.
pub fn most_uses(bad: &[u8; COMBINATIONS], room: &[u8; Table::OVERLOADS]) -> u32
    ensures { result ≡ most_uses (flagged bad.now) (capacity room.now) }
{
    let mut o = Odometer::start(*room);
    while !o.over {
        o = o.next(bad);
    }
    o.most
}
