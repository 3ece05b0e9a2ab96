// The plain engine's count for one chain. Standard error has how far it is, and that it is given up.
ghost use Rattle.std.specs.Prelude.{◌≡◌, true};
ghost use Rattle.packing.specs.Most.{flagged};
ghost use Rattle.packing.specs.Most.{capacity as capacityIn};
ghost use Rattle.odometer.specs.Code.Gone.{Gone};
ghost use Rattle.misses.specs.Misses.{misses_of};
ghost use Rattle.table_misses.specs.Code.Counting.{Counts};

use misses::{Left, figure, packings_for};
use odometer::Odometer;
use packing::COMBINATIONS;
use table::{Refusal, Table};
use verdict_text::{put, put_number};

// Which packings are gone through: the first ones, as far as that takes no time to speak of, or every one.
#[derive(Clone, Copy)]
pub enum Extent {
    First,
    Every,
}

// What comes of it: the misses, or that there are more packings than were to be gone through.
#[derive(Clone, Copy)]
pub enum Count {
    Known(u32),
    GivenUp,
}

// How many are the first ones.
const FIRST: u32 = 5_000_000;

// How many are gone through from one word to the next, and how many millions that is.
const STEP: u32 = 50_000_000;

const MILLIONS: u64 = 50;

// The chain that something is said of.
fn say_chain(err: &impl Print, id: u32) -> bool {
    put(err, b"misses: chain ") && put_number(err, id as usize)
}

// That it is given up, and what to do about that.
fn say_given_up(err: &impl Print, id: u32) -> bool {
    say_chain(err, id)
        && put(
            err,
            b" has more than 5,000,000 packings; --all goes through them, which may take very long\n",
        )
}

// How far it is; nothing before the first step.
fn say_so_far(err: &impl Print, id: u32, millions: u64) -> bool {
    if millions == 0 {
        return true;
    }
    let number = say_chain(err, id) && put(err, b": ") && put_number(err, millions as usize);
    number && put(err, b" million packings so far\n")
}

// Every packing, in steps. The millions only tell how far it is: no one sees them wrap.
fn every(
    err: &impl Print,
    id: u32,
    bad: &[u8; COMBINATIONS],
    capacity: &[u8; Table::OVERLOADS],
) -> Odometer
    ensures { Gone (flagged bad.now) (capacityIn capacity.now) result × (result.over ≡ true) }
{
    let mut o = Odometer::start(*capacity);
    let mut millions: u64 = 0;
    while !o.over {
        say_so_far(err, id, millions);
        o = o.turn(bad, STEP);
        millions = millions.wrapping_add(MILLIONS);
    }
    o
}

// The packings of that extent.
fn gone_through(
    err: &impl Print,
    extent: Extent,
    id: u32,
    bad: &[u8; COMBINATIONS],
    capacity: &[u8; Table::OVERLOADS],
) -> Odometer
    ensures { Gone (flagged bad.now) (capacityIn capacity.now) result × (extent ≡ Extent.Every → result.over ≡ true) }
{
    match extent {
        Extent::First => Odometer::start(*capacity).turn(bad, FIRST),
        Extent::Every => every(err, id, bad, capacity),
    }
}

// The misses of the chain with the id in a run of k activations, as the plain engine counts them.
pub fn counted(
    err: &impl Print,
    table: &[u8],
    id: u32,
    k: u32,
    extent: Extent,
) -> Result<Count, Refusal>
    ensures { Counts (misses_of table.now id k) extent result }
{
    let left = packings_for(table, id, k)?;
    match &left {
        Left::Known(n) => Ok(Count::Known(*n)),
        Left::Packed(p) => {
            let o = gone_through(err, extent, id, &p.bad, &p.capacity);
            if !o.over {
                say_given_up(err, id);
                return Ok(Count::GivenUp);
            }
            Ok(Count::Known(figure(k, p.late, o.most)))
        }
    }
}
