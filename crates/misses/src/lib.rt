// Deadline misses (document 01, 'Misses', and document 02, requests 3 and 6): combinations of overload active segments, the bad ones, and the
// miss query: by the ordinary engine, by the plain one, and by the sieve.
#![tactic(auto)]

mod asking;
mod counting;
mod gathering;
mod pricing;
mod settling;
mod testing;

pub use counting::{at_most, figure, misses, misses_plain, misses_with, packings_for};
use packing::COMBINATIONS;
use table::Table;

// What the sieve answers: a number that the misses do not exceed. It is no miss count.
#[derive(Clone, Copy, Debug, PartialEq, Eq)]
pub struct AtMost {
    pub most: u32,
}

// The active segments of the overload chains in a row: how many chains and active segments there are, and of the first six
// each one's chain, segment, cost and capacity; 0 past them.
#[derive(Clone, Copy)]
struct Pieces {
    chains: usize,
    count: usize,
    chain: [usize; Table::OVERLOADS],
    segment: [usize; Table::OVERLOADS],
    cost: [u64; Table::OVERLOADS],
    capacity: [u8; Table::OVERLOADS],
}

// How the costs of sets are tested: by the lowest bad one, each by its own windows, or by the sieve.
#[derive(Clone, Copy)]
enum How {
    Lowest,
    Each,
    Sieve,
}

// What is to be packed: the bad combinations by flags, and the capacities. Each use in a packing counts `late` times.
#[derive(Clone, Copy)]
pub struct Packings {
    pub late: u32,
    pub bad: [u8; COMBINATIONS],
    pub capacity: [u8; Table::OVERLOADS],
}

// What is left of a miss query that nothing refuses: the misses are known already, or something is to be packed for them.
#[derive(Clone, Copy)]
pub enum Left {
    Known(u32),
    Packed(Packings),
}

// Costs that are settled: none up to `good` is bad, each from `bad` on is.
#[derive(Clone, Copy)]
struct Settled {
    good: u64,
    bad: u64,
}

impl Settled {
    // More than any set costs.
    const BEYOND: u64 = Table::OVERLOADS as u64 * Table::TASKS as u64 * Table::COST as u64 + 1;
}
