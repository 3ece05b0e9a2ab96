// The segments of a chain a against a chain b (document 01, 'Segments against chain b'), and what they cost.
#![tactic(auto)]

mod costs;
mod cutting;
mod query;
mod tasks;

pub use costs::{all_cost, chain_cost, dearest_cost, own_part};
pub use cutting::active_segments;
pub use query::{segment, segment_part};
use table::Table;
pub use tasks::{Stretch, ahead, floor_of, tail_of};

// The active segments by number: `count` of them, each with the place of its first task, its tasks, what they cost, and
// the number of its segment; 0 past them.
#[derive(Clone, Copy)]
pub struct Actives {
    pub count: usize,
    pub start: [usize; Table::TASKS],
    pub len: [usize; Table::TASKS],
    pub cost: [u32; Table::TASKS],
    pub segment: [usize; Table::TASKS],
}
