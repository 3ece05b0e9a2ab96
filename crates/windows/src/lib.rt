// Windows (document 01, 'Windows'): demand, window, K, latency, late and margin; the latency query.
#![tactic(auto)]

mod climbing;
mod loading;
mod query;
mod sieving;
mod sweeping;
mod walking;

pub use loading::load;
pub use query::{bound, latency};
pub use sieving::least_called;
pub use sweeping::any_over;
use table::Table;

// What the latency query answers: K, latency, late and margin.
#[derive(Clone, Copy, Debug, PartialEq, Eq)]
pub struct Figures {
    pub close: u32,
    pub latency: u32,
    pub late: u32,
    pub margin: i32,
}

// What the windows of a chain give: the figures, and beside them the last window B(K).
#[derive(Clone, Copy, Debug, PartialEq, Eq)]
pub struct Windows {
    pub figures: Figures,
    pub last: u64,
}

// Which other chains of its table add to a chain's demand: all, or those without overload mark.
#[derive(Clone, Copy)]
pub enum Others {
    All,
    Typical,
}

// What another chain adds in t: η(t) times `rate`, and `once`.
#[derive(Clone, Copy)]
struct Term {
    rate: u64,
    once: u64,
}

// The chains of a table from `from` up to `to`, not including it; the record of the first starts at `at`.
#[derive(Clone, Copy)]
struct Span {
    at: usize,
    from: usize,
    to: usize,
}

// A chain's own part of its demand: where its record stands and where its list of distances starts, its cost, its own first part (0 if it is synchronous), what the others
// add once, and how many of them are held in an array beside it, because their η counts.
#[derive(Clone, Copy)]
pub struct Own {
    pub at: usize,
    pub list: usize,
    pub cost: u64,
    pub part: u64,
    pub once: u64,
    pub count: usize,
}

impl Own {
    // The numbers of the chains held: of the i-th its rate at i, and where its list starts at CHAINS + i.
    pub const HELD: usize = 2 * Table::CHAINS;

    // How many counts of arrivals a climb keeps: of each chain held, and of the chain itself at last.
    const COUNTS: usize = Table::CHAINS + 1;
}
