// The stored table (document 01, 'Stored table'): its limits, its judgement, its chains, each read from the bytes where it stands,
// and all of it as rows.
#![tactic(auto)]

ghost use Rattle.std.specs.Prelude.{◌≡◌};
ghost use Rattle.table.specs.Limits.{limits as allLimits};
ghost use Rattle.table.specs.Record.{blank as blankRow};
ghost use Rattle.table.specs.Read.{empty as emptyTable};

mod before;
mod bytes;
mod decode;
mod fault;
mod places;
mod reader;
mod record;
mod refusal;

pub use before::Before;
pub use bytes::{put_u16, put_u32, u16_at, u32_at, u64_at};
pub use decode::{read, row_at};
pub use fault::{beside_fault, mark_of, outside};
pub use places::{count, find, place};
pub use reader::{judge, limit};
pub use record::{
    cost_at, deadline_at, distance_from, first_task, flag_at, form_at, gap_at, has_flag,
    head_length, id_at, kind_at, known_at, largest_at, list_place, listed_at, listed_from,
    overload_at, priority_at, record_length, tasks_at, tasks_part,
};
pub use refusal::{Fault, Refusal, Verdict};

// A chain as it is stored. Places past a count, and what its form lacks, are 0 in a row that was read; in one that a caller lends anything
// may stand there. C callers lend rows too, so the layout is C's.
#[repr(C)]
#[derive(Clone, Copy)]
pub struct Row {
    pub form: u16,
    pub id: u16,
    pub kind: u8,
    pub overload: u8,
    pub flag: u8,
    pub deadline: u32,
    pub gap: u32,
    pub listed: usize,
    pub tasks: usize,
    pub list: [u32; Table::DISTANCES],
    pub largest: [u32; Table::DISTANCES],
    pub priority: [u16; Table::TASKS],
    pub cost: [u32; Table::TASKS],
}

// The chains in order: `count` of them, with `tasks` tasks in all; places past the count are blank rows.
#[derive(Clone, Copy)]
pub struct Table {
    pub count: usize,
    pub tasks: usize,
    pub row: [Row; Table::CHAINS],
}

// Part of a table's bytes: its offset from the first byte, and its length.
#[derive(Clone, Copy, Debug, PartialEq, Eq)]
pub struct Part {
    pub offset: u32,
    pub length: u32,
}

// The limits of documents 01 and 02.
#[derive(Clone, Copy)]
pub struct Limits {
    pub chains: usize,
    pub tasks: usize,
    pub total: usize,
    pub distances: usize,
    pub cost: u32,
    pub priority: u16,
    pub deadline: u32,
    pub gap: u32,
    pub distance: u32,
    pub largest: u32,
    pub horizon: u64,
    pub activations: u32,
    pub run: u32,
    pub overloads: usize,
    pub capacity: u64,
    pub bytes: usize,
    pub gapbytes: usize,
    pub input: usize,
}

// What the two bytes of a mark, as a number, stand for.
#[derive(Clone, Copy, Debug, PartialEq, Eq)]
pub enum Mark {
    Chain,
    Task,
    End,
    Unknown,
}

impl Row {
    // `CH` and `CG`.
    pub const GAP_FORM: u16 = 18_499;

    pub const LARGEST_FORM: u16 = 18_243;

    fn blank() -> Self
        ensures { result ≡ blankRow }
    {
        Row {
            form: 0,
            id: 0,
            kind: 0,
            overload: 0,
            flag: 0,
            deadline: 0,
            gap: 0,
            listed: 0,
            tasks: 0,
            list: [0u32; Table::DISTANCES],
            largest: [0u32; Table::DISTANCES],
            priority: [0u16; Table::TASKS],
            cost: [0u32; Table::TASKS],
        }
    }
}

impl Table {
    pub const CHAINS: usize = 16;

    pub const TASKS: usize = 16;

    pub const ALL_TASKS: usize = 64;

    pub const DISTANCES: usize = 8;

    pub const COST: u32 = 1_000_000;

    pub const PRIORITY: u16 = 65_535;

    pub const DEADLINE: u32 = 10_000_000;

    pub const GAP: u32 = 10_000_000;

    pub const DISTANCE: u32 = 10_000_000;

    pub const LARGEST: u32 = 80_000_000;

    pub const HORIZON: u64 = 10_000_000;

    pub const ACTIVATIONS: u32 = 1_024;

    pub const RUN: u32 = 1_000;

    pub const OVERLOADS: usize = 6;

    pub const CAPACITY: u64 = 40;

    // Of a table of either form, and of one whose first mark is not `CG`.
    pub const BYTES: usize = 1_748;

    pub const GAP_BYTES: usize = 1_284;

    // Of what a table is salvaged from.
    pub const INPUT: usize = 4_096;

    // Every limit as one value: its contract ties each constant to the number of that name in specs/.
    pub fn limits() -> Limits
        ensures { result ≡ allLimits }
    {
        Limits {
            chains: Table::CHAINS,
            tasks: Table::TASKS,
            total: Table::ALL_TASKS,
            distances: Table::DISTANCES,
            cost: Table::COST,
            priority: Table::PRIORITY,
            deadline: Table::DEADLINE,
            gap: Table::GAP,
            distance: Table::DISTANCE,
            largest: Table::LARGEST,
            horizon: Table::HORIZON,
            activations: Table::ACTIVATIONS,
            run: Table::RUN,
            overloads: Table::OVERLOADS,
            capacity: Table::CAPACITY,
            bytes: Table::BYTES,
            gapbytes: Table::GAP_BYTES,
            input: Table::INPUT,
        }
    }

    // The table without a chain.
    fn empty() -> Self
        ensures { result ≡ emptyTable }
    {
        let blank = Row::blank();
        Table {
            count: 0,
            tasks: 0,
            row: [blank; Table::CHAINS],
        }
    }
}
