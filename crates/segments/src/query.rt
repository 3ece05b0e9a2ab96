// The segment query.
ghost use Rattle.std.specs.Prelude.{◌≡◌, ◌<◌};
ghost use Rattle.table.specs.Code.Taken.{Taken};
ghost use Rattle.table.specs.Read.{table_of};
ghost use Rattle.segments.specs.Query.{nth_of, answer_of, segment_of, HandedBack};

use crate::cutting::active_segments;
use crate::tasks::{floor_of, tail_of};
use table::{Part, Refusal, find, first_task, judge, place};

// The active segment of that number, of one chain of a table against another.
fn nth(s: &[u8], chain: usize, other: usize, number: u32) -> Result<Part, Refusal>
    requires { Taken s.now × (chain < (table_of s.now).count) × (other < (table_of s.now).count) }
    ensures { result ≡ nth_of (table_of s.now) chain other number }
{
    let at = place(s, chain);
    let b = place(s, other);
    let found = active_segments(s, at, floor_of(s, b), tail_of(s, b));
    let n = number as usize;
    if n == 0 || found.count < n {
        return Err(Refusal::NoSuchSegment);
    }
    let first = first_task(s, at);
    let offset = first + 8 * found.start[n - 1];
    let length = 8 * found.len[n - 1];
    Ok(Part {
        offset: offset as u32,
        length: length as u32,
    })
}

// The query on a table that was accepted: `id` and `against` name the two chains.
fn ask(s: &[u8], id: u32, against: u32, number: u32) -> Result<Part, Refusal>
    requires { Taken s.now }
    ensures { result ≡ answer_of (table_of s.now) id against number }
{
    let chain = find(s, id).ok_or(Refusal::NoChain)?;
    let other = find(s, against).ok_or(Refusal::NoChain)?;
    if id == against {
        return Err(Refusal::SameChain);
    }
    nth(s, chain, other, number)
}

// Where the active segment of that number stands, of the chain with one id against the chain with the other.
pub fn segment(table: &[u8], id: u32, against: u32, number: u32) -> Result<Part, Refusal>
    ensures { result ≡ segment_of table.now id against number }
{
    judge(table)?;
    ask(table, id, against, number)
}

// The same as that part of the caller's own bytes; empty where it is refused.
pub fn segment_part(table: &[u8], id: u32, against: u32, number: u32) -> &[u8]
    ensures { HandedBack table.entry result (segment_of table.now id against number) }
{
    match segment(table, id, against, number) {
        Ok(part) => {
            let from = part.offset as usize;
            let to = from + part.length as usize;
            &table[from..to]
        }
        Err(_) => &table[0..0],
    }
}
