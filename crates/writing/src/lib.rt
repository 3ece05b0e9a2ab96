// A table from rows, and rows from a table (document 02, request 2). The rows are one list lent by the caller. What takes them over is
// thin: it hands one row after the other, by value, to the functions that judge and put it.
#![tactic(auto)]

ghost use Rattle.std.specs.Prelude.{◌≡◌, ◌+◌};
ghost use Rattle.writing.specs.Write.{Writes};
ghost use Rattle.writing.specs.Fill.{Fills};
ghost use Rattle.writing.specs.Code.Tally.{JudgedRows};
ghost use Rattle.table.specs.Code.Taken.{Stands};
ghost use Rattle.table.specs.Record.{length_at};

mod judged;
mod put;

use judged::{Tally, judged_with, unjudged};
use put::{fitted, put_row};
pub use put::{put_end, put_gap, put_list};
use table::{Refusal, Row, Table};

// Judges the rows, in order.
fn judge(rows: &[Row]) -> Result<Tally, Refusal>
    ensures { JudgedRows rows.now result }
{
    // A 17th row decides.
    let n = rows.len().min(Table::CHAINS + 1);
    let mut judged = unjudged();
    for chain in 0..n {
        judged = judged_with(judged, rows[chain])?;
    }
    Ok(judged)
}

// The table of the rows becomes the first bytes of `out`; refused, every byte stays. All rows are judged before the first byte is put.
pub fn write(rows: &[Row], out: &mut [u8]) -> Result<u32, Refusal>
    ensures { Writes rows.now out.old result out.new }
{
    let judged = judge(rows)?;
    let length = fitted(judged, out.len())?;
    let mut at = 0;
    for chain in 0..judged.count {
        at = put_row(out, at, rows[chain]);
    }
    put_end(out, at, judged.count);
    Ok(length)
}

// Where the record after the one at `at` starts.
fn after(s: &[u8], at: usize) -> usize
    requires { Stands s.now at }
    ensures { result ≡ at + length_at s.now at }
{
    at + table::record_length(s, at)
}

// The chains of a table become the first of the rows; refused, every row stays.
pub fn read(s: &[u8], rows: &mut [Row]) -> Result<u32, Refusal>
    ensures { Fills s.now rows.old result rows.new }
{
    table::judge(s)?;
    let chains = table::count(s);
    if rows.len() < chains {
        return Err(Refusal::BufferShort);
    }
    let mut at = 0;
    for chain in 0..chains {
        rows[chain] = table::row_at(s, at);
        at = after(s, at);
    }
    Ok(chains as u32)
}
