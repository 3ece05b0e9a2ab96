// A converted table put into a lent buffer, and whether it is.
ghost use Rattle.std.specs.Prelude.{◌≡◌, ◌≤◌, length, Ok};
ghost use mathlib.Core.List.{map, flatten};
ghost use Rattle.search.specs.Lists.{sum_of};
ghost use Rattle.table.specs.Place.{length_of};
ghost use Rattle.table.specs.Code.Taken.{Taken};
ghost use Rattle.table.specs.Read.{read_table};
ghost use Rattle.slices.specs.Code.Wrote.{Wrote};
ghost use Rattle.writing.specs.Rows.{row_bytes};
ghost use Rattle.converting.specs.Convert.{rows_in, Converts};

use crate::To;
use crate::forms::form_of;
use crate::record::put_record;
use crate::shape::{all_fit, records_length};
use table::{Refusal, count, form_at, record_length};
use writing::put_end;

// The records of all chains, in the form asked; answers where they end.
fn put_records(s: &[u8], out: &mut [u8], to: To) -> usize
    requires { Taken s.now × (sum_of length_of (rows_in to s.now) ≤ length out.old) }
    ensures { Wrote out.old 0 (flatten (map row_bytes (rows_in to s.now))) out.new result }
{
    let mut next: usize = 0;
    let mut at: usize = 0;
    for _ in 0..count(s) {
        next = put_record(s, at, to, out, next);
        at += record_length(s, at);
    }
    next
}

// An accepted table is put, where it can be said in the form asked and there is room.
fn put_table(s: &[u8], out: &mut [u8], to: To) -> Result<u32, Refusal>
    requires { Taken s.now × ((read_table s.now).verdict ≡ Ok tt) }
    ensures { Converts to s.now out.old result out.new }
{
    if form_at(s, 0) == form_of(to) {
        return Err(Refusal::NoSuchForm);
    }
    if !all_fit(s, to) {
        return Err(Refusal::NoSuchForm);
    }
    let n = records_length(s, to) + 4;
    if out.len() < n {
        return Err(Refusal::BufferShort);
    }
    let at = put_records(s, out, to);
    put_end(out, at, count(s));
    Ok(n as u32)
}

// The table's own fault comes first.
pub fn convert(s: &[u8], out: &mut [u8], to: To) -> Result<u32, Refusal>
    ensures { Converts to s.now out.old result out.new }
{
    table::judge(s)?;
    put_table(s, out, to)
}
