// One chain's record put in the form asked. What both forms have is copied from the table.
ghost use Rattle.std.specs.Prelude.{◌+◌, ◌*◌, ◌≤◌, length};
ghost use Rattle.table.specs.Record.{gap_width, row_at, known_of};
ghost use Rattle.table.specs.Place.{length_of};
ghost use Rattle.table.specs.Code.Taken.{Stands};
ghost use Rattle.slices.specs.Code.Wrote.{Wrote};
ghost use Rattle.writing.specs.Rows.{list_bytes, row_bytes};
ghost use Rattle.converting.specs.Forms.{form_of, converted};
ghost use Rattle.converting.specs.Code.Copied.{Marked, start_bytes};

use crate::To;
use crate::forms::{flag_in, form_of, gap_in, multiples};
use slices::put;
use table::{first_task, gap_at, list_place, listed_at, listed_from, put_u16, record_length};
use writing::{put_gap, put_list};

// A part of the table, copied; answers where it ends.
fn put_part(out: &mut [u8], at: usize, part: &[u8]) -> usize
    requires { at + length part.now ≤ length out.old }
    ensures { Wrote out.old at part.now out.new result }
{
    put(out, at, part);
    at + part.len()
}

// The record's start, up to its counts.
fn put_start(s: &[u8], at: usize, to: To, out: &mut [u8], next: usize) -> usize
    requires { Stands s.now at × (next + (10 + gap_width (form_of to)) ≤ length out.old) }
    ensures { Wrote out.old next (start_bytes to s.now at) out.new result }
{
    put_u16(out, next, form_of(to));
    let place = put_part(out, next + 2, &s[at + 2..at + 10]);
    put_gap(
        out,
        place,
        form_of(to),
        flag_in(s, at, to),
        gap_in(s, at, to),
    )
}

// Its largest distances: of a known gap the multiples.
fn put_largest(s: &[u8], at: usize, to: To, out: &mut [u8], next: usize) -> usize
    requires { Stands s.now at × (next + 4 * known_of (converted to (row_at s.now at)) ≤ length out.old) }
    ensures { Wrote out.old next (list_bytes (converted to (row_at s.now at)).largest (known_of (converted to (row_at s.now at)))) out.new result }
{
    match to {
        To::Largest => {
            let gap = gap_at(s, at);
            if gap == 0 {
                return next;
            }
            let listed = listed_at(s, at);
            let largest = multiples(gap, listed);
            put_list(out, next, &largest, listed)
        }
        To::Gap => next,
    }
}

// The record of the chain at `at`, from `next` on; answers where it ends.
pub fn put_record(s: &[u8], at: usize, to: To, out: &mut [u8], next: usize) -> usize
    requires { Marked s.now at × (next + length_of (converted to (row_at s.now at)) ≤ length out.old) }
    ensures { Wrote out.old next (row_bytes (converted to (row_at s.now at))) out.new result }
{
    let list = list_place(s, at);
    let end = list + 4 * listed_from(s, list);
    let counts = put_start(s, at, to, out, next);
    let largest = put_part(out, counts, &s[list - 2..end]);
    let tasks = put_largest(s, at, to, out, largest);
    let first = first_task(s, at);
    put_part(out, tasks, &s[first..at + record_length(s, at)])
}
