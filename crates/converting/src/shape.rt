// Whether every chain of a table can be said in the form asked, and how long the table is in it.
ghost use Rattle.std.specs.Prelude.{◌≡◌, map};
ghost use Rattle.search.specs.Lists.{every, sum_of};
ghost use Rattle.table.specs.Record.{row_at, largests};
ghost use Rattle.table.specs.Find.{rows};
ghost use Rattle.table.specs.Read.{table_of};
ghost use Rattle.table.specs.Place.{length_of};
ghost use Rattle.table.specs.Code.Taken.{Taken, Stands};
ghost use Rattle.slices.specs.Slices.{same};
ghost use Rattle.converting.specs.Forms.{multiples, first_largest, fits_gap, fits_form, converted};

use crate::To;
use table::{
    Row, Table, count, flag_at, gap_at, head_length, largest_at, listed_at, record_length, tasks_at,
};

// Whether the largest distances of the record at `at` are the multiples of the first of them.
fn are_multiples(s: &[u8], at: usize) -> bool
    requires { Stands s.now at × ((row_at s.now at).flag ≡ 1) }
    ensures { result ≡ same (largests (row_at s.now at)) (multiples (first_largest (row_at s.now at)) (row_at s.now at).listed) }
{
    let listed = listed_at(s, at);
    let gap = largest_at(s, at, 0);
    for i in 0..listed {
        if largest_at(s, at, i) != gap * (i as u32 + 1) {
            return false;
        }
    }
    true
}

// Whether the chain at `at` can be said with a gap, 0 where none is known.
pub fn fits_gap(s: &[u8], at: usize) -> bool
    requires { Stands s.now at }
    ensures { result ≡ fits_gap (row_at s.now at) }
{
    if flag_at(s, at) == 0 {
        return true;
    }
    if Table::GAP < largest_at(s, at, 0) {
        return false;
    }
    are_multiples(s, at)
}

// Whether the chain at `at` can be said in the form asked.
fn fits_form(s: &[u8], at: usize, to: To) -> bool
    requires { Stands s.now at }
    ensures { result ≡ fits_form to (row_at s.now at) }
{
    match to {
        To::Largest => true,
        To::Gap => fits_gap(s, at),
    }
}

// Whether every chain can.
pub fn all_fit(s: &[u8], to: To) -> bool
    requires { Taken s.now }
    ensures { result ≡ every (fits_form to) (rows (table_of s.now)) }
{
    let mut at: usize = 0;
    for _ in 0..count(s) {
        if !fits_form(s, at, to) {
            return false;
        }
        at += record_length(s, at);
    }
    true
}

// How long the record at `at` is in the form asked.
fn length_in(s: &[u8], at: usize, to: To) -> usize
    requires { Stands s.now at }
    ensures { result ≡ length_of (converted to (row_at s.now at)) }
{
    let listed = listed_at(s, at);
    let rest = 4 * listed + 8 * tasks_at(s, at);
    match to {
        To::Gap => head_length(Row::GAP_FORM) + rest,
        To::Largest => {
            if gap_at(s, at) == 0 {
                head_length(Row::LARGEST_FORM) + rest
            } else {
                head_length(Row::LARGEST_FORM) + rest + 4 * listed
            }
        }
    }
}

// How long all records are in it.
pub fn records_length(s: &[u8], to: To) -> usize
    requires { Taken s.now }
    ensures { result ≡ sum_of length_of (map (converted to) (rows (table_of s.now))) }
{
    let mut n: usize = 0;
    let mut at: usize = 0;
    for _ in 0..count(s) {
        n += length_in(s, at, to);
        at += record_length(s, at);
    }
    n
}
