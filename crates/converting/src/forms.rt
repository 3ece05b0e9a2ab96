// What a chain has in the form asked.
ghost use Rattle.std.specs.Prelude.{◌≡◌, ◌≤◌};
ghost use Rattle.table.specs.Limits.{max_distances, max_gap};
ghost use Rattle.table.specs.Record.{pad, row_at};
ghost use Rattle.table.specs.Code.Taken.{Stands};
ghost use Rattle.converting.specs.Forms.{multiples as multiplesOf, form_of, converted};

use crate::To;
use table::{Row, Table, gap_at, known_at, largest_at};

// The form's mark.
pub fn form_of(to: To) -> u16
    ensures { result ≡ form_of to }
{
    match to {
        To::Largest => Row::LARGEST_FORM,
        To::Gap => Row::GAP_FORM,
    }
}

// The flag of the chain at `at`.
pub fn flag_in(s: &[u8], at: usize, to: To) -> u8
    requires { Stands s.now at }
    ensures { result ≡ (converted to (row_at s.now at)).flag }
{
    match to {
        To::Largest => u8::from(gap_at(s, at) != 0),
        To::Gap => 0,
    }
}

// Its gap: the first largest distance, 0 where none is known.
pub fn gap_in(s: &[u8], at: usize, to: To) -> u32
    requires { Stands s.now at }
    ensures { result ≡ (converted to (row_at s.now at)).gap }
{
    match to {
        To::Largest => 0,
        To::Gap => {
            if known_at(s, at) == 0 {
                0
            } else {
                largest_at(s, at, 0)
            }
        }
    }
}

// The first n multiples of a gap, and 0 past them.
pub fn multiples(gap: u32, n: usize) -> [u32; Table::DISTANCES]
    requires { (gap ≤ max_gap) × (n ≤ max_distances) }
    ensures { result ≡ pad max_distances (multiplesOf gap n) }
{
    let mut list = [0u32; Table::DISTANCES];
    let mut distance = gap;
    for i in 0..n {
        list[i] = distance;
        distance += gap;
    }
    list
}
