// Byte slices: compared and copied; and where the record of a chain stands in a table.
#![tactic(auto)]

ghost use Rattle.std.specs.Prelude.{◌≡◌, true, ℕ, ◌+◌, ◌≤◌, ◌<◌, length, get_or};
ghost use Rattle.table.specs.Read.{table_of};
ghost use Rattle.table.specs.Code.Taken.{Taken};
ghost use Rattle.slices.specs.Slices.{same as sameOf, splice};
ghost use Rattle.slices.specs.Locate.{record_in, located_of};

use table::{Part, Refusal, u32_at, u64_at};

// How far the two agree for certain: eight bytes at a time, and four at last, since a record's length is a multiple of four, or, in `CG`,
// one more than that.
fn agree(a: &[u8], b: &[u8]) -> usize
    requires { length a.now ≡ length b.now }
    ensures { (result ≤ length a.now) × ((j : ℕ) → j < result → get_or a.now j 0 ≡ get_or b.now j 0) }
{
    let mut i: usize = 0;
    while 8 <= a.len() - i && u64_at(a, i) == u64_at(b, i) {
        i += 8;
    }
    if 4 <= a.len() - i && u32_at(a, i) == u32_at(b, i) {
        i += 4;
    }
    i
}

// Whether the two are the same in every byte.
pub fn same(a: &[u8], b: &[u8]) -> bool
    ensures { result ≡ sameOf a.now b.now }
{
    if a.len() != b.len() {
        return false;
    }
    for i in agree(a, b)..a.len() {
        if a[i] != b[i] {
            return false;
        }
    }
    true
}

// Copies all of `from` into `to`, from `at` on. `copy_from_slice` here would have C callers link one function more, `memmove`.
pub fn put(to: &mut [u8], at: usize, from: &[u8])
    requires { at + length from.now ≤ length to.old }
    ensures { to.new ≡ splice to.old at (length from.now) from.now }
{
    for (i, byte) in from.iter().enumerate() {
        to[at + i] = *byte;
    }
}

// The record of the chain that bears the id, in an accepted table.
fn record_in(s: &[u8], id: u32) -> Result<Part, Refusal>
    requires { Taken s.now }
    ensures { result ≡ record_in (table_of s.now) id }
{
    let chain = table::find(s, id).ok_or(Refusal::NoChain)?;
    let at = table::place(s, chain);
    Ok(Part {
        offset: at as u32,
        length: table::record_length(s, at) as u32,
    })
}

// Where the record of the chain that bears the id stands.
pub fn record(s: &[u8], id: u32) -> Result<Part, Refusal>
    ensures { result ≡ located_of s.now id }
{
    table::judge(s)?;
    record_in(s, id)
}
