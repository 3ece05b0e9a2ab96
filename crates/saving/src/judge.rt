// The judgement of a save, from the bytes alone: nothing is written here but the copy that is judged.
ghost use Rattle.std.specs.Prelude.{◌≡◌, ◌+◌, ◌≤◌, length, Ok};
ghost use Rattle.table.specs.Limits.{max_bytes};
ghost use Rattle.table.specs.Read.{read_table};
ghost use Rattle.table.specs.Code.Taken.{Taken};
ghost use Rattle.table.specs.Fault.{is_chain};
ghost use Rattle.saving.specs.Save.{seen_chain, cut as cut_of, unfit as unfitOf, result_of, result_fault, replace_fault, change_fault};
ghost use Rattle.slices.specs.Slices.{splice};
ghost use Rattle.saving.specs.Code.Ready.{Ready};

use crate::writing::spliced;
use slices::same;
use table::{Mark, Refusal, Table};

fn is_chain(m: Mark) -> bool
    ensures { result ≡ is_chain m }
{
    m == Mark::Chain
}

// The number of the first chain whose stored record equals `old`, if one does.
fn seen(s: &[u8], old: &[u8]) -> Option<usize>
    requires { Taken s.now }
    ensures { result ≡ seen_chain s.now old.now }
{
    let mut at: usize = 0;
    for chain in 0..table::count(s) {
        let end = at + table::record_length(s, at);
        if same(&s[at..end], old) {
            return Some(chain);
        }
        at = end;
    }
    None
}

// Whether the record lacks bytes of its fixed part; one without its mark, the first two, does.
fn cut(new: &[u8]) -> bool
    ensures { result ≡ cut_of new.now }
{
    if new.len() < 2 {
        return true;
    }
    new.len() < table::head_length(table::form_at(new, 0))
}

// Whether the new record is no chain record by itself, or bears another id.
fn unfit(new: &[u8], id: u16) -> bool
    ensures { result ≡ unfitOf new.now id }
{
    if cut(new) {
        return true;
    }
    if !is_chain(table::mark_of(table::form_at(new, 0))) {
        return true;
    }
    if new.len() != table::record_length(new, 0) {
        return true;
    }
    table::id_at(new, 0) != id
}

// Judges the result, `new` in the place of `gone` bytes from `at` on: whether there is room for it, then as a table. Only one within the
// greater limit is built, in `out`; a longer one has a bad length whatever its mark.
fn result(
    s: &[u8],
    at: usize,
    gone: usize,
    new: &[u8],
    room: usize,
    out: &mut [u8],
) -> Result<(), Refusal>
    requires { (at + gone ≤ length s.now) × (length out.old ≡ max_bytes) }
    ensures { Ready (result_fault room (splice s.now at gone new.now)) (splice s.now at gone new.now) out.new result }
{
    let n = s.len() - gone + new.len();
    if room < n {
        return Err(Refusal::BufferShort);
    }
    if Table::BYTES < n {
        return Err(Refusal::BadLength);
    }
    spliced(s, at, gone, new, out);
    table::judge(&out[..n])?;
    Ok(())
}

// Judges `new` in the place of the record `old` of an accepted table: the two records, then the result.
fn replaced(
    s: &[u8],
    room: usize,
    old: &[u8],
    new: &[u8],
    out: &mut [u8; Table::BYTES],
) -> Result<(), Refusal>
    requires { (read_table s.now).verdict ≡ Ok tt }
    ensures { Ready (replace_fault room s.now old.now new.now) (result_of s.now old.now new.now) out.new result }
{
    let chain = seen(s, old).ok_or(Refusal::StaleRecord)?;
    let at = table::place(s, chain);
    if unfit(new, table::id_at(s, at)) {
        return Err(Refusal::BadRecord);
    }
    result(s, at, old.len(), new, room, out)
}

// The table's own fault comes first. Where there is none, `out` begins with the result.
pub fn judged(
    s: &[u8],
    room: usize,
    old: &[u8],
    new: &[u8],
    out: &mut [u8; Table::BYTES],
) -> Result<(), Refusal>
    ensures { Ready (change_fault room s.now old.now new.now) (result_of s.now old.now new.now) out.new result }
{
    table::judge(s)?;
    replaced(s, room, old, new, out)
}
