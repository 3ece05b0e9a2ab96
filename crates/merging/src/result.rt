// The result: how long it is, its bytes, and whether it fits.
ghost use Rattle.std.specs.Prelude.{◌≡◌, ◌+◌, ◌≤◌, ◌<◌, length};
ghost use mathlib.Core.List.{◌++◌, flatten};
ghost use Rattle.slices.specs.Code.Begins.{Begins};
ghost use Rattle.table.specs.Record.{end_record};
ghost use Rattle.merging.specs.Merge.{versions};
ghost use Rattle.merging.specs.Versions.{three};
ghost use Rattle.merging.specs.Code.Parts.{AllTaken};
ghost use Rattle.merging.specs.Code.Ids.{most_ids};
ghost use Rattle.merging.specs.Code.Size.{states_of, size_of, PutThere, Fits};

use crate::Unmerged;
use crate::conflicts::lesser;
use crate::states::{step_past, taken, weigh};
use slices::put;
use table::{Fault, Refusal, Table, judge, put_u32};

// The smallest id in conflict, 0 if there is none; how long the records taken are in all, and how many they are.
#[derive(Clone, Copy)]
pub struct Size {
    pub conflict: u32,
    pub bytes: usize,
    pub records: usize,
}

// Measures the records taken for these ids; a state that is missing adds nothing.
fn size_of(ancestor: &[u8], first: &[u8], second: &[u8], ids: &[u32]) -> Size
    requires { AllTaken ancestor.now first.now second.now × (length ids.now ≤ most_ids) }
    ensures { result ≡ size_of (versions ancestor.entry first.entry second.entry) ids.now }
{
    let mut conflict: u32 = 0;
    let mut bytes: usize = 0;
    let mut records: usize = 0;
    let mut a: usize = 0;
    let mut b: usize = 0;
    for &id in ids {
        let weight = weigh(ancestor, first, second, id, a, b);
        a = step_past(first, id, a);
        b = step_past(second, id, b);
        conflict = lesser(conflict, weight.conflict);
        bytes += weight.bytes;
        records += usize::from(0 < weight.bytes);
    }
    Size {
        conflict,
        bytes,
        records,
    }
}

// The records taken, one after the other from the first byte on; answers where they end.
fn put_records<'a>(
    ancestor: &[u8],
    first: &'a [u8],
    second: &'a [u8],
    ids: &[u32],
    out: &mut [u8],
) -> usize
    requires { AllTaken ancestor.now first.now second.now × (length (flatten (states_of (three ancestor.now first.now second.now) ids.now)) ≤ length out.old) }
    ensures { PutThere (flatten (states_of (versions ancestor.entry first.entry second.entry) ids.now)) out.old out.new result }
{
    let mut at: usize = 0;
    let mut a: usize = 0;
    let mut b: usize = 0;
    for &id in ids {
        let record = taken(ancestor, first, second, id, a, b);
        a = step_past(first, id, a);
        b = step_past(second, id, b);
        put(out, at, record);
        at += record.len();
    }
    at
}

// The result, as the first bytes of an array: the records, and the end record with their number.
fn build<'a>(
    ancestor: &[u8],
    first: &'a [u8],
    second: &'a [u8],
    ids: &[u32],
    records: usize,
    out: &mut [u8],
)
    requires { AllTaken ancestor.now first.now second.now × (length (flatten (states_of (three ancestor.now first.now second.now) ids.now)) + 4 ≤ length out.old) × (records < 65536) }
    ensures { Begins out.new (flatten (states_of (versions ancestor.entry first.entry second.entry) ids.now) ++ end_record records) }
{
    let end = put_records(ancestor, first, second, ids, out);
    // `EN`, and their number in the two bytes above it.
    put_u32(out, end, 20_037 + 65_536 * (records as u32));
}

// The smallest id in conflict, no room, then the result's own fault: it is built in a place of its own where it is no longer than a table can
// be; without a fault it becomes the first bytes of `out`.
pub fn fit<'a>(
    ancestor: &[u8],
    first: &'a [u8],
    second: &'a [u8],
    ids: &[u32],
    out: &mut [u8],
) -> Result<u32, Unmerged>
    requires { AllTaken ancestor.now first.now second.now × (length ids.now ≤ most_ids) }
    ensures { Fits (versions ancestor.entry first.entry second.entry) ids.now out.old result out.new }
{
    let size = size_of(ancestor, first, second, ids);
    if size.conflict != 0 {
        return Err(Unmerged::Conflict(size.conflict));
    }
    let n = size.bytes + 4;
    if out.len() < n {
        return Err(Unmerged::NoRoom);
    }
    if Table::BYTES < n {
        return Err(Unmerged::Merged(Fault(Refusal::BadLength, 0)));
    }
    let mut bytes = [0u8; Table::BYTES];
    build(ancestor, first, second, ids, size.records, &mut bytes);
    judge(&bytes[..n]).map_err(Unmerged::Merged)?;
    put(out, 0, &bytes[..n]);
    Ok(n as u32)
}
