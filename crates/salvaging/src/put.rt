// The table of the records kept, and the list of the stretches skipped: how long they are, their bytes, and whether they fit.
ghost use Rattle.std.specs.Prelude.{◌≡◌, ◌+◌, ◌≤◌, ◌<◌, ltb, length};
ghost use mathlib.Core.List.{map, flatten};
ghost use Rattle.search.specs.Choice.{◌when◌else◌};
ghost use Rattle.table.specs.Limits.{max_chains, max_input};
ghost use Rattle.slices.specs.Code.Wrote.{Wrote};
ghost use Rattle.salvaging.specs.Skipped.{between};
ghost use Rattle.salvaging.specs.Salvage.{record_at, stretch_bytes, list_with};
ghost use Rattle.salvaging.specs.Code.Walk.{InOrder, size_of, Fits};

use crate::Lengths;
use slices::put;
use table::{Refusal, Table, put_u32, record_length};

// How long the records are in all, and how many stretches lie between them and at the end.
#[derive(Clone, Copy)]
pub struct Size {
    pub bytes: usize,
    pub stretches: usize,
}

// How many stretches lie between two places: one, or none.
fn counted(at: usize, to: usize) -> usize
    ensures { result ≡ (1 when ltb at to else 0) }
{
    usize::from(at < to)
}

// Measures what the records at these places make of the table and of the list.
fn size_of(s: &[u8], places: &[usize]) -> Size
    requires { InOrder s.now 0 places.now × (length places.now ≤ max_chains) }
    ensures { result ≡ size_of s.now places.now }
{
    let mut bytes: usize = 0;
    let mut stretches: usize = 0;
    let mut at: usize = 0;
    for &place in places {
        let length = record_length(s, place);
        stretches += counted(at, place);
        bytes += length;
        at = place + length;
    }
    if places.len() < Table::CHAINS {
        stretches += counted(at, s.len());
    }
    Size { bytes, stretches }
}

// The records at these places, one after the other from the first byte on; answers where they end.
fn put_records(s: &[u8], places: &[usize], out: &mut [u8]) -> usize
    requires { InOrder s.now 0 places.now × (length (flatten (map (record_at s.now) places.now)) ≤ length out.old) }
    ensures { Wrote out.old 0 (flatten (map (record_at s.now) places.now)) out.new result }
{
    let mut end: usize = 0;
    for &place in places {
        let length = record_length(s, place);
        put(out, end, &s[place..place + length]);
        end += length;
    }
    end
}

// The stretch between two places, if anything lies there; answers where the list ends.
fn put_stretch(out: &mut [u8], end: usize, at: usize, to: usize) -> usize
    requires { (to ≤ max_input) × (end + length (flatten (map stretch_bytes (between at to))) ≤ length out.old) }
    ensures { Wrote out.old end (flatten (map stretch_bytes (between at to))) out.new result }
{
    if at < to {
        put_u32(out, end, at as u32);
        put_u32(out, end + 4, (to - at) as u32);
        return end + 8;
    }
    end
}

// The stretches between the records at these places, and at the end, as a list from the first byte on; answers where it ends.
fn put_stretches(s: &[u8], places: &[usize], out: &mut [u8]) -> usize
    requires { InOrder s.now 0 places.now × (length places.now ≤ max_chains) × (length s.now ≤ max_input) × (length (list_with s.now places.now) ≤ length out.old) }
    ensures { Wrote out.old 0 (list_with s.now places.now) out.new result }
{
    let mut end: usize = 0;
    let mut at: usize = 0;
    for &place in places {
        end = put_stretch(out, end, at, place);
        at = place + record_length(s, place);
    }
    if places.len() < Table::CHAINS {
        return put_stretch(out, end, at, s.len());
    }
    end
}

// Puts both results, the table with its end record, unless one is longer than its buffer.
pub fn fit(
    s: &[u8],
    places: &[usize],
    table: &mut [u8],
    list: &mut [u8],
) -> Result<Lengths, Refusal>
    requires { InOrder s.now 0 places.now × (length places.now ≤ max_chains) × (length s.now ≤ max_input) }
    ensures { Fits s.now places.now table.old list.old result table.new list.new }
{
    let size = size_of(s, places);
    if table.len() < size.bytes + 4 || list.len() < 8 * size.stretches {
        return Err(Refusal::BufferShort);
    }
    let end = put_records(s, places, table);
    // `EN`, and their number in the two bytes above it.
    put_u32(table, end, 20_037 + 65_536 * (places.len() as u32));
    let used = put_stretches(s, places, list);
    Ok(Lengths {
        table: (end + 4) as u32,
        list: used as u32,
    })
}
