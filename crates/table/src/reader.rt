// The judgement of a stored table: from the first byte on, and the first fault decides.
ghost use Rattle.std.specs.Prelude.{◌≡◌};
ghost use Rattle.table.specs.Bytes.{word};
ghost use Rattle.table.specs.Read.{limit_of, read_table};

use crate::before::Before;
use crate::bytes::u16_at;
use crate::fault::{beside_fault, end_fault, mark_of};
use crate::record::{form_at, has_flag, id_at, tasks_part};
use crate::{Fault, Mark, Refusal, Table, Verdict};

// How many bytes a table may have, by its first mark.
pub fn limit(s: &[u8]) -> usize
    ensures { result ≡ limit_of (word 2 s.now 0) }
{
    if s.len() < 2 {
        return Table::GAP_BYTES;
    }
    if has_flag(form_at(s, 0)) {
        return Table::BYTES;
    }
    Table::GAP_BYTES
}

// Judges a stored table. No byte past the slice is looked at.
pub fn judge(s: &[u8]) -> Verdict
    ensures { result ≡ (read_table s.now).verdict }
{
    if s.len() == 0 || limit(s) < s.len() {
        return Err(Fault(Refusal::BadLength, 0));
    }
    let mut before = Before::nothing();
    let mut at: usize = 0;
    while at + 2 <= s.len() {
        match mark_of(u16_at(s, at)) {
            Mark::Chain => {
                beside_fault(s, at, form_at(s, 0), &before)?;
                let tasks = tasks_part(s, at);
                before.add(id_at(s, at), tasks.count);
                at += tasks.from + 8 * tasks.count;
            }
            Mark::End => return end_fault(s, at, before.count),
            _ => return Err(Fault(Refusal::BadMark, at)),
        }
    }
    Err(Fault(Refusal::BytesMissing, s.len()))
}
