// Where a table broke, in words: the record and the field that stand at an offset. The records are walked from the first byte
// on, each by its own counts.
ghost use Rattle.std.specs.Prelude.{◌≡◌, true, ◌+◌, ◌≤◌, ◌<◌, length};
ghost use Rattle.table.specs.Record.{form_at, head_length};

use crate::output::plural;
use std::io;
use table::{
    Fault, Mark, Refusal, Table, form_at, has_flag, head_length, known_at, limit, listed_at,
    mark_of, record_length, u16_at,
};

// What begins at an offset, by its mark.
#[derive(Clone, Copy)]
enum Record {
    Chain,
    End,
    Unknown,
    Missing,
}

// The number of a record, from 1, where it begins, and an offset from there.
#[derive(Clone, Copy)]
struct Place {
    record: usize,
    start: usize,
    offset: usize,
}

// Whether n bytes are there from `start` on.
fn is_there(s: &[u8], start: usize, n: usize) -> bool
    ensures { result ≡ true → start + n ≤ length s.now }
{
    start <= s.len() && n <= s.len() - start
}

fn record_at(s: &[u8], start: usize) -> Record {
    if !is_there(s, start, 2) {
        return Record::Missing;
    }
    match mark_of(u16_at(s, start)) {
        Mark::Chain => Record::Chain,
        Mark::End => Record::End,
        _ => Record::Unknown,
    }
}

// Whether all of the fixed part is there that a chain record with the mark at `start` has.
fn has_head(s: &[u8], start: usize) -> bool
    ensures { result ≡ true → start + head_length (form_at s.now start) ≤ length s.now }
{
    is_there(s, start, 2) && is_there(s, start, head_length(form_at(s, start)))
}

// How long the chain record is that begins here, where there is one with all of its fixed part.
fn chain_length(s: &[u8], start: usize) -> Option<usize> {
    if !has_head(s, start) {
        return None;
    }
    match record_at(s, start) {
        Record::Chain => Some(record_length(s, start)),
        _ => None,
    }
}

// The record in which an offset lies. No table is read past the mark of a 17th chain.
fn place_of(s: &[u8], at: usize) -> Place {
    let mut start: usize = 0;
    let mut offset = at;
    for record in 1..Table::CHAINS + 1 {
        match chain_length(s, start) {
            Some(length) if length <= offset => {
                start += length;
                offset -= length;
            }
            _ => {
                return Place {
                    record,
                    start,
                    offset,
                };
            }
        }
    }
    Place {
        record: Table::CHAINS + 1,
        start,
        offset,
    }
}

// What a chain of this form has after its deadline, by how many bytes of its fixed part are left there.
fn last_field(form: u16, left: usize) -> &'static str {
    match left {
        1 => "task count",
        2 => "list length",
        _ if has_flag(form) => "flag",
        _ => "gap",
    }
}

// A field of the fixed part that a chain of this form has.
fn fixed_field(form: u16, offset: usize) -> &'static str
    requires { offset < head_length form }
{
    match offset {
        0 | 1 => "mark",
        2 | 3 => "id",
        4 => "kind",
        5 => "overload",
        6..=9 => "deadline",
        _ => last_field(form, head_length(form) - offset),
    }
}

// A field of a task, by the offset from its first byte.
fn task_field(offset: usize) -> &'static str {
    match offset {
        0 | 1 => "mark",
        2 | 3 => "priority",
        _ => "cost",
    }
}

// A field after the fixed part of a chain with so many distances and largest distances: one of them, or one of a task.
fn print_listed(to: &impl Print, listed: usize, known: usize, offset: usize) -> io::Result<()> {
    let place = offset / 4;
    if place < listed {
        return print!(to; "distance {}", place + 1);
    }
    if place - listed < known {
        return print!(to; "largest distance {}", place - listed + 1);
    }
    let past = offset - 4 * (listed + known);
    print!(to; "task {}, {}", past / 8 + 1, task_field(past % 8))
}

// A field of the chain record at `start`. One whose fixed part is cut off has its mark alone to be refused for.
fn print_chain(to: &impl Print, s: &[u8], start: usize, offset: usize) -> io::Result<()> {
    if !has_head(s, start) {
        return print!(to; "mark");
    }
    let form = form_at(s, start);
    let head = head_length(form);
    if offset < head {
        to.print(fixed_field(form, offset))
    } else {
        print_listed(to, listed_at(s, start), known_at(s, start), offset - head)
    }
}

fn print_end(to: &impl Print, offset: usize) -> io::Result<()> {
    if offset < 4 {
        print!(to; "end record, count")
    } else {
        print!(to; "after the end record")
    }
}

fn print_field(to: &impl Print, s: &[u8], p: Place) -> io::Result<()> {
    let record = p.record;
    match record_at(s, p.start) {
        Record::Chain => {
            print!(to; "chain record {record}, ")?;
            print_chain(to, s, p.start, p.offset)
        }
        Record::End => print_end(to, p.offset),
        _ => print!(to; "record {record}, mark"),
    }
}

// Where the bytes run out before a mark: no byte of it is left, or one.
fn print_no_mark(to: &impl Print, p: Place) -> io::Result<()> {
    let record = p.record;
    if p.offset == 0 {
        print!(to; "before the end record")
    } else {
        print!(to; "in the mark of record {record}")
    }
}

// Where the bytes run out.
fn print_missing(to: &impl Print, s: &[u8], p: Place) -> io::Result<()> {
    let record = p.record;
    match record_at(s, p.start) {
        Record::Chain => print!(to; "in chain record {record}"),
        Record::End => print!(to; "in the end record"),
        _ => print_no_mark(to, p),
    }
}

fn print_length(to: &impl Print, s: &[u8]) -> io::Result<()> {
    if s.len() == 0 {
        return print!(to; "the table has 0 bytes");
    }
    if limit(s) == Table::BYTES {
        print!(to; "the table has more than 1,748 bytes")
    } else {
        print!(to; "the table has more than 1,284 bytes")
    }
}

// The field that stands at an offset.
pub(crate) fn print_field_at(to: &impl Print, s: &[u8], at: usize) -> io::Result<()> {
    print_field(to, s, place_of(s, at))
}

// The place of the fault.
pub(crate) fn print_place(to: &impl Print, s: &[u8], fault: Fault) -> io::Result<()> {
    let Fault(refusal, at) = fault;
    match refusal {
        Refusal::BadLength => print_length(to, s),
        Refusal::BytesMissing => {
            print!(to; "after {at} byte{}, ", plural(at))?;
            print_missing(to, s, place_of(s, at))
        }
        _ => print_field_at(to, s, at),
    }
}
