// Merges two edited copies of a table, given their common ancestor: its three arguments name the files of the ancestor, the
// first and the second copy. The result alone goes to standard output; where there is none, standard error has why.
#![tactic(auto)]

use input::take_file;
use merging::Unmerged;
use table::{Fault, Refusal, Table};
use verdict_text::{put, put_fault, put_fault_in, put_number, put_words};

// One byte more than the longest table, so that a longer one is seen to be too long.
const READ: usize = Table::BYTES + 1;

// Each record of a result stands in one of the two copies, so every result has room.
const ROOM: usize = 2 * Table::BYTES;

// ---- The answer: each function says whether it was written ----

fn put_result(out: &impl Print, err: &impl Print, res: &[u8]) -> bool {
    let is_written = put(out, res);
    if !is_written {
        put(err, b"merge: standard output could not be written\n");
    }
    is_written
}

// A table's own refusal.
fn put_table_refused(err: &impl Print, which: &[u8], s: &[u8], fault: Fault) -> bool {
    let whose = put(err, which) && put(err, b": ");
    whose && put_fault_in(err, s, fault) && put(err, b"\n")
}

// The result's bytes are not there, so its record and field are not told.
fn put_result_refused(err: &impl Print, fault: Fault) -> bool {
    let whose = put(err, b"result: ");
    whose && put_fault(err, fault) && put(err, b"\n")
}

fn put_no_room(err: &impl Print) -> bool {
    let whose = put(err, b"result: ");
    whose && put_words(err, Refusal::BufferShort) && put(err, b"\n")
}

fn put_in_conflict(err: &impl Print, id: u32) -> bool {
    let which = put(err, b"conflict: chain ") && put_number(err, id as usize);
    which
        && put(
            err,
            b" is changed, removed or added differently in the two copies\n",
        )
}

// A line for each id in conflict, in rising order.
fn put_ids(err: &impl Print, ancestor: &[u8], first: &[u8], second: &[u8]) -> bool {
    let mut above: u32 = 0;
    let mut is_written = true;
    while is_written {
        let id = merging::conflict(ancestor, first, second, above).unwrap_or(0);
        if id <= above {
            break;
        }
        is_written = put_in_conflict(err, id);
        above = id;
    }
    is_written
}

fn put_conflicts(err: &impl Print, ancestor: &[u8], first: &[u8], second: &[u8]) -> bool {
    let line = put_words(err, Refusal::Conflicting) && put(err, b"\n");
    line && put_ids(err, ancestor, first, second)
}

fn put_merged<'a>(
    out: &impl Print,
    err: &impl Print,
    ancestor: &[u8],
    first: &'a [u8],
    second: &'a [u8],
) -> bool {
    let mut res = [0u8; ROOM];
    match merging::merge(ancestor, first, second, &mut res) {
        Ok(n) => {
            let used = n as usize;
            put_result(out, err, &res[..used])
        }
        Err(Unmerged::Ancestor(fault)) => put_table_refused(err, b"ancestor", ancestor, fault),
        Err(Unmerged::First(fault)) => put_table_refused(err, b"first copy", first, fault),
        Err(Unmerged::Second(fault)) => put_table_refused(err, b"second copy", second, fault),
        Err(Unmerged::Conflict(_)) => put_conflicts(err, ancestor, first, second),
        Err(Unmerged::NoRoom) => put_no_room(err),
        Err(Unmerged::Merged(fault)) => put_result_refused(err, fault),
    }
}

fn main(rt: HostRuntime) {
    let err = &rt.stderr();
    let mut ancestor = [0u8; READ];
    let Some(a) = take_file(&rt, err, 1, b"ancestor", &mut ancestor) else {
        return;
    };
    let mut first = [0u8; READ];
    let Some(f) = take_file(&rt, err, 2, b"first copy", &mut first) else {
        return;
    };
    let mut second = [0u8; READ];
    let Some(s) = take_file(&rt, err, 3, b"second copy", &mut second) else {
        return;
    };
    put_merged(&rt.stdout(), err, &ancestor[..a], &first[..f], &second[..s]);
}
