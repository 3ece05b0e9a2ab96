// The story behind the merge: two engineers copy the sample table (from standard input); in chain 1 the first tightens the
// deadline and the second raises a cost: the merge is refused, and chain 1 is told. The second raises the cost of chain 2
// instead: both edits are there.
#![tactic(auto)]

use cases::{read_full, say, say_number};
use table::Refusal;

// A copy with another deadline of chain 1, another cost of its first task, or of chain 2's, each below 256: the first byte of
// each is changed. The record of chain 1 is the table's first 36 bytes, that of chain 2 comes next.
fn with_deadline_of_1(mut copy: [u8; 140], deadline: u8) -> [u8; 140] {
    copy[6] = deadline;
    copy
}

fn with_cost_of_1(mut copy: [u8; 140], cost: u8) -> [u8; 140] {
    copy[24] = cost;
    copy
}

fn with_cost_of_2(mut copy: [u8; 140], cost: u8) -> [u8; 140] {
    copy[60] = cost;
    copy
}

// Prints these three fields of a table.
fn tell(out: &impl Print, table: [u8; 140]) {
    say_number(out, b"chain 1: deadline ", table::u32_at(&table, 6) as u64);
    say_number(out, b", cost ", table::u32_at(&table, 24) as u64);
    say_number(out, b"; chain 2: cost ", table::u32_at(&table, 60) as u64);
    say(out, b"\n");
}

// Prints the used length, or `r` and the refusal number.
fn tell_merged(out: &impl Print, merged: Result<u32, Refusal>) {
    match merged {
        Ok(n) => say_number(out, b"", n as u64),
        Err(refusal) => say_number(out, b"r", refusal.number() as u64),
    }
    say(out, b"\n");
}

// Prints the chain in conflict, 0 if there is none, or `r` and the refusal number.
fn tell_found(out: &impl Print, found: Result<u32, Refusal>) {
    match found {
        Ok(id) => say_number(out, b"in conflict: chain ", id as u64),
        Err(refusal) => say_number(out, b"in conflict: r", refusal.number() as u64),
    }
    say(out, b"\n");
}

fn main(rt: HostRuntime) {
    let out = &rt.stdout();
    let mut sample = [0u8; 140];
    read_full(&mut rt.stdin(), &mut sample);
    tell(out, sample);
    say(
        out,
        b"the first tightens chain 1 to deadline 30, the second raises its cost to 12: ",
    );
    let first = with_deadline_of_1(sample, 30);
    let second = with_cost_of_1(sample, 12);
    let mut result = [0u8; 140];
    let refused = merging::merge(&sample, &first, &second, &mut result);
    tell_merged(out, refused.map_err(Refusal::from));
    tell_found(out, merging::conflict(&sample, &first, &second, 0));
    say(out, b"the second raises the cost of chain 2 to 7 instead: ");
    let instead = with_cost_of_2(sample, 7);
    let merged = merging::merge(&sample, &first, &instead, &mut result);
    tell_merged(out, merged.map_err(Refusal::from));
    tell(out, result);
}
