// Reads the stored table on standard input and prints its rows: a line for each chain.
#![tactic(auto)]

use cases::{read_full, say, say_number};
use table::{Fault, Row, Table, has_flag};

// The first n numbers of the list.
fn show_list(out: &impl Print, list: &[u32], n: usize) {
    for number in list.iter().take(n) {
        say_number(out, b" ", u64::from(*number));
    }
}

fn show_tasks(out: &impl Print, r: &Row) {
    for (priority, cost) in r.priority.iter().zip(r.cost.iter()).take(r.tasks) {
        say_number(out, b" ", u64::from(*priority));
        say_number(out, b"/", u64::from(*cost));
    }
}

// What its form has in the gap's place.
fn show_gap(out: &impl Print, r: &Row) {
    if has_flag(r.form) {
        say_number(out, b" flag ", u64::from(r.flag));
    } else {
        say_number(out, b" gap ", u64::from(r.gap));
    }
}

// The distances, and the largest ones where they are known.
fn show_lists(out: &impl Print, r: &Row) {
    say(out, b" list");
    show_list(out, &r.list, r.listed);
    if r.flag == 1 {
        say(out, b" largest");
        show_list(out, &r.largest, r.listed);
    }
}

fn show(out: &impl Print, r: &Row) {
    say_number(out, b"chain ", u64::from(r.id));
    say_number(out, b" kind ", u64::from(r.kind));
    say_number(out, b" overload ", u64::from(r.overload));
    say_number(out, b" deadline ", u64::from(r.deadline));
    show_gap(out, r);
    show_lists(out, r);
    say(out, b" tasks");
    show_tasks(out, r);
    say(out, b"\n");
}

fn show_table(out: &impl Print, t: &Table) {
    for row in t.row.iter().take(t.count) {
        show(out, row);
    }
}

fn main(rt: HostRuntime) {
    let out = &rt.stdout();
    let mut buffer = [0u8; 4096];
    let n = read_full(&mut rt.stdin(), &mut buffer);
    match table::read(&buffer[..n]) {
        Ok(t) => show_table(out, &t),
        Err(Fault(refusal, at)) => {
            say_number(out, b"refused ", u64::from(refusal.number()));
            say_number(out, b" ", at as u64);
            say(out, b"\n");
        }
    }
}
