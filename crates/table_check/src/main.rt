// Says of the stored table on standard input whether it is accepted, and of a refused one where it broke: reads, asks for the
// verdict, and writes one line.
#![tactic(auto)]

use input::take_in;
use table::Table;
use verdict_text::{put, put_counted, put_fault_in};

fn put_accepted(out: &impl Print, chains: usize) -> bool {
    put(out, b"accepted, ") && put_counted(out, chains, b" chain")
}

fn put_verdict(out: &impl Print, s: &[u8]) -> bool {
    match table::judge(s) {
        Ok(()) => put_accepted(out, table::count(s)),
        Err(fault) => put_fault_in(out, s, fault),
    }
}

fn print_line(out: &impl Print, err: &impl Print, s: &[u8]) {
    if !(put_verdict(out, s) && put(out, b"\n")) {
        put(err, b"check: standard output could not be written\n");
    }
}

// One byte more than the longest table has room, so that a longer one is seen to be too long.
fn main(rt: HostRuntime) {
    let mut buffer = [0u8; Table::BYTES + 1];
    let err = rt.stderr();
    match take_in(&mut rt.stdin(), &mut buffer) {
        Some(n) => print_line(&rt.stdout(), &err, &buffer[..n]),
        None => {
            put(&err, b"check: standard input could not be read\n");
        }
    }
}
