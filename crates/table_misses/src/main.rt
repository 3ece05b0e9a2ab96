// Says of each chain of the stored table on standard input how many deadlines it misses in a run of activations: as the ordinary engine
// counts them, as the plain one does, and at most, by the sieve. The first argument is how long the run is. Where there is a second one,
// the plain engine goes through however many packings there are.
#![tactic(auto)]

mod counting;

ghost use Rattle.std.specs.Prelude.{◌<◌};
ghost use Rattle.table.specs.Code.Taken.{Taken};
ghost use Rattle.table.specs.Read.{table_of};

use counting::{Count, Extent, counted};
use input::{has_argument, take_in};
use misses::{AtMost, at_most, misses};
use std::rt::Env;
use table::{Refusal, Table, id_at, place};
use verdict_text::{put, put_fault_in, put_number};

// ---- The arguments ----

// The number that n becomes by one digit more. What is no digit, or comes after a number that is too large for a run already, makes it
// one that every query refuses.
fn with_digit(n: u32, digit: u8) -> u32 {
    if 1_000 < n || digit < b'0' || b'9' < digit {
        return 1_001;
    }
    n * 10 + (digit - b'0') as u32
}

// The number that the digits say.
fn number_of(digits: &[u8]) -> u32 {
    let mut n: u32 = 0;
    for digit in digits {
        n = with_digit(n, *digit);
    }
    n
}

// How long the run is; 0, which every query refuses, where there is no argument.
fn run(rt: &impl Env) -> u32 {
    let mut word = [0u8; 4096];
    match rt.arg(1, &mut word) {
        Ok(n) => number_of(&word[..n]),
        Err(_) => 0,
    }
}

// Every packing where there is a second argument.
fn extent(rt: &impl Env) -> Extent {
    if has_argument(rt, 2) {
        Extent::Every
    } else {
        Extent::First
    }
}

// ---- The lines: each function says whether its piece was written ----

// A number in its column.
fn put_column(out: &impl Print, n: u32) -> bool {
    put(out, b" ") && put_number(out, n as usize)
}

// A refusal's number in a column.
fn put_refusal(out: &impl Print, refusal: Refusal) -> bool {
    put(out, b" r") && put_number(out, refusal.number() as usize)
}

// The misses, or their refusal.
fn put_misses(out: &impl Print, answer: Result<u32, Refusal>) -> bool {
    match answer {
        Ok(n) => put_column(out, n),
        Err(refusal) => put_refusal(out, refusal),
    }
}

// The plain engine's count, or the refusal; `-` where it was given up.
fn put_plain(out: &impl Print, plain: Result<Count, Refusal>) -> bool {
    match plain {
        Ok(Count::Known(n)) => put_column(out, n),
        Ok(Count::GivenUp) => put(out, b" -"),
        Err(refusal) => put_refusal(out, refusal),
    }
}

// The sieve's number, which is no miss count, or the refusal.
fn put_at_most(out: &impl Print, sieved: Result<AtMost, Refusal>) -> bool {
    match sieved {
        Ok(at_most) => put_column(out, at_most.most),
        Err(refusal) => put_refusal(out, refusal),
    }
}

// The line of the chain with the id. Nothing of it is written before all of it is known, so what is said meanwhile on standard error
// comes between two lines.
fn put_line(out: &impl Print, err: &impl Print, s: &[u8], id: u32, k: u32, extent: Extent) -> bool {
    let exact = misses(s, id, k);
    let plain = counted(err, s, id, k, extent);
    let sieved = at_most(s, id, k);
    let first = put_number(out, id as usize) && put_misses(out, exact);
    first && put_plain(out, plain) && put_at_most(out, sieved) && put(out, b"\n")
}

// The id of the chain of that number.
fn id_of(s: &[u8], chain: usize) -> u32
    requires { Taken s.now × (chain < (table_of s.now).count) }
{
    u32::from(id_at(s, place(s, chain)))
}

// A line for each chain, in the table's order.
fn put_lines(out: &impl Print, err: &impl Print, s: &[u8], k: u32, extent: Extent) -> bool
    requires { Taken s.now }
{
    let chains = table::count(s);
    for chain in 0..chains {
        if !put_line(out, err, s, id_of(s, chain), k, extent) {
            return false;
        }
    }
    true
}

// The heading and the lines; of a refused table its one line.
fn put_table(out: &impl Print, err: &impl Print, s: &[u8], k: u32, extent: Extent) -> bool {
    match table::judge(s) {
        Ok(()) => { put(out, b"chain misses plain at_most\n") && put_lines(out, err, s, k, extent) }
        Err(fault) => put_fault_in(out, s, fault) && put(out, b"\n"),
    }
}

// All that there is to print, or that it could not be written.
fn print_table(rt: &impl Env, out: &impl Print, err: &impl Print, s: &[u8]) {
    if !put_table(out, err, s, run(rt), extent(rt)) {
        put(err, b"misses: standard output could not be written\n");
    }
}

// One byte more than the longest table has room, so that a longer one is seen to be too long.
fn main(rt: HostRuntime) {
    let mut buffer = [0u8; Table::BYTES + 1];
    let err = &rt.stderr();
    match take_in(&mut rt.stdin(), &mut buffer) {
        Some(n) => print_table(&rt, &rt.stdout(), err, &buffer[..n]),
        None => {
            put(err, b"misses: standard input could not be read\n");
        }
    }
}
