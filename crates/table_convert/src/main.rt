// Writes a stored table in the other form. The first argument names its file: a table with gaps gets largest distances; where there is a
// second argument, a table with largest distances gets gaps. The result alone goes to standard output; where there is none, standard
// error has why.
#![tactic(auto)]

ghost use Rattle.table.specs.Code.Taken.{Taken};

use converting::{To, convert, fits_gap};
use input::{has_argument, take_file};
use std::rt::Env;
use table::{Refusal, Table, count, id_at, place};
use verdict_text::{put, put_fault_in, put_words};

// The form asked.
fn asked(rt: &impl Env) -> To {
    if has_argument(rt, 2) {
        To::Gap
    } else {
        To::Largest
    }
}

// ---- The answer: each function says whether it was written ----

fn put_result(out: &impl Print, err: &impl Print, res: &[u8]) -> bool {
    let is_written = put(out, res);
    if !is_written {
        put(err, b"convert: standard output could not be written\n");
    }
    is_written
}

// The id of the first chain that cannot be said with a gap.
fn first_unfit(s: &[u8]) -> Option<u16>
    requires { Taken s.now }
{
    for chain in 0..count(s) {
        let at = place(s, chain);
        if !fits_gap(s, at) {
            return Some(id_at(s, at));
        }
    }
    None
}

// That the chain with the id cannot be said with a gap; where there is none, that the table has gaps already.
fn put_unfit(err: &impl Print, unfit: Option<u16>) -> bool {
    match unfit {
        Some(id) => print!(err;
            "chain {id} has largest distances other than 1, 2, 3, .. times a gap of at most 10,000,000"
        ).is_ok(),
        None => put(err, b"the table already has the form CH"),
    }
}

// Why a table cannot be given the form asked. Every chain can have largest distances, so there the table has them already.
fn put_reason(err: &impl Print, s: &[u8], to: To) -> bool
    requires { Taken s.now }
{
    match to {
        To::Largest => put(err, b"the table already has the form CG"),
        To::Gap => put_unfit(err, first_unfit(s)),
    }
}

fn put_no_form(err: &impl Print, s: &[u8], to: To) -> bool
    requires { Taken s.now }
{
    put_words(err, Refusal::NoSuchForm)
        && put(err, b" (")
        && put_reason(err, s, to)
        && put(err, b")")
}

// Why there is no result. Every result has room, so an accepted table is refused for its form alone.
fn put_why(err: &impl Print, s: &[u8], to: To) -> bool {
    match table::judge(s) {
        Ok(()) => put_no_form(err, s, to),
        Err(fault) => put_fault_in(err, s, fault),
    }
}

fn put_converted(out: &impl Print, err: &impl Print, s: &[u8], to: To) -> bool {
    let mut res = [0u8; Table::BYTES];
    match convert(s, &mut res, to) {
        Ok(n) => {
            let used = n as usize;
            put_result(out, err, &res[..used])
        }
        Err(_) => put_why(err, s, to) && put(err, b"\n"),
    }
}

// One byte more than the longest table has room, so that a longer one is seen to be too long.
fn main(rt: HostRuntime) {
    let err = &rt.stderr();
    let mut buffer = [0u8; Table::BYTES + 1];
    if let Some(n) = take_file(&rt, err, 1, b"table", &mut buffer) {
        put_converted(&rt.stdout(), err, &buffer[..n], asked(&rt));
    }
}
