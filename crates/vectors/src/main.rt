// Runs packed cases with known answers through the queries, and says of each whose answer is another.
// A case is 28 bytes and a table: its kind, the number to be given back, six numbers, and the table's length. The text of a
// report follows its table.
#![tactic(auto)]

use cases::{Outcome, read_full, same, say, say_number, went};
use std::io::Read;
use table::{Fault, Refusal, u16_at, u32_at};

// More cases than the program is ever given: with a bound, its loop is known to end.
const MOST: u64 = 100_000;

#[derive(Clone, Copy)]
struct Case {
    kind: u8,
    number: u32,
    values: [u32; 6],
    length: usize,
}

fn case_of(head: &[u8; 28]) -> Case {
    let mut values = [0u32; 6];
    for k in 0..6 {
        values[k] = u32_at(head, 2 + 4 * k);
    }
    Case {
        kind: head[0],
        number: u32::from(head[1]),
        values,
        length: usize::from(u16_at(head, 26)),
    }
}

// The verdict on the table, and the place of its fault, `values[0]`.
fn verdict_right(s: &[u8], c: Case) -> bool {
    match table::judge(s) {
        Ok(()) => c.number == 0,
        Err(Fault(refusal, at)) => refusal.number() == c.number && at == c.values[0] as usize,
    }
}

// The active segment `values[2]` of the chain `values[0]` against `values[1]`: offset and length, and the part handed back.
fn segment_right(s: &[u8], c: Case) -> bool {
    let handed = segments::segment_part(s, c.values[0], c.values[1], c.values[2]);
    match segments::segment(s, c.values[0], c.values[1], c.values[2]) {
        Ok(part) => {
            c.number == 0
                && part.offset == c.values[3]
                && part.length == c.values[4]
                && part.length as usize == handed.len()
        }
        Err(refusal) => refusal.number() == c.number && handed.is_empty(),
    }
}

// A margin as it is packed: 10,000,000 are added, so that it is not negative.
fn lifted(margin: i32) -> i64 {
    i64::from(margin) + 10_000_000
}

// The figures of the chain `values[0]`: K, latency, late and margin.
fn latency_right(s: &[u8], c: Case) -> bool {
    match windows::latency(s, c.values[0]) {
        Ok(figures) => {
            c.number == 0
                && figures.close == c.values[1]
                && figures.latency == c.values[2]
                && figures.late == c.values[3]
                && lifted(figures.margin) == i64::from(c.values[4])
        }
        Err(refusal) => refusal.number() == c.number,
    }
}

fn missed_right(answer: Result<u32, Refusal>, c: Case) -> bool {
    match answer {
        Ok(n) => c.number == 0 && n == c.values[2],
        Err(refusal) => refusal.number() == c.number,
    }
}

// The misses of the chain `values[0]` in a run of `values[1]` activations.
fn misses_right(s: &[u8], c: Case) -> bool {
    missed_right(misses::misses(s, c.values[0], c.values[1]), c)
}

// The same by the plain engine.
fn plain_right(s: &[u8], c: Case) -> bool {
    missed_right(misses::misses_plain(s, c.values[0], c.values[1]), c)
}

// At most how many, by the sieve.
fn at_most_right(s: &[u8], c: Case) -> bool {
    match misses::at_most(s, c.values[0], c.values[1]) {
        Ok(sieved) => c.number == 0 && sieved.most == c.values[2],
        Err(refusal) => refusal.number() == c.number,
    }
}

// The report's text, whose `values[0]` bytes come next on standard input.
fn report_right(from: &mut impl Read, s: &[u8], c: Case) -> bool {
    let mut body = [0u8; 4096];
    let length = c.values[0] as usize;
    if body.len() < length {
        return false;
    }
    let expected = &mut body[..length];
    if read_full(from, expected) < length {
        return false;
    }
    let mut text = [0u8; report_text::LONGEST];
    let n = report_text::report(s, &mut text);
    same(&text[..n], expected)
}

fn right(from: &mut impl Read, s: &[u8], c: Case) -> bool {
    match c.kind {
        0 => verdict_right(s, c),
        1 => segment_right(s, c),
        2 => latency_right(s, c),
        3 => misses_right(s, c),
        4 => report_right(from, s, c),
        5 => plain_right(s, c),
        6 => at_most_right(s, c),
        _ => false,
    }
}

// Whether all bytes of the table were there and the answer is right.
fn case_right(from: &mut impl Read, c: Case, body: &mut [u8]) -> bool {
    let length = c.length;
    if body.len() < length {
        return false;
    }
    let bytes = &mut body[..length];
    read_full(from, bytes) == length && right(from, bytes, c)
}

fn next_case(from: &mut impl Read) -> Outcome {
    let mut head = [0u8; 28];
    if read_full(from, &mut head) < 28 {
        return Outcome::End;
    }
    let mut body = [0u8; 4096];
    went(case_right(from, case_of(&head), &mut body))
}

fn main(rt: HostRuntime) {
    let out = &rt.stdout();
    let mut from = rt.stdin();
    let mut all: u64 = 0;
    let mut as_expected: u64 = 0;
    for number in 0..MOST {
        match next_case(&mut from) {
            Outcome::End => break,
            Outcome::Right => as_expected += 1,
            Outcome::Wrong => {
                say_number(out, b"not as expected: case ", number);
                say(out, b"\n");
            }
        }
        all = number + 1;
    }
    say_number(out, b"", all);
    say_number(out, b" cases, as expected ", as_expected);
    say(out, b"\n");
}
