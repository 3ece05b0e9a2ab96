// Runs packed cases of a save (tests/pack_save.py says how they are packed) from standard input, and prints a line for each
// case that is not as expected and a last line with the counts.
#![tactic(auto)]

use cases::{Outcome, filled, read_full, same, went};
use std::io::Read;
use table::Refusal;

// Room for each of a case's byte strings; a case with a longer one is not as expected.
const ROOM: usize = 8192;

// What a case expects: the refusal number, 0 for none, and the new used length.
#[derive(Clone, Copy)]
struct Expected {
    number: u32,
    length: u32,
}

// Whether the answer has the expected number, and figure where it is accepted.
fn answers(saved: Result<u32, Refusal>, expected: Expected) -> bool {
    match saved {
        Ok(n) => expected.number == 0 && n == expected.length,
        Err(refusal) => refusal.number() == expected.number,
    }
}

// Whether the save answers as expected and leaves the expected bytes.
fn as_expected(
    buffer: &mut [u8],
    used: u64,
    old: &[u8],
    new: &[u8],
    expected: Expected,
    after: &[u8],
) -> bool {
    let saved = saving::save(buffer, used, old, new);
    answers(saved, expected) && same(buffer, after)
}

// Reads the bytes of a case and runs it.
fn run(
    from: &mut impl Read,
    n: usize,
    used: u64,
    o: usize,
    m: usize,
    expected: Expected,
) -> Outcome {
    let mut buffer = [0u8; ROOM];
    let mut old = [0u8; ROOM];
    let mut new = [0u8; ROOM];
    let mut after = [0u8; ROOM];
    let b = filled(from, &mut buffer, n);
    let c = filled(from, &mut old, o);
    let d = filled(from, &mut new, m);
    let e = filled(from, &mut after, n);
    if b != n || c != o || d != m || e != n {
        return Outcome::Wrong;
    }
    went(as_expected(
        &mut buffer[..b],
        used,
        &old[..c],
        &new[..d],
        expected,
        &after[..e],
    ))
}

// Reads the numbers of a case, and then the rest of it.
fn case(from: &mut impl Read) -> Outcome {
    let mut head = [0u8; 28];
    if read_full(from, &mut head) < 28 {
        return Outcome::End;
    }
    let n = table::u32_at(&head, 0) as usize;
    let used = u64::from(table::u32_at(&head, 4))
        + u64::from(table::u32_at(&head, 8)) * 4_294_967_296;
    let o = table::u32_at(&head, 12) as usize;
    let m = table::u32_at(&head, 16) as usize;
    let number = table::u32_at(&head, 20);
    let length = table::u32_at(&head, 24);
    run(from, n, used, o, m, Expected { number, length })
}

fn main(rt: HostRuntime) {
    cases::run(&mut rt.stdin(), &rt.stdout(), case);
}
