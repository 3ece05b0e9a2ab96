// What the test programs share: packed cases with known answers, as a program reads them from standard input, and what it says of
// them. What could not be written is not told.
#![tactic(auto)]

ghost use Rattle.std.specs.Prelude.{◌≡◌, ◌≤◌, ◌↔◌, IsTrue, length, take};

pub use input::read_full;
use std::io::Read;

// More cases than a program is ever given: with a bound, the loop over them is known to end.
pub const MOST: u64 = 1_000_000;

// How a case went; `End` where none is left.
#[derive(Clone, Copy)]
pub enum Outcome {
    End,
    Right,
    Wrong,
}

pub fn went(is_right: bool) -> Outcome {
    if is_right {
        Outcome::Right
    } else {
        Outcome::Wrong
    }
}

// Reads n bytes to the start of the buffer, and answers how many it put there: fewer where they do not fit or the input ends.
pub fn filled(from: &mut impl Read, buffer: &mut [u8], n: usize) -> usize
    ensures bound { result ≤ length buffer.new }
    ensures whole { result ≡ length (take result buffer.new) }
{
    if buffer.len() < n {
        return 0;
    }
    read_full(from, &mut buffer[..n])
}

// Whether the bytes are the same.
pub fn same(a: &[u8], b: &[u8]) -> bool
    ensures { IsTrue result ↔ a.now ≡ b.now }
{
    a == b
}

// Bytes that are not 0 and differ from those near them, so that each that is written or moved is seen.
pub fn scribbled() -> [u8; 65536]
    ensures { 65536 ≡ length result }
{
    let mut bytes = [0u8; 65536];
    for (i, byte) in bytes.iter_mut().enumerate() {
        *byte = (i % 251 + 1) as u8;
    }
    bytes
}

pub fn say(out: &impl Print, text: &[u8]) {
    let _ = out.write_all(text);
}

// Text and a number after it.
pub fn say_number(out: &impl Print, text: &[u8], n: u64) {
    say(out, text);
    let _ = out.print(n);
}

fn say_wrong(out: &impl Print, case: u64) {
    say_number(out, b"not as expected: case ", case);
    say(out, b"\n");
}

// How many more cases are right with this one, which is named where it is not.
pub fn told(out: &impl Print, case: u64, outcome: Outcome) -> u64
    ensures { result ≤ 1 }
{
    match outcome {
        Outcome::End => 0,
        Outcome::Right => 1,
        Outcome::Wrong => {
            say_wrong(out, case);
            0
        }
    }
}

// Runs the cases, which count from 1, until none is left.
pub fn run<R: Read, Case: Fn(&mut R) -> Outcome>(from: &mut R, out: &impl Print, case: Case)
    requires { Case.IsAlwaysCallable case }
{
    let mut cases: u64 = 0;
    let mut right: u64 = 0;
    for number in 1..=MOST {
        let outcome = case(from);
        if let Outcome::End = outcome {
            break;
        }
        cases = number;
        right += told(out, number, outcome);
    }
    say_counts(out, cases, right);
}

pub fn say_counts(out: &impl Print, cases: u64, right: u64) {
    say_number(out, b"", cases);
    say_number(out, b" cases, ", right);
    say(out, b" as expected\n");
}
