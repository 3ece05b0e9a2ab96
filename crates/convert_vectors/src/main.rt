// Runs packed cases of a conversion (tests/pack_convert.py says how they are packed) from standard input, and prints a line for each
// case that is not as expected and a last line with the counts.
#![tactic(auto)]

use cases::{Outcome, filled, read_full, same, scribbled, went};
use std::io::Read;
use table::Refusal;

// What a case expects: the refusal number, 0 for none, and the used length.
#[derive(Clone, Copy)]
struct Expected {
    number: u32,
    length: u32,
}

// The conversion asked: 0 for the one to gaps, else to largest distances.
fn convert(asked: u8, s: &[u8], out: &mut [u8]) -> Result<u32, Refusal> {
    match asked {
        0 => converting::to_gap(s, out),
        _ => converting::to_largest(s, out),
    }
}

// Whether the answer has the expected number, and length where it is accepted.
fn answers(written: Result<u32, Refusal>, expected: Expected) -> bool {
    match written {
        Ok(n) => expected.number == 0 && n == expected.length,
        Err(refusal) => refusal.number() == expected.number,
    }
}

// Whether the conversion answers as expected and leaves the expected bytes.
fn leaves_as_expected(
    asked: u8,
    s: &[u8],
    buffer: &mut [u8],
    expected: Expected,
    after: &[u8],
) -> bool {
    let written = convert(asked, s, buffer);
    answers(written, expected) && same(buffer, after)
}

// Reads what is expected of the conversion, and looks whether it is so. The result stands before the bytes that stay.
fn as_expected(from: &mut impl Read, asked: u8, s: &[u8]) -> bool {
    let mut head = [0u8; 8];
    if read_full(from, &mut head) < 8 {
        return false;
    }
    let room = table::u16_at(&head, 0) as usize;
    let number = table::u32_at(&head, 2);
    let used = table::u16_at(&head, 6) as usize;
    let mut after = scribbled();
    if filled(from, &mut after, used) < used {
        return false;
    }
    let length = used as u32;
    let mut buffer = scribbled();
    leaves_as_expected(
        asked,
        s,
        &mut buffer[..room],
        Expected { number, length },
        &after[..room],
    )
}

// Reads the form asked and the table of a case, and then the rest of it.
fn case(from: &mut impl Read) -> Outcome {
    let mut head = [0u8; 3];
    if read_full(from, &mut head) < 3 {
        return Outcome::End;
    }
    let mut table = [0u8; 65536];
    let n = filled(from, &mut table, table::u16_at(&head, 1) as usize);
    went(as_expected(from, head[0], &table[..n]))
}

fn main(rt: HostRuntime) {
    cases::run(&mut rt.stdin(), &rt.stdout(), case);
}
