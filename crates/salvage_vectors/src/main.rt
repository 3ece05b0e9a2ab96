// Runs packed cases of a salvage (tests/pack_salvage.py says how they are packed) from standard input, and prints a line for each
// case that is not as expected and a last line with the counts.
#![tactic(auto)]

use cases::{Outcome, filled, read_full, same, scribbled, went};
use salvaging::Lengths;
use std::io::Read;
use table::Refusal;

// What a case expects: the refusal number, 0 for none, and the used lengths of the table and of the list.
#[derive(Clone, Copy)]
struct Expected {
    number: u32,
    table: u32,
    list: u32,
}

// Whether the answer has the expected number, and lengths where it is accepted.
fn answers(salvaged: Result<Lengths, Refusal>, expected: Expected) -> bool {
    match salvaged {
        Ok(used) => {
            expected.number == 0 && used.table == expected.table && used.list == expected.list
        }
        Err(refusal) => refusal.number() == expected.number,
    }
}

// Whether the salvage answers as expected and leaves the expected bytes in both buffers.
fn leaves_as_expected(
    s: &[u8],
    table: &mut [u8],
    list: &mut [u8],
    expected: Expected,
    table_after: &[u8],
    list_after: &[u8],
) -> bool {
    let salvaged = salvaging::salvage(s, table, list);
    answers(salvaged, expected) && same(table, table_after) && same(list, list_after)
}

// Reads a length and so many bytes to the start of the buffer: how many, unless not all of them were there.
fn take_part(from: &mut impl Read, buffer: &mut [u8]) -> Option<u32> {
    let mut head = [0u8; 2];
    if read_full(from, &mut head) < 2 {
        return None;
    }
    let length = table::u16_at(&head, 0);
    let n = usize::from(length);
    if filled(from, buffer, n) < n {
        return None;
    }
    Some(u32::from(length))
}

// Reads what is expected of the salvage, and looks whether it is so. Each result stands before the bytes that stay.
fn as_expected(from: &mut impl Read, s: &[u8]) -> bool {
    let mut head = [0u8; 8];
    if read_full(from, &mut head) < 8 {
        return false;
    }
    let table_room = usize::from(table::u16_at(&head, 0));
    let list_room = usize::from(table::u16_at(&head, 2));
    let number = table::u32_at(&head, 4);
    let mut table_after = scribbled();
    let Some(table) = take_part(from, &mut table_after) else {
        return false;
    };
    let mut list_after = scribbled();
    let Some(list) = take_part(from, &mut list_after) else {
        return false;
    };
    let mut table_buffer = scribbled();
    let mut list_buffer = scribbled();
    leaves_as_expected(
        s,
        &mut table_buffer[..table_room],
        &mut list_buffer[..list_room],
        Expected {
            number,
            table,
            list,
        },
        &table_after[..table_room],
        &list_after[..list_room],
    )
}

// Reads the input of a case, and then the rest of it.
fn case(from: &mut impl Read) -> Outcome {
    let mut head = [0u8; 2];
    if read_full(from, &mut head) < 2 {
        return Outcome::End;
    }
    let mut input = [0u8; 65536];
    let n = filled(from, &mut input, usize::from(table::u16_at(&head, 0)));
    went(as_expected(from, &input[..n]))
}

fn main(rt: HostRuntime) {
    cases::run(&mut rt.stdin(), &rt.stdout(), case);
}
