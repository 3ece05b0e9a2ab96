// What each number is told as, and where: of the sample table (from standard input), at one byte after another. 0, 8, 20 and 37 to 40 are no
// refusal's number.
#![tactic(auto)]

use cases::{read_full, say, say_number};
use verdict_text::{put_refusal, put_refused, put_sentence};

// How far apart the bytes are that are told of.
const APART: usize = 7;

// Whether all of a number's lines were written.
fn told(out: &impl Print, s: &[u8], number: u32) -> bool {
    let at = number as usize * APART;
    say_number(out, b"", u64::from(number));
    say(out, b": ");
    let words = put_sentence(out, number);
    say(out, b"\n");
    let line = put_refusal(out, number, at);
    say(out, b"\n");
    let place = put_refused(out, s, number, at);
    say(out, b"\n");
    words && line && place
}

fn main(rt: HostRuntime) {
    let out = &rt.stdout();
    let mut table = [0u8; 140];
    let n = read_full(&mut rt.stdin(), &mut table);
    for number in 0..41 {
        if !told(out, &table[..n], number) {
            say(out, b"not written\n");
        }
    }
}
