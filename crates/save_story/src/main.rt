// The story behind the save: two engineers open chain 1 of the sample table (from standard input), the first tightens its
// deadline and saves, the second saves a new cost from the old copy, is refused, reads again and saves: both edits are there.
#![tactic(auto)]

use cases::{read_full, say, say_number};
use table::Refusal;

// Chain 1 as an engineer sees it: its record is the table's first 36 bytes.
fn opened(table: &[u8; 160]) -> [u8; 36] {
    let mut chain = [0u8; 36];
    chain.copy_from_slice(&table[..36]);
    chain
}

// The record with another deadline or another cost of its first task, both below 256: the first byte of each is changed.
fn with_deadline(mut chain: [u8; 36], deadline: u8) -> [u8; 36] {
    chain[6] = deadline;
    chain
}

fn with_cost(mut chain: [u8; 36], cost: u8) -> [u8; 36] {
    chain[24] = cost;
    chain
}

// Prints the deadline and the first cost of chain 1.
fn tell(out: &impl Print, chain: [u8; 36]) {
    say_number(
        out,
        b"chain 1: deadline ",
        u64::from(table::u32_at(&chain, 6)),
    );
    say_number(out, b", cost ", u64::from(table::u32_at(&chain, 24)));
    say(out, b"\n");
}

// Prints the new used length, or `r` and the refusal number. Answers the used length from here on.
fn answered(out: &impl Print, saved: Result<u32, Refusal>, used: u64) -> u64 {
    match saved {
        Ok(n) => {
            say_number(out, b"", u64::from(n));
            say(out, b"\n");
            u64::from(n)
        }
        Err(refusal) => {
            say_number(out, b"r", u64::from(refusal.number()));
            say(out, b"\n");
            used
        }
    }
}

fn main(rt: HostRuntime) {
    let out = &rt.stdout();
    let mut table = [0u8; 160];
    let mut used = read_full(&mut rt.stdin(), &mut table) as u64;
    let first = opened(&table);
    let second = opened(&table);
    tell(out, first);
    say(out, b"the first saves deadline 30: ");
    let tightened = with_deadline(first, 30);
    used = answered(
        out,
        saving::save(&mut table, used, &first, &tightened),
        used,
    );
    say(out, b"the second saves cost 12 from the old copy: ");
    let dearer = with_cost(second, 12);
    used = answered(out, saving::save(&mut table, used, &second, &dearer), used);
    tell(out, opened(&table));
    say(out, b"the second reads again and saves cost 12: ");
    let again = opened(&table);
    let both = with_cost(again, 12);
    used = answered(out, saving::save(&mut table, used, &again, &both), used);
    tell(out, opened(&table));
}
