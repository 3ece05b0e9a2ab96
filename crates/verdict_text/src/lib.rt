// A refusal in words: its number, what is wrong, and for a table's also the byte at which it broke, and in which record and field.
// What puts something answers whether it was written.
#![tactic(auto)]

mod by_number;
mod output;
mod place;
mod sentence;

pub use by_number::{put_refusal, put_refused, put_sentence};
pub use output::{put, put_counted, put_number};
use place::print_place;
use sentence::sentence;
use std::io;
use table::{Fault, Refusal};

// The number, and the header's sentence for it.
pub fn put_words(to: &impl Print, refusal: Refusal) -> bool {
    print!(to; "refused {}: {}", refusal.number(), sentence(refusal)).is_ok()
}

fn print_fault(to: &impl Print, fault: Fault) -> io::Result<()> {
    let Fault(refusal, at) = fault;
    print!(to;
        "refused {} at byte {at}: {}",
        refusal.number(),
        sentence(refusal)
    )
}

// The same with the byte between them.
pub fn put_fault(to: &impl Print, fault: Fault) -> bool {
    print_fault(to, fault).is_ok()
}

fn print_fault_in(to: &impl Print, s: &[u8], fault: Fault) -> io::Result<()> {
    print_fault(to, fault)?;
    print!(to; " (")?;
    print_place(to, s, fault)?;
    print!(to; ")")
}

// The same of a table that is there: after it, in brackets, the record and the field.
pub fn put_fault_in(to: &impl Print, s: &[u8], fault: Fault) -> bool {
    print_fault_in(to, s, fault).is_ok()
}
