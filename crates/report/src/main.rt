// Prints the report of the stored table on standard input: reads, calls and writes, and nothing else.
#![tactic(auto)]

use input::take_in;
use report_text::LONGEST;
use table::Table;

fn print_report(out: &impl Print, err: &impl Print, stored: &[u8]) {
    let mut text = [0u8; LONGEST];
    let n = report_text::report(stored, &mut text);
    if out.write_all(&text[..n]).is_err() {
        let _ = err.write_all(b"report: standard output could not be written\n");
    }
}

// One byte more than the longest table has room, so that a longer one is seen to be too long.
fn main(rt: HostRuntime) {
    let mut buffer = [0u8; Table::BYTES + 1];
    let err = rt.stderr();
    match take_in(&mut rt.stdin(), &mut buffer) {
        Some(n) => print_report(&rt.stdout(), &err, &buffer[..n]),
        None => {
            let _ = err.write_all(b"report: standard input could not be read\n");
        }
    }
}
