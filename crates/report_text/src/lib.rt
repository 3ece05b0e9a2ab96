// The report's text (document 01, 'The C editor and the report'), written into a lent buffer.
#![tactic(auto)]

mod lines;
mod text;

ghost use Rattle.std.specs.Prelude.{◌++◌, ◌≤◌, length};
ghost use Rattle.table.specs.Code.Taken.{Taken};
ghost use Rattle.table.specs.Read.{table_of};
ghost use Rattle.report_text.specs.Report.{header, refused_text, longest, Reported};
ghost use Rattle.slices.specs.Code.Wrote.{Wrote};
ghost use Rattle.report_text.specs.Code.Writing.{lines_in};

use lines::put_line;
use table::{Fault, Refusal, Table, count, judge};
use text::{put_byte, put_decimal, put_number, put_text};

// The longest line, and the longest report: the header and a line for each chain.
const LINE: usize = 68;

pub const LONGEST: usize = 35 + Table::CHAINS * LINE;

// The only line of a refused table.
fn put_refused(out: &mut [u8], refusal: Refusal, place: u32) -> usize
    requires { longest ≤ length out.old }
    ensures { Wrote out.old 0 (refused_text refusal place) out.new result }
{
    let after_word = put_text(out, 0, b"refused ");
    let after_number = put_decimal(out, after_word, refusal.number());
    let after_place = put_number(out, after_number, place);
    put_byte(out, after_place, b'\n')
}

// The header and a line for each chain.
fn put_lines(out: &mut [u8], s: &[u8]) -> usize
    requires { (longest ≤ length out.old) × Taken s.now }
    ensures { Wrote out.old 0 (header ++ lines_in (table_of s.now) (table_of s.now).count) out.new result }
{
    let mut at = put_text(out, 0, b"chain K latency late margin miss10\n");
    for chain in 0..count(s) {
        at = put_line(out, at, s, chain);
    }
    at
}

// The report of a stored table: its length, and the text at the start of the buffer.
pub fn report(table: &[u8], out: &mut [u8; LONGEST]) -> usize
    ensures { Reported table.now out.old out.new result }
{
    match judge(table) {
        Ok(()) => put_lines(out, table),
        Err(Fault(refusal, at)) => put_refused(out, refusal, at as u32),
    }
}
