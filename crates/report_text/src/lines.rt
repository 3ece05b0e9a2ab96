// A chain's line, written into a lent buffer: the id, the figures, the misses.
ghost use Rattle.std.specs.Prelude.{◌+◌, ◌≤◌, ◌<◌, length};
ghost use Rattle.table.specs.Code.Taken.{Taken};
ghost use Rattle.table.specs.Read.{table_of};
ghost use Rattle.windows.specs.Latency.{figures_of};
ghost use Rattle.report_text.specs.Report.{after_space, missed_text, answers_text};
ghost use Rattle.slices.specs.Code.Wrote.{Wrote};
ghost use Rattle.report_text.specs.Code.Writing.{line_in};

use crate::text::{put_byte, put_decimal, put_number, put_refusal, put_signed, put_text};
use misses::misses_with;
use table::{Refusal, id_at, place};
use windows::{Windows, bound};

// The run of activations whose misses the report gives.
const MISS_RUN: u32 = 10;

// A space and the misses, or their refusal.
fn put_missed(out: &mut [u8], at: usize, missed: Result<u32, Refusal>) -> usize
    requires { at + 12 ≤ length out.old }
    ensures { Wrote out.old at (after_space (missed_text missed)) out.new result × (result ≤ at + 12) }
{
    match missed {
        Ok(n) => put_number(out, at, n),
        Err(refusal) => put_refusal(out, at, refusal),
    }
}

// What stands after the id: the figures and the misses, or the latency refusal alone.
fn put_answers(
    out: &mut [u8],
    at: usize,
    windows: Result<Windows, Refusal>,
    missed: Result<u32, Refusal>,
) -> usize
    requires { at + 57 ≤ length out.old }
    ensures { Wrote out.old at (answers_text (figures_of windows) missed) out.new result × (result ≤ at + 57) }
{
    match windows {
        Ok(w) => {
            let after_close = put_number(out, at, w.figures.close);
            let after_latency = put_number(out, after_close, w.figures.latency);
            let after_late = put_number(out, after_latency, w.figures.late);
            let after_margin = put_signed(out, after_late, w.figures.margin);
            put_missed(out, after_margin, missed)
        }
        Err(refusal) => put_refusal(out, at, refusal),
    }
}

// The line of the chain of that number. Its windows are worked out once, for both answers.
pub fn put_line(out: &mut [u8], at: usize, s: &[u8], chain: usize) -> usize
    requires { (at + 68 ≤ length out.old) × Taken s.now × (chain < (table_of s.now).count) }
    ensures { Wrote out.old at (line_in (table_of s.now) chain) out.new result × (result ≤ at + 68) }
{
    let windows = bound(s, chain);
    let missed = misses_with(s, chain, MISS_RUN, windows);
    let id = id_at(s, place(s, chain));
    let after_id = put_decimal(out, at, u32::from(id));
    let end = put_answers(out, after_id, windows, missed);
    put_byte(out, end, b'\n')
}
