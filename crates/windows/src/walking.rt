// K, latency, late, margin and the last window, activation by activation.
ghost use Rattle.std.specs.Prelude.{◌≡◌, ◌≤◌};
ghost use Rattle.table.specs.Limits.{horizon, max_deadline};
ghost use Rattle.windows.specs.Latency.{over_of, margin_of};
ghost use Rattle.windows.specs.Code.Load.{load_of, Sound, windows_in};

use crate::climbing::climb;
use crate::{Figures, Own, Windows};
use arrivals::delta;
use table::{Refusal, Table, deadline_at};

// 1 where x exceeds the deadline.
fn over(x: u64, deadline: u64) -> u32
    ensures { result ≡ over_of x deadline }
{
    u32::from(deadline < x)
}

// Deadline minus latency, signed.
fn margin(deadline: u32, latency: u32) -> i32
    requires { (deadline ≤ max_deadline) × (latency ≤ horizon) }
    ensures { result ≡ margin_of deadline latency }
{
    (deadline as i32) - (latency as i32)
}

// Takes q = 1, 2, ..: each window's climb starts where the window before ended, with the counts of arrivals that it had there.
pub fn walk(s: &[u8], own: Own, held: &[u64; Own::HELD]) -> Result<Windows, Refusal>
    requires { Sound (load_of s.now own held.now) }
    ensures { result ≡ windows_in (load_of s.now own held.now) }
{
    let deadline = deadline_at(s, own.at);
    let mut counts = [0u64; Own::COUNTS];
    let mut start: u64 = 1;
    let mut behind: u64 = 0;
    let mut latency: u64 = 0;
    let mut late: u32 = 0;
    for done in 0..Table::ACTIVATIONS {
        let q = done + 1;
        let t = climb(s, own, held, q as u64, start, &mut counts).ok_or(Refusal::PastHorizon)?;
        let span = t - behind;
        let next = delta(s, own.list, q as u64 + 1);
        latency = latency.max(span);
        late += over(span, deadline as u64);
        if t <= next {
            let greatest = latency as u32;
            let figures = Figures {
                close: q,
                latency: greatest,
                late,
                margin: margin(deadline, greatest),
            };
            return Ok(Windows { figures, last: t });
        }
        start = t;
        behind = next;
    }
    Err(Refusal::StillOpen)
}
