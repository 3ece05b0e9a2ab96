// From which cost on a set is called bad by the sufficient test of document 000, section V.C: demand is worked out once for each
// activation, at the t where it is due.
ghost use Rattle.std.specs.Prelude.{◌≡◌, ◌≤◌};
ghost use Rattle.table.specs.Limits.{max_activations};
ghost use Rattle.windows.specs.Code.Load.{latest, load_of, held_of, demand_in, Held, Sound};
ghost use Rattle.windows.specs.Code.Called.{Starts, CalledFrom};

use crate::Own;
use arrivals::{delta, eta_from};
use table::{Table, deadline_at};

// What the n chains held add in t. The counts of one activation are not kept for the next, whose t is far from it.
fn held_at(s: &[u8], held: &[u64; Own::HELD], n: usize, t: u64) -> u64
    requires { Held s.now held.now n × (t ≤ latest) }
    ensures { result ≡ held_of s.now held.now n t }
{
    let mut sum: u64 = 0;
    for i in 0..n {
        sum += eta_from(s, held[Table::CHAINS + i] as usize, t, 0) * held[i];
    }
    sum
}

// The demand for q activations in t.
fn demand(s: &[u8], own: Own, held: &[u64; Own::HELD], q: u64, t: u64) -> u64
    requires { Sound (load_of s.now own held.now) × (q ≤ max_activations) × (t ≤ latest) }
    ensures { result ≡ demand_in (load_of s.now own held.now) q t }
{
    let more = eta_from(s, own.list, t, 0).saturating_sub(q) * own.part;
    let fixed = q * own.cost + own.once;
    fixed + more + held_at(s, held, own.count, t)
}

// The least cost, or `most` where that is less, with which a set is called bad: for some q up to `close` it is more than what the
// demand leaves of δ(q) + deadline.
pub fn least_called(s: &[u8], own: Own, held: &[u64; Own::HELD], close: u32, most: u64) -> u64
    requires { Starts (load_of s.now own held.now) close }
    ensures { CalledFrom (load_of s.now own held.now) close most result }
{
    let deadline = deadline_at(s, own.at);
    let mut least = most;
    for done in 0..close {
        let q = done as u64 + 1;
        let start = delta(s, own.list, q);
        let t = start + (deadline as u64);
        least = least.min((t + 1).saturating_sub(demand(s, own, held, q, t)));
    }
    least
}
