// Whether a window up to K is over the deadline: what makes a combination bad.
ghost use Rattle.std.specs.Prelude.{◌≡◌, ◌≤◌};
ghost use Rattle.table.specs.Limits.{max_activations};
ghost use Rattle.windows.specs.Code.Load.{load_of, Sound, over_in};

use crate::Own;
use crate::climbing::climb;
use arrivals::delta;
use table::deadline_at;

// Whether for some q up to `close` the window minus δ(q) exceeds the deadline. Each climb starts where the one before ended.
pub fn any_over(s: &[u8], own: Own, held: &[u64; Own::HELD], close: u32) -> bool
    requires { Sound (load_of s.now own held.now) × (close ≤ max_activations) }
    ensures { result ≡ over_in (load_of s.now own held.now) close }
{
    let deadline = deadline_at(s, own.at);
    let mut counts = [0u64; Own::COUNTS];
    let mut start: u64 = 1;
    for done in 0..close {
        let q = done as u64 + 1;
        let Some(t) = climb(s, own, held, q, start, &mut counts) else {
            return true;
        };
        if delta(s, own.list, q) + (deadline as u64) < t {
            return true;
        }
        start = t;
    }
    false
}
