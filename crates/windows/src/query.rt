// The latency query: over the bytes of an accepted table, and over any.
ghost use Rattle.std.specs.Prelude.{◌≡◌, ◌<◌};
ghost use Rattle.table.specs.Code.Taken.{Taken};
ghost use Rattle.table.specs.Read.{table_of};
ghost use Rattle.arrivals.specs.Arrivals.{δ};
ghost use Rattle.windows.specs.Latency.{bound_at, latency_in, latency_of};

use crate::loading::load;
use crate::walking::walk;
use crate::{Figures, Others, Own, Windows};
use table::{Refusal, find, judge};

// What the windows of the chain of that number give, worked out once for whoever needs it.
pub fn bound(s: &[u8], chain: usize) -> Result<Windows, Refusal>
    requires { Taken s.now × (chain < (table_of s.now).count) }
    ensures { result ≡ bound_at δ (table_of s.now) chain }
{
    let mut held = [0u64; Own::HELD];
    let own = load(s, chain, Others::All, &mut held);
    walk(s, own, &held)
}

// The answer for the chain with the id, of an accepted table.
fn latency_in(s: &[u8], id: u32) -> Result<Figures, Refusal>
    requires { Taken s.now }
    ensures { result ≡ latency_in δ (table_of s.now) id }
{
    let chain = find(s, id).ok_or(Refusal::NoChain)?;
    let windows = bound(s, chain)?;
    Ok(windows.figures)
}

// The answer for the chain with the id, of a stored table.
pub fn latency(table: &[u8], id: u32) -> Result<Figures, Refusal>
    ensures { result ≡ latency_of table.now id }
{
    judge(table)?;
    latency_in(table, id)
}
