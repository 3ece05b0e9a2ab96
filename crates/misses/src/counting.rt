// The engines over what is to be packed, and the miss query: by the ordinary engine, by the plain one, and by the sieve.
ghost use Rattle.std.specs.Prelude.{◌≡◌, ◌*◌, ◌<◌, min};
ghost use Rattle.table.specs.Code.Taken.{Taken};
ghost use Rattle.table.specs.Read.{table_of};
ghost use Rattle.arrivals.specs.Arrivals.{δ};
ghost use Rattle.windows.specs.Latency.{bound_at};
ghost use Rattle.misses.specs.Misses.{misses_at, misses_of};
ghost use Rattle.misses.specs.Sieve.{at_most_of};
ghost use Rattle.misses.specs.Code.Packings.{missed_by, Within, LeadsTo};

use crate::asking::{packings_in, packings_of, packings_with};
use crate::{AtMost, How, Left};
use odometer::most_uses;
use packing::uses_up_to;
use table::{Refusal, judge};
use windows::Windows;

// Late times the uses, up to k.
pub fn figure(k: u32, late: u32, uses: u32) -> u32
    ensures { result ≡ min k (late * uses) }
{
    let all = u64::from(late) * u64::from(uses);
    all.min(u64::from(k)) as u32
}

// The misses by the ordinary engine. No more uses are looked for than the fewest that reach k.
fn packed(k: u32, left: &Left) -> u32
    requires { Within k left.now }
    ensures { result ≡ missed_by k left.now }
{
    match left {
        Left::Known(n) => *n,
        Left::Packed(p) => {
            let enough = (k - 1) / p.late + 1;
            figure(k, p.late, uses_up_to(&p.bad, &p.capacity, enough))
        }
    }
}

// The misses of the chain of that number in a run of k activations, where its windows are worked out already.
pub fn misses_with(
    s: &[u8],
    chain: usize,
    k: u32,
    w: Result<Windows, Refusal>,
) -> Result<u32, Refusal>
    requires { Taken s.now × (chain < (table_of s.now).count) × (w ≡ bound_at δ (table_of s.now) chain) }
    ensures { result ≡ misses_at (table_of s.now) chain k }
{
    let left = packings_with(s, chain, k, w, How::Lowest)?;
    Ok(packed(k, &left))
}

// The misses of the chain with the id in a run of k activations, of a stored table. It is asked most, so it does without
// `packings_of`, whose result would be copied once more.
pub fn misses(table: &[u8], id: u32, k: u32) -> Result<u32, Refusal>
    ensures { result ≡ misses_of table.now id k }
{
    judge(table)?;
    let left = packings_in(table, id, k, How::Lowest)?;
    Ok(packed(k, &left))
}

// What the plain engine has to go through for the misses of the chain with the id in a run of k activations, of a stored table.
pub fn packings_for(table: &[u8], id: u32, k: u32) -> Result<Left, Refusal>
    ensures { LeadsTo k (misses_of table.now id k) result }
{
    packings_of(table, id, k, How::Each)
}

// The misses of the chain with the id in a run of k activations, of a stored table. It may take very long.
pub fn misses_plain(table: &[u8], id: u32, k: u32) -> Result<u32, Refusal>
    ensures { result ≡ misses_of table.now id k }
{
    let left = packings_for(table, id, k)?;
    match &left {
        Left::Known(n) => Ok(*n),
        Left::Packed(p) => Ok(figure(k, p.late, most_uses(&p.bad, &p.capacity))),
    }
}

// How many deadlines the chain with the id misses at most in a run of k activations, of a stored table.
pub fn at_most(table: &[u8], id: u32, k: u32) -> Result<AtMost, Refusal>
    ensures { result ≡ at_most_of table.now id k }
{
    let left = packings_of(table, id, k, How::Sieve)?;
    let most = packed(k, &left);
    Ok(AtMost { most })
}
