// What a miss query leaves to be packed: over the bytes of an accepted table, and over any.
ghost use Rattle.std.specs.Prelude.{◌≡◌, [], ◌∷◌, ◌+◌, ◌≤◌, ◌<◌, ltb, length};
ghost use Rattle.table.specs.Limits.{horizon, max_overloads, max_capacity};
ghost use Rattle.table.specs.declared.Row.{Row};
ghost use Rattle.table.specs.Record.{form_at, head_length, row_at};
ghost use Rattle.table.specs.Find.{row_of, rows};
ghost use Rattle.table.specs.Code.Taken.{Taken, Stands};
ghost use Rattle.table.specs.Read.{table_of};
ghost use Rattle.arrivals.specs.Arrivals.{δ, η};
ghost use Rattle.windows.specs.Latency.{bound_at};
ghost use Rattle.search.specs.Lists.{some};
ghost use Rattle.misses.specs.Overloads.{overloads};
ghost use Rattle.misses.specs.Misses.{early_of, tested_at, tested_in, tested_of};
ghost use Rattle.misses.specs.Code.Held.{Asked, figures_at, missed_at};
ghost use Rattle.misses.specs.Code.Packings.{test_of, Ready, Leaves, LeadsTo};

use crate::testing::{by_sieve, by_windows};
use crate::{How, Left, Pieces};
use arrivals::{eta_up_to, largest, unknown};
use table::{Refusal, Table, count, find, judge, list_place, overload_at, place, record_length};
use windows::{Windows, bound};

// What is refused of the chain at `b` before any window.
fn early(s: &[u8], b: usize, k: u32) -> Result<(), Refusal>
    requires { b + head_length (form_at s.now b) ≤ length s.now }
    ensures { result ≡ early_of (row_at s.now b) k }
{
    if k == 0 || Table::RUN < k {
        return Err(Refusal::BadRun);
    }
    if overload_at(s, b) != 0 {
        return Err(Refusal::OverloadAsked);
    }
    if unknown(s, b) {
        return Err(Refusal::GapUnknown);
    }
    Ok(())
}

// Whether the chain at `a` is an overload chain that may start more than once in t.
fn again(s: &[u8], a: usize, t: u64) -> bool
    requires { Stands s.now a × (t ≤ horizon) }
    ensures { (b : Row) → result ≡ some (λ o. ltb 1 (η o.list t)) (overloads b (row_at s.now a ∷ [])) }
{
    if overload_at(s, a) == 0 {
        return false;
    }
    1 < eta_up_to(s, list_place(s, a), t, 2)
}

// Whether any chain of a table is one.
fn any_again(s: &[u8], t: u64) -> bool
    requires { Taken s.now × (t ≤ horizon) }
    ensures { (b : Row) → result ≡ some (λ o. ltb 1 (η o.list t)) (overloads b (rows (table_of s.now))) }
{
    let chains = count(s);
    let mut at: usize = 0;
    for _ in 0..chains {
        if again(s, at, t) {
            return true;
        }
        at += record_length(s, at);
    }
    false
}

// Whether a capacity is above its limit.
fn above(capacity: &[u8; Table::OVERLOADS]) -> bool
    requires { length capacity.now ≡ max_overloads }
    ensures { result ≡ some (ltb max_capacity) capacity.now }
{
    capacity.iter().any(|c| Table::CAPACITY < u64::from(*c))
}

// What is left where nothing is refused.
fn by_test(s: &[u8], chain: usize, k: u32, w: Windows, p: Pieces, how: How) -> Left
    requires { Ready s.now chain k w p }
    ensures { Leaves k (missed_at (test_of how) (table_of s.now) chain k w) result }
{
    match how {
        How::Sieve => by_sieve(s, chain, k, w, p),
        _ => by_windows(s, chain, k, w, p, how),
    }
}

// What the figures of the full analysis leave of a run of k activations.
fn by_figures(s: &[u8], chain: usize, k: u32, w: Windows, how: How) -> Result<Left, Refusal>
    requires { Taken s.now × (chain < (table_of s.now).count) × Asked (row_of (table_of s.now) chain) k w }
    ensures { LeadsTo k (figures_at (test_of how) (table_of s.now) chain k w) result }
{
    if w.figures.late == 0 {
        return Ok(Left::Known(0));
    }
    let b = place(s, chain);
    let p = Pieces::of(s, b, largest(s, b, k) + u64::from(w.figures.latency));
    if Table::OVERLOADS < p.count {
        return Err(Refusal::TooManySegments);
    }
    if any_again(s, w.last) {
        return Err(Refusal::StartsAgain);
    }
    if above(&p.capacity) {
        return Err(Refusal::CapacityAbove);
    }
    Ok(by_test(s, chain, k, w, p, how))
}

// What is left of the chain of that number in a run of k activations, where its windows are worked out already.
pub fn packings_with(
    s: &[u8],
    chain: usize,
    k: u32,
    w: Result<Windows, Refusal>,
    how: How,
) -> Result<Left, Refusal>
    requires { Taken s.now × (chain < (table_of s.now).count) × (w ≡ bound_at δ (table_of s.now) chain) }
    ensures { LeadsTo k (tested_at δ (test_of how) (table_of s.now) chain k) result }
{
    early(s, place(s, chain), k)?;
    by_figures(s, chain, k, w?, how)
}

// For the chain with the id, of an accepted table. It does without `packings_with`, since its windows are worked out only where
// nothing is refused before them.
pub fn packings_in(s: &[u8], id: u32, k: u32, how: How) -> Result<Left, Refusal>
    requires { Taken s.now }
    ensures { LeadsTo k (tested_in δ (test_of how) (table_of s.now) id k) result }
{
    let chain = find(s, id).ok_or(Refusal::NoChain)?;
    early(s, place(s, chain), k)?;
    by_figures(s, chain, k, bound(s, chain)?, how)
}

// For the chain with the id in a run of k activations, of a stored table.
pub fn packings_of(table: &[u8], id: u32, k: u32, how: How) -> Result<Left, Refusal>
    ensures { LeadsTo k (tested_of δ (test_of how) table.now id k) result }
{
    judge(table)?;
    packings_in(table, id, k, how)
}
