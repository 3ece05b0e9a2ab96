// The load of a chain beside the others of its table.
ghost use Rattle.std.specs.Prelude.{◌≡◌, List, [], ℕ, ◌*◌, ◌<◌, length};
ghost use Rattle.table.specs.Limits.{max_chains};
ghost use Rattle.table.specs.Record.{row_at};
ghost use Rattle.table.specs.declared.Row.{Row};
ghost use Rattle.table.specs.Find.{row_of};
ghost use Rattle.table.specs.Code.Taken.{Taken, Stands};
ghost use Rattle.table.specs.Read.{table_of};
ghost use Rattle.segments.specs.Tasks.{floor_of};
ghost use Rattle.segments.specs.View.{view_of};
ghost use Rattle.windows.specs.Demand.{counted_part};
ghost use Rattle.windows.specs.Code.Load.{adds_to, views_at, views_from, load_of, Joins, Joined, Loads, Adds};

use crate::{Others, Own, Span, Term};
use segments::{ahead, all_cost, chain_cost, dearest_cost, floor_of, own_part};
use table::{Table, count, kind_at, list_place, overload_at, place, record_length, tasks_at};

// What the chain at `a` adds to the demand of a chain with this floor.
fn term(s: &[u8], a: usize, floor: u32) -> Term
    requires { Stands s.now a }
    ensures { (b : Row) → floor_of b ≡ floor → Adds (view_of (row_at s.now a) b) result }
{
    let first = ahead(s, a, 0, floor);
    if first.len == tasks_at(s, a) {
        return Term {
            rate: first.cost as u64,
            once: 0,
        };
    }
    if kind_at(s, a) == 1 {
        return Term {
            rate: first.cost as u64,
            once: all_cost(s, a, floor) as u64,
        };
    }
    Term {
        rate: 0,
        once: dearest_cost(s, a, floor, first) as u64,
    }
}

// The own first part of the chain at `at`, 0 if it is synchronous.
fn part(s: &[u8], at: usize, floor: u32) -> u64
    requires { Stands s.now at × (floor ≡ floor_of (row_at s.now at)) }
    ensures { result ≡ counted_part (row_at s.now at) }
{
    if kind_at(s, at) == 1 {
        own_part(s, at, floor) as u64
    } else {
        0
    }
}

// The chain at `at` alone: nothing is held.
fn alone(s: &[u8], at: usize, floor: u32) -> Own
    requires { Stands s.now at × (floor ≡ floor_of (row_at s.now at)) }
    ensures { ((held : List ℕ) → length held ≡ 2 * max_chains → Loads (row_at s.now at) [] (load_of s.now result held)) × (result.at ≡ at) }
{
    Own {
        at,
        list: list_place(s, at),
        cost: chain_cost(s, at) as u64,
        part: part(s, at, floor),
        once: 0,
        count: 0,
    }
}

// Whether a chain with this overload mark is among the others that add.
fn adds(others: Others, overload: u8) -> bool
    ensures { result ≡ adds_to others overload }
{
    match others {
        Others::All => true,
        Others::Typical => overload == 0,
    }
}

// Those of a span that add beside the chain: of each what it adds once, and its rate and its list's place where its η counts.
fn join(
    s: &[u8],
    span: Span,
    floor: u32,
    others: Others,
    own: Own,
    held: &mut [u64; Own::HELD],
) -> Own
    requires { Joins s.now span floor own held.old }
    ensures { Joined (load_of s.now own held.old) (views_from others s.now own.at span) (load_of s.now result held.new) }
{
    let mut l = own;
    let mut at = span.at;
    for _ in span.from..span.to {
        let here = at;
        at += record_length(s, at);
        if adds(others, overload_at(s, here)) {
            let x = term(s, here, floor);
            l.once += x.once;
            if x.rate != 0 {
                let i = l.count;
                held[i] = x.rate;
                held[Table::CHAINS + i] = list_place(s, here) as u64;
                l.count = i + 1;
            }
        }
    }
    l
}

// The chain of that number beside others of its table.
pub fn load(s: &[u8], chain: usize, others: Others, held: &mut [u64; Own::HELD]) -> Own
    requires { Taken s.now × (chain < (table_of s.now).count) × (length held.old ≡ 2 * max_chains) }
    ensures { Loads (row_of (table_of s.now) chain) (views_at others (table_of s.now) chain) (load_of s.now result held.new) }
{
    let at = place(s, chain);
    let chains = count(s);
    let floor = floor_of(s, at);
    let own = alone(s, at, floor);
    let earlier = Span {
        at: 0,
        from: 0,
        to: chain,
    };
    let first = join(s, earlier, floor, others, own, held);
    let next = at + record_length(s, at);
    let later = Span {
        at: next,
        from: chain + 1,
        to: chains,
    };
    join(s, later, floor, others, first, held)
}
