// The ids in conflict.
ghost use Rattle.std.specs.Prelude.{◌≡◌, ◌&&◌, ltb};
ghost use Rattle.search.specs.Choice.{◌when◌else◌};
ghost use Rattle.merging.specs.Rule.{conflict_of, lesser as lesserOf, least};
ghost use Rattle.merging.specs.Merge.{versions};
ghost use Rattle.merging.specs.Code.Parts.{AllTaken};

use crate::states::{step_past, weigh};

// The smaller of two numbers, where 0 stands for none.
pub fn lesser(n: u32, m: u32) -> u32
    ensures { result ≡ lesserOf n m }
{
    if n == 0 {
        return m;
    }
    if m == 0 {
        return n;
    }
    n.min(m)
}

// The number where it is greater than `above`, else 0.
fn only_above(n: u32, above: u32) -> u32
    ensures { result ≡ (n when ltb above n else 0) }
{
    if n <= above { 0 } else { n }
}

// The smallest of the ids that is greater than `above` and in conflict, 0 if none is.
pub fn least_conflict(ancestor: &[u8], first: &[u8], second: &[u8], ids: &[u32], above: u32) -> u32
    requires { AllTaken ancestor.now first.now second.now }
    ensures { result ≡ least (λ id. ltb above id && conflict_of (versions ancestor.entry first.entry second.entry) id) ids.now }
{
    let mut found: u32 = 0;
    let mut a: usize = 0;
    let mut b: usize = 0;
    for &id in ids {
        let weight = weigh(ancestor, first, second, id, a, b);
        a = step_past(first, id, a);
        b = step_past(second, id, b);
        found = lesser(found, only_above(weight.conflict, above));
    }
    found
}
