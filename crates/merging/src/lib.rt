// Merge of two edited copies of a table, given their common ancestor (document 02, request 4): nothing of either is lost, and where both
// changed one record differently the merge is refused. The result is judged before the first byte is written.
#![tactic(auto)]

ghost use Rattle.std.specs.Prelude.{◌≡◌};
ghost use Rattle.merging.specs.Merge.{refusal_of, versions, Merges, found_of, Chosen};

mod conflicts;
mod judged;
mod order;
mod result;
mod states;

use conflicts::least_conflict;
use judged::judge_all;
use order::{MOST, ids_in_order};
use result::fit;
use states::taken;
use table::{Fault, Refusal};

// Why there is no merge: which of the three tables is refused, the smallest id in conflict, that the result is longer than the buffer, or how
// the result is refused.
#[derive(Clone, Copy, Debug, PartialEq, Eq)]
pub enum Unmerged {
    Ancestor(Fault),
    First(Fault),
    Second(Fault),
    Conflict(u32),
    NoRoom,
    Merged(Fault),
}

// The refusal that it is in the documents.
impl From<Unmerged> for Refusal {
    ghost from_gives = { λ e r. r ≡ refusal_of e };

    fn from(why: Unmerged) -> Refusal {
        match why {
            Unmerged::Ancestor(fault) => fault.0,
            Unmerged::First(fault) => fault.0,
            Unmerged::Second(fault) => fault.0,
            Unmerged::Conflict(_) => Refusal::Conflicting,
            Unmerged::NoRoom => Refusal::BufferShort,
            Unmerged::Merged(fault) => fault.0,
        }
    }
}

// The record taken for an id, as part of the copy that holds it, the first if both do; empty where nothing is taken: the id is missing, in
// conflict, or a table is refused.
pub fn chosen<'a>(ancestor: &[u8], first: &'a [u8], second: &'a [u8], id: u32) -> &'a [u8]
    ensures { Chosen ancestor.entry first.entry second.entry id result }
{
    match judge_all(ancestor, first, second) {
        Ok(()) => taken(ancestor, first, second, id, 0, 0),
        Err(_) => &first[..0],
    }
}

// The smallest id in conflict that is greater than `above`, 0 if there is none: asked with 0, then with each answer, it gives all of them,
// rising.
pub fn conflict(ancestor: &[u8], first: &[u8], second: &[u8], above: u32) -> Result<u32, Refusal>
    ensures { result ≡ found_of (versions ancestor.entry first.entry second.entry) above }
{
    judge_all(ancestor, first, second)?;
    let mut ids = [0u32; MOST];
    let n = ids_in_order(ancestor, first, second, &mut ids);
    Ok(least_conflict(ancestor, first, second, &ids[..n], above))
}

// The result becomes the first bytes of `out`; refused, every byte stays.
pub fn merge<'a>(
    ancestor: &[u8],
    first: &'a [u8],
    second: &'a [u8],
    out: &mut [u8],
) -> Result<u32, Unmerged>
    ensures { Merges (versions ancestor.entry first.entry second.entry) out.old result out.new }
{
    judge_all(ancestor, first, second)?;
    let mut ids = [0u32; MOST];
    let n = ids_in_order(ancestor, first, second, &mut ids);
    fit(ancestor, first, second, &ids[..n], out)
}
