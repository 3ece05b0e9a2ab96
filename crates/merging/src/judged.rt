// The judgement of the three tables, in the order given.
ghost use Rattle.std.specs.Prelude.{◌≡◌};
ghost use Rattle.merging.specs.Merge.{versions};
ghost use Rattle.merging.specs.Code.Judged.{judged_of};

use crate::Unmerged;
use table::judge;

// Judges the ancestor, the first copy and the second, in this order, as far as each before it is accepted.
pub fn judge_all(ancestor: &[u8], first: &[u8], second: &[u8]) -> Result<(), Unmerged>
    ensures { result ≡ judged_of (versions ancestor.entry first.entry second.entry) }
{
    judge(ancestor).map_err(Unmerged::Ancestor)?;
    judge(first).map_err(Unmerged::First)?;
    judge(second).map_err(Unmerged::Second)
}
