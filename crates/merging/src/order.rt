// The ids of the three tables, each once, in the order of the result.
ghost use Rattle.std.specs.Prelude.{◌≡◌, ◌+◌, ◌≤◌, ◌<◌, length};
ghost use Rattle.table.specs.Limits.{max_chains};
ghost use Rattle.table.specs.Code.Taken.{Taken};
ghost use Rattle.merging.specs.Versions.{ids_of};
ghost use Rattle.merging.specs.Merge.{versions};
ghost use Rattle.merging.specs.Code.Parts.{AllTaken};
ghost use Rattle.merging.specs.Code.Ids.{most_ids, Added, Joined, Ordered};

use table::Table;

// As many as three tables can have.
pub const MOST: usize = 3 * Table::CHAINS;

// Puts the id after the ids so far, `end` of them, unless it is among the first n; answers how many there are then.
fn add(ids: &mut [u32], n: usize, end: usize, id: u32) -> usize
    requires { (n ≤ end) × (end < length ids.old) }
    ensures { Added ids.old n end id ids.new result }
{
    if ids[..n].contains(&id) {
        return end;
    }
    ids[end] = id;
    end + 1
}

// Puts the ids of a table that are not among the first n after these, and answers how many there are then.
fn join(s: &[u8], ids: &mut [u32], n: usize) -> usize
    requires { Taken s.now × (n + max_chains ≤ length ids.old) }
    ensures { Joined ids.old n (ids_of s.now) ids.new result }
{
    let mut at: usize = 0;
    let mut end = n;
    for chain in 0..table::count(s) {
        end = add(ids, n, end, u32::from(table::id_at(s, at)));
        at += table::record_length(s, at);
    }
    end
}

// All of them, as the first numbers of the array; answers how many they are.
pub fn ids_in_order(ancestor: &[u8], first: &[u8], second: &[u8], ids: &mut [u32]) -> usize
    requires { AllTaken ancestor.now first.now second.now × (length ids.old ≡ most_ids) }
    ensures { Ordered (versions ancestor.entry first.entry second.entry) ids.new result }
{
    let of_ancestor = join(ancestor, ids, 0);
    let of_both = join(first, ids, of_ancestor);
    join(second, ids, of_both)
}
