// What the three tables have of one id, and what is taken of it.
ghost use Rattle.std.specs.Prelude.{◌≡◌};
ghost use Rattle.table.specs.Find.{find_of};
ghost use Rattle.table.specs.Place.{place_of};
ghost use Rattle.table.specs.Read.{table_of};
ghost use Rattle.table.specs.Code.Taken.{Taken};
ghost use Rattle.merging.specs.Versions.{state_of};
ghost use Rattle.merging.specs.Rule.{by_states};
ghost use Rattle.merging.specs.Merge.{versions};
ghost use Rattle.merging.specs.declared.states.Side.TheVariants.{First, Second, Neither};
ghost use Rattle.merging.specs.Code.Parts.{AllTaken, StatePart, TakenPart};
ghost use Rattle.merging.specs.Code.Weight.{weight_of};
ghost use Rattle.merging.specs.Code.Seeks.{RecordAt, Seeks};

use slices::same;

// Where the end record stands.
fn end_place(s: &[u8]) -> usize
    requires { Taken s.now }
    ensures { result ≡ place_of (table_of s.now) (table_of s.now).count }
{
    s.len() - 4
}

// The next record from `from` on that bears the id; the end record where none does.
fn seek(s: &[u8], id: u32, from: usize) -> usize
    requires { Taken s.now × RecordAt s.now from }
    ensures { Seeks s.now id from result }
{
    let end = end_place(s);
    let mut at = from;
    while at < end {
        if u32::from(table::id_at(s, at)) == id {
            return at;
        }
        at += table::record_length(s, at);
    }
    at
}

// The record that bears the id, or the end record. It is looked for from `from` on, and only then from the first record on: ids are asked for
// in the ancestor's order, and a copy mostly has its chains in the same.
fn find_near(s: &[u8], id: u32, from: usize) -> usize
    requires { Taken s.now × RecordAt s.now from }
    ensures { result ≡ place_of (table_of s.now) (find_of (table_of s.now) id) }
{
    let near = seek(s, id, from);
    if near < end_place(s) {
        return near;
    }
    seek(s, id, 0)
}

// Past the record at `from` where it bears the id: the next id is looked for there. Any record would do, with the same results.
pub fn step_past(s: &[u8], id: u32, from: usize) -> usize
    requires { Taken s.now × RecordAt s.now from }
    ensures { RecordAt s.now result }
{
    if end_place(s) <= from {
        return from;
    }
    if u32::from(table::id_at(s, from)) != id {
        return from;
    }
    from + table::record_length(s, from)
}

// The record that bears the id, as part of the table; empty where none does. From where it is looked for changes nothing.
fn state(s: &[u8], id: u32, from: usize) -> &[u8]
    requires { Taken s.now × RecordAt s.now from }
    ensures { StatePart s.entry id result }
{
    let at = find_near(s, id, from);
    if end_place(s) <= at {
        return &s[..0];
    }
    let end = at + table::record_length(s, at);
    &s[at..end]
}

// Whose state of an id is taken.
#[derive(Clone, Copy)]
enum Side {
    First,
    Second,
    Neither,
}

// By the rule, over the id's states in the copies. The ancestor's is looked for only where they differ.
fn side_taken(ancestor: &[u8], in_first: &[u8], in_second: &[u8], id: u32) -> Side
    requires { Taken ancestor.now }
    ensures { result ≡ by_states (state_of ancestor.now id) in_first.now in_second.now First Second Neither }
{
    if same(in_first, in_second) {
        return Side::First;
    }
    let was = state(ancestor, id, 0);
    if same(in_first, was) {
        return Side::Second;
    }
    if same(in_second, was) {
        Side::First
    } else {
        Side::Neither
    }
}

// What an id counts: itself where it is in conflict, else 0, and the bytes of the state that is taken.
#[derive(Clone, Copy)]
pub struct Weight {
    pub conflict: u32,
    pub bytes: usize,
}

// Weighs an id without handing its record back; it is looked for from `a` in the first copy and from `b` in the second.
pub fn weigh(ancestor: &[u8], first: &[u8], second: &[u8], id: u32, a: usize, b: usize) -> Weight
    requires { AllTaken ancestor.now first.now second.now × RecordAt first.now a × RecordAt second.now b }
    ensures { result ≡ weight_of (versions ancestor.entry first.entry second.entry) id }
{
    let in_first = state(first, id, a);
    let in_second = state(second, id, b);
    match side_taken(ancestor, in_first, in_second, id) {
        Side::First => Weight {
            conflict: 0,
            bytes: in_first.len(),
        },
        Side::Second => Weight {
            conflict: 0,
            bytes: in_second.len(),
        },
        Side::Neither => Weight {
            conflict: id,
            bytes: 0,
        },
    }
}

// The record taken for the id, as part of the copy that holds it, the first if both do; empty where nothing is taken. It is looked for as
// for its weight.
pub fn taken<'a>(
    ancestor: &[u8],
    first: &'a [u8],
    second: &'a [u8],
    id: u32,
    a: usize,
    b: usize,
) -> &'a [u8]
    requires { AllTaken ancestor.now first.now second.now × RecordAt first.now a × RecordAt second.now b }
    ensures { TakenPart ancestor.entry first.entry second.entry id result }
{
    let in_first = state(first, id, a);
    let in_second = state(second, id, b);
    match side_taken(ancestor, in_first, in_second, id) {
        Side::First => in_first,
        Side::Second => in_second,
        Side::Neither => &first[..0],
    }
}
