// The walk over a damaged table: where the records stand that are kept.
ghost use Rattle.std.specs.Prelude.{◌≡◌, true, false, ◌+◌, ◌-◌, ◌≤◌, length, eqb};
ghost use Rattle.search.specs.Choice.{◌when◌else◌};
ghost use Rattle.search.specs.Find.{first};
ghost use Rattle.table.specs.Limits.{max_chains, max_all_tasks};
ghost use Rattle.table.specs.Record.{form_at};
ghost use Rattle.table.specs.Fault.{mark_of, is_chain};
ghost use Rattle.table.specs.declared.Table.{Table};
ghost use Rattle.salvaging.specs.Kept.{acceptable};
ghost use Rattle.salvaging.specs.Code.Walk.{is_task, NoC, least_head, starts_like, Knows, Walked};

use table::{
    Before, Mark, Row, Table, beside_fault, form_at, head_length, id_at, mark_of, tasks_part,
    u16_at,
};

// The length of the shorter of the two fixed parts, that of `CG`.
const LEAST_HEAD: usize = 13;

// Whether a mark is a chain's, of either form. Here and below all tests of one place are made, whatever they give: a processor cannot
// foresee what a damaged table has, and a test that it foresees wrongly takes longer than all of them.
fn is_chain(mark: u16) -> bool
    ensures { result ≡ is_chain (mark_of mark) }
{
    (mark == Row::GAP_FORM) | (mark == Row::LARGEST_FORM)
}

// Whether a mark is a task's.
fn is_task(mark: u16) -> bool
    ensures { result ≡ is_task (mark_of mark) }
{
    matches!(mark_of(mark), Mark::Task)
}

// Whether one of the four bytes from `at` on is a `C`.
fn has_c(s: &[u8], at: usize) -> bool
    requires { at + 4 ≤ length s.now }
    ensures { result ≡ false → NoC s.now at (at + 4) }
{
    (s[at] == b'C') | (s[at + 1] == b'C') | (s[at + 2] == b'C') | (s[at + 3] == b'C')
}

// Goes on from `from` over bytes none of which is a `C`, four at a time. Most bytes of a damaged table are passed so.
fn pass(s: &[u8], from: usize) -> usize
    requires { from ≤ length s.now }
    ensures { (from ≤ result) × (result ≤ length s.now) × NoC s.now from result }
{
    let mut at = from;
    while 4 <= s.len() - at && !has_c(s, at) {
        at += 4;
    }
    at
}

// Whether the bytes from `at` on start like a chain record: a kind and an overload byte of at most 1, and a chain's mark, in this order:
// where marks stand at random no such bytes follow.
fn starts_like(s: &[u8], at: usize) -> bool
    requires { at + least_head ≤ length s.now }
    ensures { result ≡ starts_like s.now at }
{
    (s[at + 4] <= 1) & (s[at + 5] <= 1) & is_chain(u16_at(s, at))
}

// The first place from `from` on at which they do, the length if there is none. Each such mark starts with a `C`.
fn next_start(s: &[u8], from: usize) -> usize
    requires { from ≤ length s.now }
    ensures { result ≡ first (starts_like s.now) from (length s.now - from) }
{
    let mut at = pass(s, from);
    while LEAST_HEAD <= s.len() - at {
        if starts_like(s, at) {
            return at;
        }
        at = pass(s, at + 1);
    }
    s.len()
}

// The form that a record at `at` must have, after so many that have this one: its own if it is the first.
fn form_beside(s: &[u8], at: usize, form: u16, count: usize) -> u16
    requires { at + 2 ≤ length s.now }
    ensures { result ≡ (form_at s.now at when eqb count 0 else form) }
{
    if count == 0 { form_at(s, at) } else { form }
}

// Whether a task's mark stands after the lists that the bytes from `at` on would have as a chain record. That costs little to see, and tells
// most bytes that only start like one.
fn leads_to_task(s: &[u8], at: usize) -> bool
    requires { at + 2 ≤ length s.now }
    ensures { (t : Table) → acceptable s.now at t ≡ true → result ≡ true }
{
    if s.len() - at < head_length(form_at(s, at)) {
        return false;
    }
    let tasks = tasks_part(s, at);
    if s.len() - at < tasks.from + 2 {
        return false;
    }
    is_task(u16_at(s, at + tasks.from))
}

// Whether an acceptable record starts at `at`, where the bytes start like one.
fn accepts(s: &[u8], at: usize, form: u16, before: &Before) -> bool
    requires { (starts_like s.now at ≡ true) × (before.now.count ≤ max_chains) × (before.now.tasks ≤ max_all_tasks) }
    ensures { (t : Table) → Knows before.now form t → result ≡ acceptable s.now at t }
{
    if !leads_to_task(s, at) {
        return false;
    }
    let needed = form_beside(s, at, form, before.count);
    beside_fault(s, at, needed, before).is_ok()
}

// The first place from `from` on at which an acceptable record starts, the length if there is none.
fn next_record(s: &[u8], from: usize, form: u16, before: &Before) -> usize
    requires { (from ≤ length s.now) × (before.now.count ≤ max_chains) × (before.now.tasks ≤ max_all_tasks) }
    ensures { (t : Table) → Knows before.now form t → result ≡ first (λ i. acceptable s.now i t) from (length s.now - from) }
{
    let mut at = next_start(s, from);
    while at < s.len() {
        if accepts(s, at, form, before) {
            return at;
        }
        at = next_start(s, at + 1);
    }
    at
}

// Where the records stand that are kept, as the first numbers of the array; answers how many they are.
pub fn walk(s: &[u8], places: &mut [usize]) -> usize
    requires { length places.old ≡ max_chains }
    ensures { Walked s.now places.new result }
{
    let mut before = Before::nothing();
    let mut form: u16 = 0;
    let mut at: usize = 0;
    for count in 0..Table::CHAINS {
        let place = next_record(s, at, form, &before);
        if place == s.len() {
            return count;
        }
        places[count] = place;
        form = form_at(s, place);
        let tasks = tasks_part(s, place);
        before.add(id_at(s, place), tasks.count);
        at = place + (tasks.from + 8 * tasks.count);
    }
    Table::CHAINS
}
