// Rows judged by their values, in the reader's order; the first fault decides.
ghost use Rattle.std.specs.Prelude.{◌≡◌, ◌+◌, ◌*◌, ◌<◌, ◌≤◌, ltb, ◌∷◌, length, take};
ghost use Rattle.table.specs.Limits.{max_chains, max_distances, max_tasks};
ghost use Rattle.table.specs.Record.{known, record_length};
ghost use Rattle.table.specs.Fault.{short_fault};
ghost use Rattle.table.specs.Read.{refused_by};
ghost use Rattle.writing.specs.Rows.{gap_of};
ghost use Rattle.writing.specs.Code.Tally.{form_wrong, bears as bearsOf, list_refusal, largest_refusal, tasks_refusal, lists_refusal, row_refusal, unjudged as unjudgedOf, counted as countedOf, Small, CountedRoom, JudgedWith};

use table::{Refusal, Row, Table, outside};

// A form that no row has: it stands for that of the rows before the first, so that one test tells whether a later one's is right.
const NO_FORM: u32 = 65_536;

// What is known of the rows so far, all of them good: their form, how many they are, their tasks in all, the length of their records, and
// their ids, the newest first.
#[derive(Clone, Copy)]
pub struct Tally {
    pub form: u32,
    pub count: usize,
    pub tasks: usize,
    pub bytes: usize,
    pub ids: [u16; Table::CHAINS],
}

// Whether the form is not that of the rows before; the first row's may be either.
fn form_wrong(before: u32, form: u16) -> bool
    ensures { result ≡ form_wrong before form }
{
    if u32::from(form) == before {
        return false;
    }
    if before != NO_FORM {
        return true;
    }
    form != Row::GAP_FORM && form != Row::LARGEST_FORM
}

// The gap that is judged: `CG` has none.
fn gap_of(form: u16, gap: u32) -> u32
    ensures { result ≡ gap_of form gap }
{
    if form == Row::LARGEST_FORM { 0 } else { gap }
}

// How many largest distances a row has.
pub fn known_of(form: u16, flag: u8, listed: usize) -> usize
    ensures { result ≡ known form flag listed }
{
    if form != Row::LARGEST_FORM {
        return 0;
    }
    if flag != 1 {
        return 0;
    }
    listed
}

// How long the record of a row is, its counts without a fault.
fn length_of(form: u16, flag: u8, listed: usize, tasks: usize) -> usize
    requires { (listed ≤ max_distances) × (tasks ≤ max_tasks) }
    ensures { (result ≡ record_length form flag listed tasks) × (result ≤ 256) }
{
    table::head_length(form) + 4 * listed + 4 * known_of(form, flag, listed) + 8 * tasks
}

// Whether one of the ids is this one. Every place is looked at, so that they are compared all at once.
fn bears(ids: &[u16; Table::CHAINS], id: u16) -> bool
    requires { length ids.now ≡ max_chains }
    ensures { result ≡ bearsOf ids.now id }
{
    let mut found = false;
    for i in 0..Table::CHAINS {
        found |= ids[i] == id;
    }
    found
}

// The ids after one more, which takes the first place. Each moves by one place and none is put at a place that varies, so that all of
// them stay in registers.
fn after_id(id: u16, ids: &[u16; Table::CHAINS]) -> [u16; Table::CHAINS]
    requires { length ids.now ≡ max_chains }
    ensures { result ≡ id ∷ take 15 ids.now }
{
    let mut with = [0u16; Table::CHAINS];
    with[0] = id;
    for i in 0..Table::CHAINS - 1 {
        with[i + 1] = ids[i];
    }
    with
}

// Whether the gap is too small for distance i, which is d.
fn beyond(gap: u32, i: usize, d: u32) -> bool
    requires { i < max_distances }
    ensures { result ≡ ltb (gap * (i + 1)) d }
{
    u64::from(gap) * (i as u64 + 1) < u64::from(d)
}

// The first n distances, and the gap, in one pass. Where no distance falls the last is the greatest, so it alone is held against the
// limit.
fn list_refusal(gap: u32, list: &[u32; Table::DISTANCES], n: usize) -> Result<(), Refusal>
    requires { (1 ≤ n) × (n ≤ max_distances) × (length list.now ≡ max_distances) }
    ensures { result ≡ list_refusal gap (take n list.now) }
{
    let mut short = false;
    let mut before: u32 = 0;
    for i in 0..n {
        let d = list[i];
        if d < before {
            return Err(Refusal::BadDistance);
        }
        short |= beyond(gap, i, d);
        before = d;
    }
    if Table::DISTANCE < before {
        return Err(Refusal::BadDistance);
    }
    if before == 0 {
        return Err(Refusal::LastIsZero);
    }
    if gap == 0 {
        return Ok(());
    }
    if short {
        return Err(Refusal::GapTooSmall);
    }
    Ok(())
}

// The first of n largest distances that falls, exceeds the limit or lies below the smallest for its count.
fn short_refusal(
    list: &[u32; Table::DISTANCES],
    largest: &[u32; Table::DISTANCES],
    n: usize,
) -> Result<(), Refusal>
    requires { (n ≤ max_distances) × (length list.now ≡ max_distances) × (length largest.now ≡ max_distances) }
    ensures { result ≡ refused_by (short_fault 0 (take n list.now) (take n largest.now) 0) }
{
    let mut before: u32 = 0;
    for i in 0..n {
        let d = largest[i];
        if d < list[i] {
            return Err(Refusal::BadLargest);
        }
        if outside(before, Table::LARGEST, d) {
            return Err(Refusal::BadLargest);
        }
        before = d;
    }
    Ok(())
}

// The flag of a row, then its largest distances, its list length without a fault. `CH` has neither.
fn largest_refusal(row: Row) -> Result<(), Refusal>
    requires { row.listed ≤ max_distances }
    ensures { result ≡ largest_refusal row }
{
    if row.form != Row::LARGEST_FORM {
        return Ok(());
    }
    if 1 < row.flag {
        return Err(Refusal::BadLargest);
    }
    if row.flag == 0 {
        return Ok(());
    }
    let list = row.list;
    let largest = row.largest;
    short_refusal(&list, &largest, row.listed)
}

// The priorities and costs of the first n tasks.
fn tasks_refusal(
    priority: &[u16; Table::TASKS],
    cost: &[u32; Table::TASKS],
    n: usize,
) -> Result<(), Refusal>
    requires { n ≤ max_tasks }
    ensures { result ≡ tasks_refusal priority.now cost.now n }
{
    for i in 0..n {
        if priority[i] == 0 || outside(1, Table::COST, cost[i]) {
            return Err(Refusal::BadTask);
        }
    }
    Ok(())
}

// A row's lists and tasks, its counts without a fault.
fn lists_refusal(row: Row) -> Result<(), Refusal>
    requires { (1 ≤ row.listed) × (row.listed ≤ max_distances) × (row.tasks ≤ max_tasks) }
    ensures { result ≡ lists_refusal row }
{
    let list = row.list;
    list_refusal(gap_of(row.form, row.gap), &list, row.listed)?;
    largest_refusal(row)?;
    let priority = row.priority;
    let cost = row.cost;
    tasks_refusal(&priority, &cost, row.tasks)
}

// All of a row but its form, after those judged. The tests stand one after the other, each with its return: handed on, a refusal would be
// chosen and tested again.
fn row_refusal(judged: Tally, row: Row) -> Result<(), Refusal>
    requires { Small judged }
    ensures { result ≡ row_refusal judged row }
{
    let ids = judged.ids;
    if row.id == 0 {
        return Err(Refusal::BadId);
    }
    if bears(&ids, row.id) {
        return Err(Refusal::BadId);
    }
    if 1 < row.kind {
        return Err(Refusal::BadKind);
    }
    if 1 < row.overload {
        return Err(Refusal::BadKind);
    }
    if outside(1, Table::DEADLINE, row.deadline) {
        return Err(Refusal::BadDeadline);
    }
    if Table::GAP < gap_of(row.form, row.gap) {
        return Err(Refusal::BadGap);
    }
    if row.listed < 1 || Table::DISTANCES < row.listed {
        return Err(Refusal::BadListLength);
    }
    if row.tasks < 1 || Table::TASKS < row.tasks {
        return Err(Refusal::BadTaskCount);
    }
    if Table::ALL_TASKS < judged.tasks + row.tasks {
        return Err(Refusal::BadTaskCount);
    }
    lists_refusal(row)
}

// Nothing is judged yet.
pub fn unjudged() -> Tally
    ensures { result ≡ unjudgedOf }
{
    Tally {
        form: NO_FORM,
        count: 0,
        tasks: 0,
        bytes: 0,
        ids: [0u16; Table::CHAINS],
    }
}

// The same with one good row more.
fn counted(judged: Tally, row: Row) -> Tally
    requires { CountedRoom judged row }
    ensures { result ≡ countedOf judged row }
{
    let before = judged.ids;
    let ids = after_id(row.id, &before);
    Tally {
        form: u32::from(row.form),
        count: judged.count + 1,
        tasks: judged.tasks + row.tasks,
        bytes: judged.bytes + length_of(row.form, row.flag, row.listed, row.tasks),
        ids,
    }
}

// What is known with one row more, where it is good too.
pub fn judged_with(judged: Tally, row: Row) -> Result<Tally, Refusal>
    requires { Small judged }
    ensures { JudgedWith judged row result }
{
    if form_wrong(judged.form, row.form) {
        return Err(Refusal::BadMark);
    }
    if judged.count == Table::CHAINS {
        return Err(Refusal::BadChainCount);
    }
    row_refusal(judged, row)?;
    Ok(counted(judged, row))
}
