// A chain record's fields, read where they stand. What the two forms have at other places is told apart here.
ghost use Rattle.std.specs.Prelude.{◌≡◌, ◌+◌, ◌*◌, ◌≤◌, ◌<◌, length, get_or, eqb};
ghost use Rattle.table.specs.Record.{largest_form, form_at, id_at, kind_at, overload_at, deadline_at, gap_at, flag_at, gap_width, head_length, listed_place, listed_at, tasks_at, list_place, known_at, largest_place, first_task, length_at, row_at};
ghost use Rattle.table.specs.Code.Listed.{listed_from, distances_from, Lists};
ghost use Rattle.table.specs.Code.Taken.{Stands};

use crate::Row;
use crate::bytes::{count_at, u16_at, u32_at};

// The form of the chain record at `at`: its mark as a number.
pub fn form_at(s: &[u8], at: usize) -> u16
    requires { at + 2 ≤ length s.now }
    ensures { result ≡ form_at s.now at }
{
    u16_at(s, at)
}

// Whether a chain of this form has a flag in the gap's place.
pub fn has_flag(form: u16) -> bool
    ensures { result ≡ eqb form largest_form }
{
    form == Row::LARGEST_FORM
}

// How many bytes the gap, or the flag in its place, has.
fn gap_width(form: u16) -> usize
    ensures { (result ≡ gap_width form) × (result ≤ 4) }
{
    if has_flag(form) { 1 } else { 4 }
}

// How many bytes the fixed part of a record has.
pub fn head_length(form: u16) -> usize
    ensures { (result ≡ head_length form) × (result ≤ 16) }
{
    12 + gap_width(form)
}

pub fn id_at(s: &[u8], at: usize) -> u16
    requires { at + head_length (form_at s.now at) ≤ length s.now }
    ensures { result ≡ id_at s.now at }
{
    u16_at(s, at + 2)
}

pub fn kind_at(s: &[u8], at: usize) -> u8
    requires { at + head_length (form_at s.now at) ≤ length s.now }
    ensures { result ≡ kind_at s.now at }
{
    s[at + 4]
}

pub fn overload_at(s: &[u8], at: usize) -> u8
    requires { at + head_length (form_at s.now at) ≤ length s.now }
    ensures { result ≡ overload_at s.now at }
{
    s[at + 5]
}

pub fn deadline_at(s: &[u8], at: usize) -> u32
    requires { at + head_length (form_at s.now at) ≤ length s.now }
    ensures { result ≡ deadline_at s.now at }
{
    u32_at(s, at + 6)
}

// Its gap, 0 where its form has none.
pub fn gap_at(s: &[u8], at: usize) -> u32
    requires { at + head_length (form_at s.now at) ≤ length s.now }
    ensures { result ≡ gap_at s.now at }
{
    if has_flag(form_at(s, at)) {
        return 0;
    }
    u32_at(s, at + 10)
}

// Its flag, 0 where its form has none.
pub fn flag_at(s: &[u8], at: usize) -> u8
    requires { at + head_length (form_at s.now at) ≤ length s.now }
    ensures { result ≡ flag_at s.now at }
{
    if has_flag(form_at(s, at)) {
        return s[at + 10];
    }
    0
}

// Where its two counts stand.
pub fn listed_place(s: &[u8], at: usize) -> usize
    requires { at + head_length (form_at s.now at) ≤ length s.now }
    ensures { result ≡ listed_place s.now at }
{
    at + (10 + gap_width(form_at(s, at)))
}

// How many distances it lists.
pub fn listed_at(s: &[u8], at: usize) -> usize
    requires { at + head_length (form_at s.now at) ≤ length s.now }
    ensures { (result ≡ listed_at s.now at) × (result < 256) }
{
    count_at(s, listed_place(s, at))
}

// How many tasks it has.
pub fn tasks_at(s: &[u8], at: usize) -> usize
    requires { at + head_length (form_at s.now at) ≤ length s.now }
    ensures { (result ≡ tasks_at s.now at) × (result < 256) }
{
    count_at(s, listed_place(s, at) + 1)
}

// How many largest distances it has.
pub fn known_at(s: &[u8], at: usize) -> usize
    requires { at + head_length (form_at s.now at) ≤ length s.now }
    ensures { (result ≡ known_at s.now at) × (result ≤ listed_at s.now at) }
{
    if flag_at(s, at) == 1 {
        return listed_at(s, at);
    }
    0
}

// Where its smallest distances start.
pub fn list_place(s: &[u8], at: usize) -> usize
    requires { at + head_length (form_at s.now at) ≤ length s.now }
    ensures { result ≡ list_place s.now at }
{
    at + head_length(form_at(s, at))
}

// Where its largest distances start, its smallest being there.
pub fn largest_place(s: &[u8], at: usize) -> usize
    requires { largest_place s.now at ≤ length s.now }
    ensures { result ≡ largest_place s.now at }
{
    list_place(s, at) + 4 * listed_at(s, at)
}

// Where its tasks start, from its first byte on, and how many they are. Each form's counts are read at their own places, so that a
// processor that foresees the form need not wait for the mark.
#[derive(Clone, Copy)]
pub struct TasksPart {
    pub from: usize,
    pub count: usize,
}

pub fn tasks_part(s: &[u8], at: usize) -> TasksPart
    requires { at + head_length (form_at s.now at) ≤ length s.now }
    ensures { (result.from ≡ head_length (form_at s.now at) + 4 * listed_at s.now at + 4 * known_at s.now at) × (result.count ≡ tasks_at s.now at) × (result.from < 3000) × (result.count < 256) }
{
    if has_flag(form_at(s, at)) {
        return TasksPart {
            from: 13 + 4 * count_at(s, at + 11) + 4 * known_at(s, at),
            count: count_at(s, at + 12),
        };
    }
    TasksPart {
        from: 16 + 4 * count_at(s, at + 14),
        count: count_at(s, at + 15),
    }
}

// Where its tasks start, its distances being there.
pub fn first_task(s: &[u8], at: usize) -> usize
    requires { first_task s.now at ≤ length s.now }
    ensures { result ≡ first_task s.now at }
{
    let tasks = tasks_part(s, at);
    at + tasks.from
}

// How long it is, by its count bytes as they stand.
pub fn record_length(s: &[u8], at: usize) -> usize
    requires { at + head_length (form_at s.now at) ≤ length s.now }
    ensures { result ≡ length_at s.now at }
{
    let tasks = tasks_part(s, at);
    tasks.from + 8 * tasks.count
}

// How many distances the list that starts at `list` has; in either form that stands two bytes before it.
pub fn listed_from(s: &[u8], list: usize) -> usize
    requires { (2 ≤ list) × (list ≤ length s.now) }
    ensures { (result ≡ listed_from s.now list) × (result < 256) }
{
    count_at(s, list - 2)
}

// Its distance j.
pub fn distance_from(s: &[u8], list: usize, j: usize) -> u32
    requires { Lists s.now list × (j < listed_from s.now list) }
    ensures { result ≡ get_or (distances_from s.now list) j 0 }
{
    u32_at(s, list + 4 * j)
}

// The largest distance j of a record that stands.
pub fn largest_at(s: &[u8], at: usize, j: usize) -> u32
    requires { Stands s.now at × (j < known_at s.now at) }
    ensures { result ≡ get_or (row_at s.now at).largest j 0 }
{
    u32_at(s, largest_place(s, at) + 4 * j)
}

// The priority of its task i, as a wider number, which has room for a level above every priority.
pub fn priority_at(s: &[u8], at: usize, i: usize) -> u32
    requires { Stands s.now at × (i < tasks_at s.now at) }
    ensures { (result ≡ get_or (row_at s.now at).priority i 0) × (result < 65536) }
{
    u32::from(u16_at(s, first_task(s, at) + 8 * i + 2))
}

// The cost of its task i.
pub fn cost_at(s: &[u8], at: usize, i: usize) -> u32
    requires { Stands s.now at × (i < tasks_at s.now at) }
    ensures { result ≡ get_or (row_at s.now at).cost i 0 }
{
    u32_at(s, first_task(s, at) + 8 * i + 4)
}
