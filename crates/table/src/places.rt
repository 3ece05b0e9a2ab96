// The chains of an accepted table: how many there are, one by its id, and where each one's record starts.
ghost use Rattle.std.specs.Prelude.{◌≡◌, ◌≤◌, ◌<◌};
ghost use Rattle.table.specs.Find.{chain_with};
ghost use Rattle.table.specs.Place.{place_of};
ghost use Rattle.table.specs.Code.Taken.{Taken};
ghost use Rattle.table.specs.Read.{table_of};

use crate::bytes::u16_at;
use crate::record::{id_at, record_length};

// How many chains there are: the last two bytes say so.
pub fn count(s: &[u8]) -> usize
    requires { Taken s.now }
    ensures { result ≡ (table_of s.now).count }
{
    usize::from(u16_at(s, s.len() - 2))
}

// The number of the chain that bears the id, counted from 0, if one does.
pub fn find(s: &[u8], id: u32) -> Option<usize>
    requires { Taken s.now }
    ensures { result ≡ chain_with (table_of s.now) id }
{
    let mut at: usize = 0;
    for chain in 0..count(s) {
        if u32::from(id_at(s, at)) == id {
            return Some(chain);
        }
        at += record_length(s, at);
    }
    None
}

// Where the record of a chain, by its number from 0, starts.
pub fn place(s: &[u8], chain: usize) -> usize
    requires { Taken s.now × (chain ≤ (table_of s.now).count) }
    ensures { result ≡ place_of (table_of s.now) chain }
{
    let mut at: usize = 0;
    for _ in 0..chain {
        at += record_length(s, at);
    }
    at
}
