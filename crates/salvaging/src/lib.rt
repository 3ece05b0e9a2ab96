// Salvage of a damaged table (document 02, request 8): the records that are acceptable beside those kept before them, found byte by byte,
// as a new table, and a list of what was skipped. All is known before the first byte is put.
#![tactic(auto)]

ghost use Rattle.salvaging.specs.Salvage.{Salvages};

mod put;
mod walk;

use put::fit;
use table::{Refusal, Table};
use walk::walk;

// What a salvage answers: the used lengths of the table and of the list.
#[derive(Clone, Copy, Debug, PartialEq, Eq)]
pub struct Lengths {
    pub table: u32,
    pub list: u32,
}

// The table of the records kept becomes the first bytes of `table`, the list of the stretches skipped those of `list`; refused, every byte
// of both stays.
pub fn salvage(s: &[u8], table: &mut [u8], list: &mut [u8]) -> Result<Lengths, Refusal>
    ensures { Salvages s.now table.old list.old result table.new list.new }
{
    if Table::INPUT < s.len() {
        return Err(Refusal::InputTooLong);
    }
    let mut places = [0usize; Table::CHAINS];
    let n = walk(s, &mut places);
    if n == 0 {
        return Err(Refusal::NothingKept);
    }
    fit(s, &places[..n], table, list)
}
