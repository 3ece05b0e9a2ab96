// Saving one record (document 01, 'Saving one record'): an edit made from an old copy never overwrites a newer one, and a
// refused save changes nothing. The result is judged before the first byte is written.
#![tactic(auto)]

ghost use Rattle.saving.specs.Save.{Saves};

use table::{Refusal, Table};

mod judge;
mod writing;

use judge::judged;
use writing::store;

// Replaces the record `old`, as the editor saw it, by `new`, in the table that is the first `used` bytes of the buffer.
pub fn save(buffer: &mut [u8], used: u64, old: &[u8], new: &[u8]) -> Result<u32, Refusal>
    ensures { Saves buffer.old used old.now new.now result buffer.new }
{
    let room = buffer.len();
    if (room as u64) < used {
        return Err(Refusal::BadLength);
    }
    let end = used as usize;
    let mut bytes = [0u8; Table::BYTES];
    judged(&buffer[..end], room, old, new, &mut bytes)?;
    let n = end - old.len() + new.len();
    store(buffer, end, &bytes[..n]);
    Ok(n as u32)
}
