// A table in the other form (document 02, request 7): what both forms have of a chain is copied, the rest put in
// the form asked. All is judged before the first byte is put.
#![tactic(auto)]

ghost use Rattle.converting.specs.Convert.{Converts};
ghost use Rattle.converting.specs.declared.To.TheVariants.{Largest, Gap};

mod forms;
mod put;
mod record;
mod shape;

pub use put::convert;
pub use shape::fits_gap;
use table::Refusal;

// The form asked.
#[derive(Clone, Copy)]
pub enum To {
    Largest,
    Gap,
}

// The table with largest distances becomes the first bytes of `out`; refused, every byte stays.
pub fn to_largest(s: &[u8], out: &mut [u8]) -> Result<u32, Refusal>
    ensures { Converts Largest s.now out.old result out.new }
{
    convert(s, out, To::Largest)
}

// The table with gaps becomes the first bytes of `out`; refused, every byte stays.
pub fn to_gap(s: &[u8], out: &mut [u8]) -> Result<u32, Refusal>
    ensures { Converts Gap s.now out.old result out.new }
{
    convert(s, out, To::Gap)
}
