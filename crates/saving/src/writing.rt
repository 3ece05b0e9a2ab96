// The result written: put together in an array, and stored in the buffer.
ghost use Rattle.std.specs.Prelude.{◌≡◌, ◌+◌, ◌≤◌, length};
ghost use Rattle.slices.specs.Slices.{splice};
ghost use Rattle.slices.specs.Code.Begins.{Begins};
ghost use Rattle.saving.specs.Save.{written};

use slices::put;

// Writes the bytes with `new` in the place of `gone` of them from `at` on, as the first of `out`.
pub fn spliced(s: &[u8], at: usize, gone: usize, new: &[u8], out: &mut [u8])
    requires { (at + gone ≤ length s.now) × (length (splice s.now at gone new.now) ≤ length out.old) }
    ensures { Begins out.new (splice s.now at gone new.now) }
{
    put(out, 0, &s[..at]);
    put(out, at, new);
    put(out, at + new.len(), &s[at + gone..]);
}

// The result becomes the first bytes of the buffer, and what is left of the former table becomes 0.
pub fn store(buffer: &mut [u8], used: usize, res: &[u8])
    requires { (used ≤ length buffer.old) × (length res.now ≤ length buffer.old) }
    ensures { buffer.new ≡ written buffer.old used res.now }
{
    put(buffer, 0, res);
    let n = res.len();
    if n < used {
        buffer[n..used].fill(0);
    }
}
