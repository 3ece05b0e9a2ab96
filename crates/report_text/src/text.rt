// Text in a lent buffer: each function writes a piece from a place on, and answers the place after it. A number of 32 bits has
// at most 10 digits, which bounds every piece.
ghost use Rattle.std.specs.Prelude.{◌≡◌, [], ◌∷◌, ◌+◌, ◌%◌, ◌≤◌, length};
ghost use Rattle.report_text.specs.Numbers.{decimal, signed};
ghost use Rattle.report_text.specs.Report.{after_space, refusal_text};
ghost use Rattle.slices.specs.Code.Wrote.{Wrote};

use table::Refusal;

pub fn put_byte(out: &mut [u8], at: usize, b: u8) -> usize
    requires { at + 1 ≤ length out.old }
    ensures { Wrote out.old at (b ∷ []) out.new result }
{
    out[at] = b;
    at + 1
}

pub fn put_text(out: &mut [u8], at: usize, text: &[u8]) -> usize
    requires { at + length text.now ≤ length out.old }
    ensures { Wrote out.old at text.now out.new result }
{
    let end = at + text.len();
    out[at..end].copy_from_slice(text);
    end
}

// The last digit of n.
fn digit(n: u32) -> u8
    ensures { result ≡ 48 + n % 10 }
{
    b'0' + (n % 10) as u8
}

// A number in decimal: the digits before the last one, and that.
pub fn put_decimal(out: &mut [u8], at: usize, n: u32) -> usize
    requires { at + length (decimal n) ≤ length out.old }
    ensures { Wrote out.old at (decimal n) out.new result }
{
    if n <= 9 {
        return put_byte(out, at, digit(n));
    }
    let last = put_decimal(out, at, n / 10);
    put_byte(out, last, digit(n))
}

// A space and a number.
pub fn put_number(out: &mut [u8], at: usize, n: u32) -> usize
    requires { at + 11 ≤ length out.old }
    ensures { Wrote out.old at (after_space (decimal n)) out.new result × (result ≤ at + 11) }
{
    let next = put_byte(out, at, b' ');
    put_decimal(out, next, n)
}

// A space and a signed number.
pub fn put_signed(out: &mut [u8], at: usize, x: i32) -> usize
    requires { at + 12 ≤ length out.old }
    ensures { Wrote out.old at (after_space (signed x)) out.new result × (result ≤ at + 12) }
{
    if x >= 0 {
        return put_number(out, at, x.unsigned_abs());
    }
    let next = put_text(out, at, b" -");
    put_decimal(out, next, x.unsigned_abs())
}

// A space, `r` and a refusal's number.
pub fn put_refusal(out: &mut [u8], at: usize, refusal: Refusal) -> usize
    requires { at + 12 ≤ length out.old }
    ensures { Wrote out.old at (after_space (refusal_text refusal)) out.new result × (result ≤ at + 12) }
{
    let next = put_text(out, at, b" r");
    put_decimal(out, next, refusal.number())
}
