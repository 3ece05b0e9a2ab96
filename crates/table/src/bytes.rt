// Little-endian numbers in a slice.
ghost use Rattle.std.specs.Prelude.{◌≡◌, ◌+◌, ◌≤◌, ◌<◌, length, get_or, take, drop, ◌++◌};
ghost use Rattle.table.specs.Bytes.{word, bytes_of};

pub fn u16_at(s: &[u8], at: usize) -> u16
    requires { at + 2 ≤ length s.now }
    ensures { result ≡ word 2 s.now at }
{
    u16::from(s[at]) + u16::from(s[at + 1]) * 256
}

pub fn u32_at(s: &[u8], at: usize) -> u32
    requires { at + 4 ≤ length s.now }
    ensures { result ≡ word 4 s.now at }
{
    u32::from(u16_at(s, at)) + u32::from(u16_at(s, at + 2)) * 65536
}

pub fn u64_at(s: &[u8], at: usize) -> u64
    requires { at + 8 ≤ length s.now }
    ensures { result ≡ word 8 s.now at }
{
    u64::from(u32_at(s, at)) + u64::from(u32_at(s, at + 4)) * 4_294_967_296
}

// A byte as a count.
pub fn count_at(s: &[u8], at: usize) -> usize
    requires { at < length s.now }
    ensures { (result ≡ get_or s.now at 0) × (result < 256) }
{
    usize::from(s[at])
}

// The two bytes of x from `at` on, the smaller first.
pub fn put_u16(s: &mut [u8], at: usize, x: u16)
    requires { at + 2 ≤ length s.old }
    ensures { s.new ≡ take at s.old ++ bytes_of 2 x ++ drop (at + 2) s.old }
{
    s[at] = (x % 256) as u8;
    s[at + 1] = (x / 256 % 256) as u8;
}

// The four bytes of x from `at` on, the smallest first.
pub fn put_u32(s: &mut [u8], at: usize, x: u32)
    requires { at + 4 ≤ length s.old }
    ensures { s.new ≡ take at s.old ++ bytes_of 4 x ++ drop (at + 4) s.old }
{
    s[at] = (x % 256) as u8;
    s[at + 1] = (x / 256 % 256) as u8;
    s[at + 2] = (x / 256 / 256 % 256) as u8;
    s[at + 3] = (x / 256 / 256 / 256 % 256) as u8;
}
