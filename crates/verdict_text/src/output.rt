// Pieces of a line, each to `to`, which prints: each function answers whether its piece was written.

pub fn put(to: &impl Print, text: &[u8]) -> bool {
    to.write_all(text).is_ok()
}

pub fn put_number(to: &impl Print, n: usize) -> bool {
    to.print(n).is_ok()
}

// What so many of something have behind its name.
pub(crate) fn plural(n: usize) -> &'static str {
    if n == 1 { "" } else { "s" }
}

// So many of something, in the plural but for one.
pub fn put_counted(to: &impl Print, n: usize, what: &[u8]) -> bool {
    put_number(to, n) && put(to, what) && to.print(plural(n)).is_ok()
}
