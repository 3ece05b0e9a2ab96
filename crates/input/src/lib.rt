// What a program is given in an open file, or in one that an argument names, read into a buffer that its caller lends.
#![tactic(auto)]

ghost use Rattle.std.specs.Prelude.{◌≡◌, ℕ, ◌≤◌, length, IfOk};

use std::env::FillError;
use std::io::{Cursor, Read, Write};
use std::rt::{Env, Files};
use std::{fs, io, str};

// Reads until the file ends or the buffer is full. Where a read fails, what came in before it is counted too.
fn come_in(from: &mut impl Read, buffer: &mut [u8], used: &mut usize) -> io::Result<()>
    ensures { used.new ≤ length buffer.new }
{
    *used = 0;
    while *used < buffer.len() {
        let more = from.read(&mut buffer[*used..])?;
        if more == 0 {
            break;
        }
        *used += more;
    }
    Ok(())
}

// The same, where it matters whether a read failed, but not why: how many bytes came in, or none is told where one failed.
pub fn take_in(from: &mut impl Read, buffer: &mut [u8]) -> Option<usize>
    ensures { (n : ℕ) → result ≡ Some n → n ≤ length buffer.new }
{
    let mut used: usize = 0;
    come_in(from, buffer, &mut used).ok()?;
    Some(used)
}

// The same, where a read that fails ends the file.
pub fn read_full(from: &mut impl Read, buffer: &mut [u8]) -> usize
    ensures { result ≤ length buffer.new }
{
    let mut used: usize = 0;
    let _ = come_in(from, buffer, &mut used);
    used
}

// Says what went wrong with what is called so.
fn say_failed(err: &impl Print, name: &[u8], what: &[u8]) {
    let _ = err.write_all(name);
    let _ = err.write_all(b": ");
    let _ = err.write_all(what);
    let _ = err.write_all(b"\n");
}

// The words of an error of the system's, which end at the first 0 or before the number that std puts in brackets after them.
fn words_of(shown: &[u8]) -> &[u8] {
    for (i, byte) in shown.iter().enumerate() {
        if *byte == 0 {
            return &shown[..i];
        }
        if *byte == b'(' && 0 < i {
            return &shown[..i - 1];
        }
    }
    shown
}

// The same of an error of the system's, in its own words.
fn say_error(err: &impl Print, name: &[u8], why: &io::Error) {
    let mut shown = [0u8; 256];
    let mut to = Cursor::new(shown.as_mut_slice());
    let _ = write!(to, "{why}");
    say_failed(err, name, words_of(&shown));
}

// What the file holds that has this name.
fn take_open(files: &impl Files, name: &str, buffer: &mut [u8]) -> io::Result<usize>
    ensures { IfOk result (λ n. n ≤ length buffer.new) }
{
    let mut file = fs::open(files, name)?;
    let mut used: usize = 0;
    come_in(&mut file, buffer, &mut used)?;
    Ok(used)
}

// The same, and where it cannot be read, that is said. std opens a file by a name that is text alone.
fn take_named(rt: &impl Files, err: &impl Print, name: &[u8], buffer: &mut [u8]) -> Option<usize>
    ensures { (n : ℕ) → result ≡ Some n → n ≤ length buffer.new }
{
    let Ok(text) = str::from_utf8(name) else {
        say_failed(err, name, b"its name is not in UTF-8");
        return None;
    };
    match take_open(rt, text, buffer) {
        Ok(n) => Some(n),
        Err(why) => {
            say_error(err, name, &why);
            None
        }
    }
}

// Whether the program was given this argument.
pub fn has_argument(rt: &impl Env, argument: usize) -> bool {
    let mut word = [0u8; 1];
    match rt.arg(argument, &mut word) {
        Ok(_) | Err(FillError::TooLong) => true,
        Err(FillError::NotPresent) => false,
    }
}

// What the file holds that this argument names. Where it cannot be read, that is said, and of an argument that is not there, which one.
pub fn take_file<R: Env + Files>(
    rt: &R,
    err: &impl Print,
    argument: usize,
    which: &[u8],
    buffer: &mut [u8],
) -> Option<usize>
    ensures { (n : ℕ) → result ≡ Some n → n ≤ length buffer.new }
{
    let mut name = [0u8; 4096];
    match rt.arg(argument, &mut name) {
        Ok(n) => take_named(rt, err, &name[..n], buffer),
        Err(FillError::NotPresent) => {
            say_failed(err, which, b"Invalid argument");
            None
        }
        Err(FillError::TooLong) => {
            say_failed(err, which, b"File name too long");
            None
        }
    }
}
